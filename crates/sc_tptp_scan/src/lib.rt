//! From bytes of TPTP's clause form to tokens, each as it may stand in its place.
//!
//! `scan_cnf` goes over the bytes once. White space and comments are left out; what makes no token, or may not stand where
//! it does, stands as a token that is refused, with the kind of its fault, so that scanning never fails but for want of
//! memory, and a fault is told only where a reader comes to it. Words point into the text: nothing is copied. Of the
//! tokens before one no more is kept than `Standing`: four small values. Time and memory are in proportion to the bytes,
//! and nothing recurs.
//!
//! It stands on the tokens and places of `sc_tptp_rules`. Callers may rest on this: the tokens are exactly those of
//! `cnf_tokens`. `$false` stands as the word `$F` and `~` as the sign `-`, as the problem language writes them, so that its
//! readers of sides and clauses serve here too.
#![tactic(auto)]

mod bytes;
mod pieces;
mod placing;
mod region;
mod scanner;
mod standing;
mod words;

pub use bytes::begins_upper;
pub use scanner::scan_cnf;
