//! From bytes to tokens, and readers of one token. Each answers exactly what the definition of its name in
//! `sc_input_rules` gives: a value and the tokens behind it, or with how many tokens left it fails, and why (`Stop`).
//!
//! `scan` goes over the bytes once. White space and comments are left out; what makes no token stands as one that is
//! refused, with the kind of its fault, so that scanning never fails but for want of memory, and a fault is told only
//! where a reader comes to it. Words point into the text: nothing is copied. Time and memory are in proportion to the
//! bytes. `scan_problem` refuses `:` besides, which is no token of a problem.
//!
//! The readers of one token look at the next token alone, and take no memory. `Gives` and `Fails` of `specs/Told.antt`
//! say how an answer tells of a production; readers of every larger production are built on them by `?`, and their
//! contracts have the same form. `Rest` is the tokens that a loop has left.
//!
//! It stands on the tokens and productions of `sc_input_rules`. Callers may rest on this: the tokens are exactly those of
//! `tokens_behind`, and a fault is told with as many tokens left as the production leaves. No reader recurs.
#![tactic(auto)]

mod bytes;
mod next;
mod numeral;
mod pieces;
mod rest;
mod scanner;
mod stop;

pub use next::{
    a_name, a_word, is_sign, is_word, next_is_sign, next_is_word, stop_at, the_sign, the_word,
};
pub use numeral::numeral_value;
pub use rest::Rest;
pub use scanner::{scan, scan_problem};
pub use stop::Stop;
