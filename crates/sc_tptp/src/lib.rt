//! Problems in TPTP's clause form, from tokens: its literals, formulas and statements. Each reader answers exactly what the
//! definition of its name in `sc_tptp_rules` gives: a value and the tokens behind it, or with how many tokens left it
//! fails, and why (`Stop`). Want of memory alone is free.
//!
//! It stands on the tokens of `sc_tptp_scan`, on the readers of one token in `sc_input_scan`, and on the reader of sides in
//! `sc_input_grammar`: a side is the same in both languages. Callers may rest on the clause of `read_statements`, which is
//! the production `statements`. Time is linear in the tokens read. Sides are read by recursion as deep as their
//! parentheses nest, and nothing else recurs: callers hand on tokens whose nesting they have bounded.
#![tactic(auto)]

mod equation;
mod formula;
mod literal;
mod statement;
mod words;

pub use statement::{Statement, read_statements};
