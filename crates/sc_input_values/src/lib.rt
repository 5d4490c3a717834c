//! Problems as values, made of what is written: clauses over numbered symbols and variables, the home of each, flags
//! and parameters.
//!
//! Symbols are numbered by the byte of their first occurrence, after `=`, which is 0; variables by first occurrence in
//! their clause. Terms come from the names of a literal in the order of the text, taken from the end with a stack,
//! whose top has the arguments of the next name. The last item that sets a flag or assigns a parameter holds.
//!
//! It stands on the definitions of `sc_input_rules` (`Numbering`, `Problem`, `WellFormed`), on the items of `sc_input_grammar`
//! and on `Signature` of `sc_term`. Callers may rest on this: each function answers exactly what the definition of its
//! name gives, in time that grows with what is written, want of memory aside; and a `Problem` keeps `IsProblem`: a
//! home for each clause, canonical clauses over its signature, the form of demodulators, the ranges and the limits.
//! Whoever makes one shows that first: what is read within the limits does.
#![tactic(auto)]

mod clauses;
mod settings;
mod stated;
mod symbols;
mod terms;
mod variables;

pub(crate) use clauses::number_clauses;
pub(crate) use settings::{flags_from, params_from};
pub use stated::problem_from;
pub use terms::{Numbering, literal_from, terms_from};
