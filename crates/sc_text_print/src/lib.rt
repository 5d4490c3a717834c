//! Prints clauses, proofs, tables and runs.
//!
//! `print_clause` and `print_proof` answer the bytes that `clause_text` and `proof_text` of sc_text_rules say, `print_model`
//! and `print_run` those that `model_text` and `run_text` of sc_text_run_rules say. Want of memory is the one other answer.
//! As those definitions have it, a symbol that isn't in the signature is printed as the empty name, and a table without a
//! symbol and a symbol without a table have no row, so the calls ask nothing of their arguments; tables over the signature
//! have a row for each symbol but `=`.
//!
//! All is appended to one text as it is met, so a call takes time and memory in proportion to the text. It recurses as
//! deep as terms are. It stands on the terms and the signature of sc_term, on the types of sc_text_run_rules and on the
//! digits of `itoa`.
#![tactic(auto)]

mod append;
mod clause;
mod line;
mod model;
mod proof;
mod row;
mod run;
mod term;
mod turns;
mod versions;
mod words;

pub use clause::print_clause;
pub use model::print_model;
pub use proof::print_proof;
pub use run::print_run;
