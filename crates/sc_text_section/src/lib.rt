//! Readers of the productions of a proof section, from tokens. Each answers exactly what the definition of its name in
//! `sc_text_rules` (`ProofGrammar`) gives: a value and the tokens behind it, or with how many tokens left it fails, and
//! why (`Stop`). Want of memory alone is free.
//!
//! A number of a step, of a path or of a variable that is greater than 4,294,967,295 is answered as that number
//! (`specs/Clipped.antt`); the number of a line is compared as it is written. Each line becomes a value as soon as it
//! is read, so no more than one is kept as it is written.
//!
//! It stands on the readers of clauses and sides in `sc_input_grammar`, and on `sc_input_values`, which makes terms of names.
//! Callers may rest on the clause of `read_section`, on those of its parts that run texts have too (`proof_section`,
//! `read_text_clause`, `the_heading`), and on two laws (`proofs/`): what a section leaves is an end of
//! what it was given, and the first tokens of a text decide what is read of it. Time is linear in the tokens read but
//! for the look at each symbol's name; sides are read by recursion as deep as their parentheses nest.
#![tactic(auto)]

mod clause;
mod number;
mod section;
mod step;
mod terms;

pub use clause::read_text_clause;
pub use section::{proof_section, read_section, the_heading};
