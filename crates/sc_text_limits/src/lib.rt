//! The first limit that the tokens of a proof section or of a run text pass, and the token that passes it: a name that
//! the signature doesn't have, a variable's number or another number outside its range, an argument too many, a clause
//! or a term too heavy or too deep. The limits and their order are those of `text_limits` in `sc_text_rules`.
//!
//! One loop goes over the tokens. It keeps where in its sentence the next token stands, what `sc_input_limits` counts of a
//! clause, here of the clause or the term so far, the words whose parentheses are open, and the name that ends with the
//! last token (`Reached`); what that says of the tokens so far is `IsBehind` in `specs/`. No token is looked at again
//! but for the word of a name, once where it ends. Time and memory are in proportion to the text.
//!
//! Callers may rest on this: up to the token that is answered no limit is passed, with it the place answered is told,
//! and where none is answered none is passed. Reading up to that token then decides the answer on the whole text.
#![tactic(auto)]

mod first;
mod formula;
mod limits;
mod names;
mod part;
mod reached;

pub use first::first_limit;
pub use sc_input_limits::Passed;
