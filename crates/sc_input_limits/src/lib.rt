//! The first limit that the tokens of a problem pass, and the token that passes it: a number outside its range, an
//! argument, a clause or a symbol too many, a clause too heavy or too deep, a clause that is no demodulator. The limits
//! and their order are those of `problem_limits` in `sc_input_rules`.
//!
//! One loop goes over the tokens. It keeps which list is open, where the sentence began, how many clauses are whole,
//! the counters of the clause so far and the symbols of the whole clauses (`Reached`); what that says of the tokens so
//! far is `IsBehind` in `specs/`. A clause is read, by `sc_input_grammar`, at its full stop alone, when its depth is known to
//! be within the limit, so that reader recurses no deeper than that. Time and memory are in proportion to the text.
//!
//! Callers may rest on this: up to the token that is answered no limit is passed, with it the place answered is told,
//! and where none is answered none is passed. Reading up to that token then decides the answer on the whole text.
#![tactic(auto)]

mod count;
mod demodulator;
mod first;
mod limits;
mod position;
mod range;
mod reached;
mod symbols;

pub use count::{ClauseCount, is_equality, last_at};
pub use first::{Passed, first_limit};
pub use position::between;
pub use range::{capped_value, is_numeral};
