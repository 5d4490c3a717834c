//! The set of support by number, weight and mark: which clause is given next.
//!
//! `Sos` holds the numbers of the clauses that wait, with their weights. `oldest` tells the least number, `lightest` the
//! least weight, ties to the lesser number, and `lightest_false` the least weight of those that are False in some marks.
//! Contracts see the numbers with their weights, and how many more can be added without memory (`specs/Waiting`).
//!
//! It stands on the marks of clauses (`sc_mark`). Callers may rest on this: each look-up is the least element that its
//! definition names, and tells nothing exactly where there is none; `push` within what was reserved, `remove` and the
//! look-ups take no memory. A look-up takes one pass over the numbers.
#![tactic(auto)]

mod looking;
mod sos;

pub use sos::{Sos, Weighed};
