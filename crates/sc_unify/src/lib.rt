//! Unification, matching and joint instances (Robinson's algorithm over a triangular substitution).
//!
//! It stands on the terms, unifiers and instances that sc_term defines and proves laws of, and on sc_term's copies
//! and comparisons. Callers may rest on these: `unify` and `unify_all` answer a most general unifier, and None exactly
//! where there is no unifier; `match_onto` answers terms that make the atoms equal, and None exactly where there are
//! none; `Subst::apply_limited` answers the instance, and None exactly where it weighs over 10,000 or is deeper than
//! 256; `joint_terms` answers for each parent the terms that take it to its part of the joint instance, and None
//! exactly where that is outside the same limits. Want of memory is the one other answer.
//!
//! Bindings are kept as they are made, in terms of the literals given, so a unifier takes the memory of its bindings,
//! however large its terms are when written out. Contracts see the finished map: each bound variable with its term
//! written out; a variable without an entry stands for itself. Equations are a list of pairs that are still to become
//! equal; the occurs check enters each bound variable once.
#![tactic(auto)]

mod bound;
mod equation;
mod fitting;
mod joint;
mod limits;
mod matching;
mod occurs;
mod solve;
mod substitution;
mod unifier;
mod write;

pub use bound::Bound;
pub use fitting::match_term_onto;
pub use joint::joint_terms;
pub use matching::match_onto;
pub use sc_term::Pair;
pub use substitution::Subst;
pub use unifier::{unify, unify_all};
