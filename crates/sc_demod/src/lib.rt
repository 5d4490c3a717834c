//! Rewriting by demodulators, orientation of equations and unit deletion, as a conclusion is simplified.
//!
//! It stands on the definitions `Rewriting` and `Simplification` of sc_core_rules, on sc_unify's `match_onto`, on sc_resolve for
//! the lines of a part and the order of units, on sc_term's instances and weights, and on sc_steps' `Made`, a conclusion
//! with its derivation. Callers may rest on these:
//! `rewrite`, `orient` and `unit_delete` answer the conclusion that the definitions say (`Rewrites`, `Orients`,
//! `DeletesOnce` until there is none), with its derivation line for line; what they take by value is spent. Over every
//! list of clauses that has the demodulators and units at their numbers, and over which the argument's lines check, the
//! answer's lines check too; `unit_delete_by` takes references to units that are in order. `has_redex` and
//! `becomes_demod` answer true exactly where the definitions say.
//!
//! The walk to the first redex goes no further than that redex, and as deep as terms are; a redex's path is put together
//! on the way back, and `has_redex` walks without one. The first demodulator that fits is the least, since their numbers
//! rise; units may stand in any order, with numbers that differ, and are tried in the order of their numbers. A term is
//! copied for each pattern whose first symbol it has, as matching is of atoms. Want of memory is the one other answer; by
//! design it is the answer too where three more lines would make 4,294,967,295 or more, as their numbers are of u32.
#![tactic(auto)]

mod becoming;
mod count;
mod demods;
mod equation;
mod extend;
mod find;
mod fit;
mod orientation;
mod redex;
mod replace;
mod rewriting;
mod unit;

pub use becoming::becomes_demod;
pub use demods::Demods;
pub use orientation::orient;
pub use redex::has_redex;
pub use rewriting::rewrite;
pub use unit::{unit_delete, unit_delete_by};
