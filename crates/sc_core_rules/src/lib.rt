//! The rules of search, as definitions: nothing here searches.
//!
//! `specs/` says what the sites of each rule are (binary resolution, factoring, hyperresolution, UR-resolution,
//! paramodulation from and into the given clause), what the conclusion of a site is and by which derivation it follows,
//! what subsumption, tautologies, rewriting, orientation and unit deletion are, what becomes of a conclusion in the
//! fourteen steps of its processing, and what the start, the selection, a turn and a run of the given-clause loop are.
//! They are relations over lists: filters, least elements, cases in order. `docs/SEARCH.md` retells them. `proofs/` has
//! the laws: each means one thing; each derived clause follows by its derivation from the clauses of smaller number; a
//! run that has found the empty clause refutes its input clauses; and worked cases.
//!
//! It stands on the definitions of clauses, proofs and most general unifiers (`sc_term`), derivations (`sc_steps`),
//! problems (`sc_input_rules`) and interpretations (`sc_interp`). Callers may rest on the types, which are plain data.
#![tactic(auto)]

mod fate;
mod row;
mod site;

pub use fate::{Fate, Processed};
pub use row::{Cause, GivenRow, KeptRow, Outcome};
pub use site::{BinarySite, FactorSite, HyperSite, ParaSite, Pick, UrSite};
