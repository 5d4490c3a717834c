//! What provers put proofs together with: derivations, and the proof of a clause from those of the clauses that it needs.

pub mod derivation;
pub mod join;
pub mod made;
pub mod named;
pub mod needed;
pub mod proof_of_goal;
pub mod source;
