//! The checker of proofs, and what a checked proof means. It knows neither a unifier nor anything of a search.

pub mod equality;
pub mod instance;
pub mod model;
pub mod proof;
