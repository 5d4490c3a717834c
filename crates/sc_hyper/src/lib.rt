//! Hyperresolution and UR-resolution: the sites of a given clause, and the conclusions of sites with their derivations.
//!
//! It stands on `sc_core_rules`, whose definitions of sites, inferences and conclusions (`Hyperresolution`, `Inference`,
//! `Derivation`) the contracts cite, on `sc_unify` for unifiers and joint instances, on `sc_term` and `sc_steps`, and on
//! `sc_resolve` for how a list grows by the first things of which something holds, and how a derivation grows line by
//! line.
//!
//! Callers may rest on this: `hyper_sites` and `ur_sites` answer the first sites in order, as many as the limit allows,
//! and all and only those. They go from literal to literal of the nucleus, and go on from no choice of electrons whose
//! signs aren't opposite or that doesn't unify; at the last literal they try only what brings the given clause in, where
//! it is missing. `make_hyper` and `make_ur` answer the conclusion of a site with its one derivation, and None exactly
//! where the site has no conclusion, which is where the joint instance is outside the limits. Usable clauses have to be
//! canonical and within the limits (`IsKept`), with numbers that differ; they may stand in any order. Want of memory is
//! the one other answer.
#![tactic(auto)]

mod candidates;
mod choice;
mod choosing;
mod hyper;
mod makers;
mod named;
mod negatives;
mod pairing;
mod parts;
mod steps;
mod ur;

pub use hyper::hyper_sites;
pub use makers::{make_hyper, make_ur};
pub use ur::ur_sites;
