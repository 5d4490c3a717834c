//! Paramodulation: the sites from and into a given clause, and the conclusions of sites with their derivations.
//!
//! It stands on `sc_core_rules`, whose definitions of sites, inferences and conclusions (`Paramodulation`, `Inference`,
//! `Derivation`) the contracts cite, on `sc_resolve` for how lists of sites grow and how derivations are put together,
//! on `sc_unify` for unifiers, on `sc_term` and on `sc_steps`, whose `Made` keeps that the last line has the conclusion.
//!
//! Callers may rest on this: `para_from_sites` and `para_into_sites` answer the first sites in order, as many as the
//! limit allows, and all and only those; neither a side that is a variable nor a subterm that is one has a site.
//! `make_para` answers the conclusion of a site with its one derivation, and None exactly where the site has no
//! conclusion, which is where the joint instance or the conclusion is outside the limits. Clauses have to be canonical
//! and within the limits (`IsKept`). Usable clauses may stand in any order, but their numbers have to differ; where the
//! two clauses of a site have one number they have to be one. Want of memory is the one other answer.
#![tactic(auto)]

mod conclusion;
mod listing;
mod making;
mod pairs;
mod replacing;
mod spot;
mod subterms;

pub use listing::{para_from_sites, para_into_sites};
pub use making::make_para;
