//! All sites of a turn, and the conclusion of each.
//!
//! It stands on `sc_core_rules`, whose definitions of sites, inferences and conclusions (`Sites`, `Inference`) the contracts
//! cite, and on `sc_resolve`, `sc_hyper` and `sc_para`, which list the sites of each rule and make its conclusions.
//!
//! Callers may rest on this: `sites` answers the first sites of the given clause by the rules whose flags are set, in the
//! order of the rules and of the sites of each, as many as the limit allows, and all and only those. `named` answers the
//! numbers of the usable clauses that a site names, in the order of the parents; over these clauses alone the inferences
//! at the site are the same (`NamedLaws`). `conclude` answers the conclusion of a site with its derivation, and None
//! exactly where the site has no conclusion, which is where the joint instance or the conclusion is outside the limits.
//! Clauses have to be canonical and within the limits (`IsKept`), and their numbers have to differ. Want of memory is the
//! one other answer.
#![tactic(auto)]

mod concluding;
mod listing;
mod naming;
mod site;
mod told;

pub use concluding::conclude;
pub use listing::sites;
pub use naming::named;
pub use site::Site;
