//! Binary resolution and factoring: the sites of a given clause, and the conclusions of sites with their derivations.
//!
//! It stands on `sc_core_rules`, whose definitions of sites, inferences and conclusions (`Resolution`, `Inference`,
//! `Derivation`) the contracts cite, on `sc_unify` for unifiers and joint instances, on `sc_term` and on `sc_steps`,
//! whose `Made` keeps that the last line has the conclusion.
//!
//! Callers may rest on this: `binary_sites` and `factor_sites` answer the first sites in order, as many as the limit
//! allows, and all and only those; `make_binary` and `make_factor` answer the conclusion of a site with its one
//! derivation, and None exactly where the site has no conclusion, which is where the joint instance is outside the
//! limits. Clauses have to be canonical and within the limits (`IsKept`, which `is_kept` tests). Usable clauses may stand
//! in any order, but their numbers have to differ; `by_number` answers clauses in the order of their numbers. A partner
//! with the given clause's number has to be that clause, which is then one line of the derivation for both. Want of
//! memory is the one other answer.
#![tactic(auto)]

mod binary;
mod canonical;
mod factor;
mod joint;
mod lines;
mod literals;
mod merging;
mod order;
mod resolving;

pub use binary::binary_sites;
pub use canonical::{finish, is_kept};
pub use factor::factor_sites;
pub use joint::{Both, Part, joint_two, part_of};
pub use lines::{add_line, add_part};
pub use literals::literal;
pub use merging::make_factor;
pub use order::by_number;
pub use resolving::make_binary;
