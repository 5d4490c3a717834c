//! A site of any rule.

use sc_core_rules::{BinarySite, FactorSite, HyperSite, ParaSite, UrSite};

/// A site of one of the rules, in the order of the rules.
#[derive(Debug, Drop)]
pub enum Site {
    Binary(BinarySite),
    Factor(FactorSite),
    Hyper(HyperSite),
    Ur(UrSite),
    ParaFrom(ParaSite),
    ParaInto(ParaSite),
}
