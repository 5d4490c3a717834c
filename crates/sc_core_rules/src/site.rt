//! Where a rule of inference applies. Clauses are named by their numbers, and literals by their places, from 1.

use sc_term::{List, Side};

/// Binary resolution: a literal of the given clause against a literal of a partner.
#[derive(Debug, Drop)]
pub struct BinarySite {
    pub partner: u32,
    pub given_lit: u32,
    pub partner_lit: u32,
}

/// Factoring: two literals of the given clause, `first` before `second`.
#[derive(Debug, Drop)]
pub struct FactorSite {
    pub first: u32,
    pub second: u32,
}

/// A clause and a literal of it.
#[derive(Debug, Drop)]
pub struct Pick {
    pub number: u32,
    pub lit: u32,
}

/// Hyperresolution: a nucleus and, for each of its negative literals in order, a literal of an electron.
#[derive(Debug, Drop)]
pub struct HyperSite {
    pub nucleus: u32,
    pub electrons: List<Pick>,
}

/// UR-resolution: a nucleus, the literal of it that is left, and for each other literal in order a unit clause.
#[derive(Debug, Drop)]
pub struct UrSite {
    pub nucleus: u32,
    pub target: u32,
    pub units: List<u32>,
}

/// Paramodulation: a side of equation `from_lit` of clause `from`, and the subterm at `path`, the places, from 1, of the
/// arguments that lead to it, of literal `into_lit` of clause `into`.
#[derive(Debug, Drop)]
pub struct ParaSite {
    pub from: u32,
    pub from_lit: u32,
    pub side: Side,
    pub into: u32,
    pub into_lit: u32,
    pub path: List<u32>,
}
