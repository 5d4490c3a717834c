//! What is said of clauses in tables, as plain data.

use sc_term::Clause;

/// Whether tables make a clause true; `Wide` where too many assignments would have to be tried.
#[derive(Clone, Copy, Debug, PartialEq, Eq)]
pub enum Truth {
    True,
    False,
    Wide,
}

/// A finder, from 1, and a place, from 0, in the list that it published. (0, 0) is the opening version.
#[derive(Clone, Copy, Debug, PartialEq, Eq)]
pub struct VersionName {
    pub finder: u32,
    pub place: u32,
}

/// An input clause with its number, from 1, of which it is said that tables make it true.
#[derive(Debug, Drop)]
pub struct Claim {
    pub number: u32,
    pub clause: Clause,
}
