//! What becomes of a conclusion.

use sc_term::List;

/// The fate of a conclusion: kept under a number, empty under a number, dropped as a tautology, as too heavy or as too
/// long, or subsumed by the clause of a number.
#[derive(Clone, Copy, Debug, PartialEq, Eq)]
pub enum Fate {
    Kept(u32),
    Empty(u32),
    Taut,
    Heavy,
    Long,
    Subsumed(u32),
}

/// The fate of a conclusion, the numbers of the clauses that were deleted for it, and of those among them that go back
/// to the work list.
#[derive(Debug, Drop)]
pub struct Processed {
    pub fate: Fate,
    pub gone: List<u32>,
    pub again: List<u32>,
}
