//! Derived clauses with their derivations, and what checks a derivation.

use sc_term::{Clause, Line, List};

/// A derived clause with its derivation, in which `Input(n)` names clause number n.
#[derive(Debug, Drop)]
pub struct Derived {
    pub clause: Clause,
    pub lines: List<Line>,
}
