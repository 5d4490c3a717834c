//! A conclusion with its derivation.

ghost use Rattle.std.specs.Prelude.{◌≡◌, ◌≤◌, Some};
ghost use Rattle.sc_term.specs.Clause.{weight, depth};
ghost use Rattle.sc_steps.specs.Derivation.{last_clause};

use sc_term::{Clause, Line, List};

/// A conclusion with its derivation, in which `Input(n)` names clause number n. It keeps that the last line has the
/// clause, and that the clause is within the limits, weight 10,000 and depth 256.
#[derive(Debug, Drop)]
pub struct Made {
    pub clause: Clause,
    pub lines: List<Line>,
    pub ghost ends: { last_clause lines ≡ Some clause },
    pub ghost light: { weight clause ≤ 10000 },
    pub ghost shallow: { depth clause ≤ 256 },
}
