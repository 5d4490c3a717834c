//! The live unit of least number that conflicts with a new one.

ghost use Rattle.std.specs.Prelude.{◌≡◌, ◌≢◌, ◌↔◌, ◌++◌, ◌∷◌, [], List, All, IsTrue, IfOk};
ghost use Rattle.sc_term.specs.declared.Numbered.{Numbered as ANumbered};
ghost use Rattle.sc_keep.specs.Rivals.{IsBelowRival, IsFit, IsLeastRival};

use crate::units::conflict;
use sc_steps::Derived;
use sc_term::{Mem, Numbered};
use std::alloc::Global;

/// The number of a unit that conflicts, and the empty clause of the two with its derivation.
#[derive(Drop)]
pub struct Rival {
    pub number: u32,
    pub made: Derived,
}

/// Whether the number is less than that of the best so far.
pub fn is_below(m: u32, best: &Option<Rival>) -> bool
    ensures { IsTrue result ↔ IsBelowRival m best.now }
{
    match best {
        Some(rival) => m < rival.number,
        None => true,
    }
}

/// The rival of least number: the best so far, or `m`.
fn better_rival(
    alloc: Global,
    n: &Numbered,
    m: &Numbered,
    best: Option<Rival>,
) -> Mem<Option<Rival>>
    requires fit_n { IsFit n.now }
    requires fit_m { IsFit m.now }
    ensures { IfOk result (λ now. (front : List ANumbered) → IsLeastRival n.now front best → IsLeastRival n.now (front ++ m.now ∷ []) now) }
{
    if m.number == n.number {
        return Ok(best);
    }
    if !is_below(m.number, &best) {
        return Ok(best);
    }
    match conflict(alloc, n, m)? {
        Some(made) => Ok(Some(Rival {
            number: m.number,
            made,
        })),
        None => Ok(best),
    }
}

/// The rival of least number, where `best` is that among clauses before. Each clause is looked at once.
pub fn least_rival(
    alloc: Global,
    n: &Numbered,
    ps: &[Numbered],
    best: Option<Rival>,
) -> Mem<Option<Rival>>
    requires fit { IsFit n.now }
    requires all_fit { All IsFit ps.now }
    ensures { IfOk result (λ now. (front : List ANumbered) → IsLeastRival n.now front best → IsLeastRival n.now (front ++ ps.now) now) }
{
    let mut best = best;
    for m in ps {
        best = better_rival(alloc, n, m, best)?;
    }
    Ok(best)
}
