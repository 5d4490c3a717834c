//! What is looked for among all live clauses: those of usable, sos and passive.

ghost use Rattle.std.specs.Prelude.{◌++◌, All, IfOk};
ghost use Rattle.sc_term.specs.Subsumption.{Subsumes};
ghost use Rattle.sc_keep.specs.Least.{IsLeastNumber};
ghost use Rattle.sc_keep.specs.Rivals.{IsFit, IsLeastRival};

use crate::forward::least_subsumer;
use crate::rival::{Rival, least_rival};
use sc_term::{Clause, Mem, Numbered};
use std::alloc::Global;

/// The clauses that are live.
#[derive(Clone, Copy)]
pub struct Live<'a> {
    pub usable: &'a [Numbered],
    pub sos: &'a [Numbered],
    pub passive: &'a [Numbered],
}

/// The least number of a live clause that subsumes `c`.
pub fn live_subsumer(alloc: Global, live: Live, c: &Clause) -> Mem<Option<u32>>
    ensures { IfOk result (λ found. IsLeastNumber (λ p. Subsumes p.clause c.now) (live.entry.usable.now ++ live.entry.sos.now ++ live.entry.passive.now) found) }
{
    let best = least_subsumer(alloc, live.usable, c, None)?;
    let best = least_subsumer(alloc, live.sos, c, best)?;
    let best = least_subsumer(alloc, live.passive, c, best)?;
    Ok(best)
}

/// The live unit of least number, other than `n`, that conflicts with `n`, which may itself be live.
pub fn live_rival(alloc: Global, live: Live, n: &Numbered) -> Mem<Option<Rival>>
    requires fit { IsFit n.now }
    requires usable { All IsFit live.usable.now }
    requires sos { All IsFit live.sos.now }
    requires passive { All IsFit live.passive.now }
    ensures { IfOk result (λ found. IsLeastRival n.now (live.entry.usable.now ++ live.entry.sos.now ++ live.entry.passive.now) found) }
{
    let best = least_rival(alloc, n, live.usable, None)?;
    let best = least_rival(alloc, n, live.sos, best)?;
    let best = least_rival(alloc, n, live.passive, best)?;
    Ok(best)
}
