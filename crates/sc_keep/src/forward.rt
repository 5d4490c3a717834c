//! Forward subsumption: the clause of least number that subsumes a conclusion.

ghost use Rattle.std.specs.Prelude.{◌↔◌, ◌++◌, ◌∷◌, [], List, IfOk, IsTrue};
ghost use Rattle.sc_term.specs.declared.Numbered.{Numbered as ANumbered};
ghost use Rattle.sc_term.specs.Subsumption.{Subsumes};
ghost use Rattle.sc_keep.specs.Least.{IsBelow, IsLeastNumber};

use sc_subsume::subsumes;
use sc_term::{Clause, Mem, Numbered};
use std::alloc::Global;

/// Whether the number is less than the best so far.
fn is_better(n: u32, best: Option<u32>) -> bool
    ensures { IsTrue result ↔ IsBelow n best }
{
    match best {
        Some(m) => n < m,
        None => true,
    }
}

/// The least number of a clause that subsumes `c`: the best so far, or that of the clause.
fn better_subsumer(alloc: Global, p: &Numbered, c: &Clause, best: Option<u32>) -> Mem<Option<u32>>
    ensures { IfOk result (λ now. (front : List ANumbered) → IsLeastNumber (λ p. Subsumes p.clause c.now) front best
        → IsLeastNumber (λ p. Subsumes p.clause c.now) (front ++ p.now ∷ []) now) }
{
    if !is_better(p.number, best) {
        return Ok(best);
    }
    if subsumes(alloc, &p.clause, c)? {
        return Ok(Some(p.number));
    }
    Ok(best)
}

/// The least number of a clause that subsumes `c`, where `best` is that over clauses before.
pub fn least_subsumer(
    alloc: Global,
    ps: &[Numbered],
    c: &Clause,
    best: Option<u32>,
) -> Mem<Option<u32>>
    ensures { IfOk result (λ now. (front : List ANumbered) → IsLeastNumber (λ p. Subsumes p.clause c.now) front best
        → IsLeastNumber (λ p. Subsumes p.clause c.now) (front ++ ps.now) now) }
{
    let mut best = best;
    for p in ps {
        best = better_subsumer(alloc, p, c, best)?;
    }
    Ok(best)
}
