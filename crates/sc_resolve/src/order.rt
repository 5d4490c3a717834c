//! Clauses in the order of their numbers, in which the listers of sites take them.

ghost use Rattle.std.specs.Prelude.{◌≢◌, AllPairs, IfOk};
ghost use Rattle.sc_resolve.specs.ByNumber.{AreByNumber, seen};

use sc_term::{Mem, Numbered};
use std::alloc::Global;

/// The clauses in rising order of their numbers (`AreByNumber`). The numbers have to differ.
pub fn by_number<'a>(alloc: Global, clauses: &'a [Numbered]) -> Mem<Vec<&'a Numbered>>
    requires differ { AllPairs (λ p q. p.number ≢ q.number) clauses.now }
    ensures { IfOk result (λ ordered. AreByNumber clauses.now (seen ordered.items)) }
{
    let mut ordered = Vec::new(alloc);
    for clause in clauses {
        ordered.push(clause)?;
    }
    ordered.sort_by_key(|clause| clause.number)?;
    Ok(ordered)
}
