//! Subsumption.

ghost use Rattle.std.specs.Prelude.{◌↔◌, IfOk, IsTrue};
ghost use Rattle.sc_term.specs.Subsumption.{Subsumes};

use crate::like::each_has_like;
use crate::order::by_candidates;
use crate::search::{goes_into, one_goes_into};
use sc_term::{Clause, Mem};
use std::alloc::Global;

/// Whether `c` has no more literals than `d`, and some terms in place of its variables take each of its literals to one
/// of `d`. Two literals may go to one. The variables of `d` stay as they are, and may have the numbers of those of `c`.
/// The time is exponential in the number of variables of `c` at worst.
pub fn subsumes(alloc: Global, c: &Clause, d: &Clause) -> Mem<bool>
    ensures { IfOk result (λ can. IsTrue can ↔ Subsumes c.now d.now) }
{
    let (few, many) = (c.literals.as_slice(), d.literals.as_slice());
    if few.len() > many.len() || !each_has_like(few, many) {
        return Ok(false);
    }
    if let [only] = few {
        return one_goes_into(alloc, only, many);
    }
    let asked = by_candidates(alloc, few, many)?;
    goes_into(alloc, asked.as_slice(), many)
}
