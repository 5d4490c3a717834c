//! The mark of any clause, canonical or not. A clause and its canonical form have one mark: variables that are named anew
//! take the same elements, and are as many (`proofs/CanonicalMarks`).

ghost use Rattle.std.specs.Prelude.{IfOk};
ghost use Rattle.sc_term.specs.Clause.{IsCanonical};
ghost use Rattle.sc_interp.specs.Marks.{IsMark};

use crate::mark::{Assign, truth};
use crate::plain::Truth;
use crate::tables::Tables;
use sc_term::{Clause, Mem, OutOfMemory, canonical, full_width};
use std::alloc::Global;

/// With so many variables even two elements have more than 4,096 assignments.
const WIDE_WIDTH: u64 = 13;

/// The mark of a clause that is canonical.
#[tactic(auto, using(crate::proofs::WideMarks::wide))]
fn mark_of_canonical(alloc: Global, tables: &Tables, form: &Clause) -> Mem<Truth>
    requires { IsCanonical form.now }
    ensures { IfOk result (λ truth. IsMark tables.now form.now truth) }
{
    let width = full_width(form);
    if tables.size() >= 2 && width >= WIDE_WIDTH {
        return Ok(Truth::Wide);
    }
    // In one element every clause has one assignment. No register is as wide as 2^32 variables.
    let Ok(width) = u32::try_from(width) else {
        return Err(OutOfMemory);
    };
    let mut register = Assign::new(alloc, width)?;
    Ok(truth(tables, form, &mut register))
}

/// The mark of the clause in the tables (`IsMark`): `Wide` where its distinct variables have more than 4,096 assignments,
/// otherwise whether each of these makes some literal true. The clause needn't be canonical.
pub fn mark_of(alloc: Global, tables: &Tables, c: &Clause) -> Mem<Truth>
    ensures { IfOk result (λ truth. IsMark tables.now c.now truth) }
{
    let form = canonical(alloc, c)?;
    mark_of_canonical(alloc, tables, &form)
}
