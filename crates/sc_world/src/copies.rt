//! Copies of the rows of a run.

ghost use Rattle.std.specs.Prelude.{◌≡◌, IfOk};

use sc_core_rules::{GivenRow, KeptRow};
use sc_term::{List, Mem, copy};
use std::alloc::Global;

fn copy_given(alloc: Global, row: &GivenRow) -> Mem<GivenRow>
    ensures { IfOk result (λ r. r ≡ row.now) }
{
    Ok(GivenRow {
        turn: row.turn,
        number: row.number,
        cause: row.cause,
        name: row.name,
        truth: row.truth,
        lengths: List::from_slice(alloc, row.lengths.as_slice())?,
    })
}

fn copy_kept(alloc: Global, row: &KeptRow) -> Mem<KeptRow>
    ensures { IfOk result (λ r. r ≡ row.now) }
{
    Ok(KeptRow {
        number: row.number,
        turn: row.turn,
        weight: row.weight,
        clause: copy(alloc, &row.clause)?,
    })
}

/// Rows equal to these, in order.
pub fn copy_given_rows(alloc: Global, rows: &[GivenRow]) -> Mem<List<GivenRow>>
    ensures { IfOk result (λ r. r ≡ rows.now) }
{
    let mut copies = List::new(alloc);
    for row in rows {
        copies.push(copy_given(alloc, row)?)?;
    }
    Ok(copies)
}

/// Rows equal to these, in order.
pub fn copy_kept_rows(alloc: Global, rows: &[KeptRow]) -> Mem<List<KeptRow>>
    ensures { IfOk result (λ r. r ≡ rows.now) }
{
    let mut copies = List::new(alloc);
    for row in rows {
        copies.push(copy_kept(alloc, row)?)?;
    }
    Ok(copies)
}
