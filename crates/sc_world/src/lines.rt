//! The lines of a proof and their marks.

ghost use Rattle.std.specs.Prelude.{◌≡◌, ◌≤◌, ◌+◌, IfOk, OnErr};
ghost use Rattle.sc_world.specs.Recorded.{IsMarkOf, AreMarks};

use sc_interp::{Version, VersionName, mark_of};
use sc_term::{Line, List, Mem, OutOfMemory};
use sc_text_run_rules::MarkRow;
use std::alloc::Global;

/// The number, from 1, of the line at this index, from 0. No list of 2^32 lines fits into memory.
fn line_number(index: usize) -> Mem<u32>
    ensures value { IfOk result (λ n. n ≡ index + 1) }
    ensures refused { OnErr result (4294967295 ≤ index) }
{
    if index >= u32::MAX as usize {
        return Err(OutOfMemory);
    }
    Ok(index as u32 + 1)
}

/// The row of the line of that number, with its mark in the version of that name.
fn mark_row(
    alloc: Global,
    name: VersionName,
    version: &Version,
    number: u32,
    line: &Line,
) -> Mem<MarkRow>
    ensures { IfOk result (λ row. IsMarkOf name version.now number line.now row) }
{
    let truth = mark_of(alloc, version.tables(), &line.clause)?;
    Ok(MarkRow {
        line: number,
        name,
        truth,
    })
}

/// The marks of the lines in the version of that name.
pub fn mark_rows(
    alloc: Global,
    name: VersionName,
    version: &Version,
    lines: &[Line],
) -> Mem<List<MarkRow>>
    ensures { IfOk result (AreMarks name version.now lines.now) }
{
    let mut rows = List::new(alloc);
    for (i, line) in lines.iter().enumerate() {
        let number = line_number(i)?;
        rows.push(mark_row(alloc, name, version, number, line)?)?;
    }
    Ok(rows)
}
