//! Tables that have given values in the cells.

ghost use Rattle.std.specs.Prelude.{◌≡◌, ◌≢◌, ◌≤◌, ℕ, List as AList, AllPairs, IfOk, Some, length, slice_get, slice_index};
ghost use Rattle.sc_term.specs.declared.symbol.Symbol.{Symbol as ASymbol};
ghost use Rattle.sc_interp.specs.Structure.{AreTablesOf, IsStructure, HasPlace, MayHold, entry_at, entry_count};
ghost use Rattle.sc_cells.specs.declared.cells.Cell.{Cell as ACell};

use sc_cells::Cell;
use sc_interp::{Tables, TablesError};
use sc_term::{Mem, OutOfMemory, Signature};
use std::alloc::Global;

/// Tables over the signature, of which there are not too many entries.
pub fn empty_tables(alloc: Global, sig: &Signature, size: u8) -> Mem<Tables>
    requires not_empty { 1 ≤ size }
    requires small { size ≤ 8 }
    requires few { entry_count sig.now size ≤ 4096 }
    ensures size { IfOk result (λ t. t.size ≡ size) }
    ensures over { IfOk result (AreTablesOf sig.now) }
    ensures kept { IfOk result IsStructure }
{
    match Tables::new(alloc, sig, size) {
        Ok(tables) => {
            let _size = tables.size();
            Ok(tables)
        }
        Err(TablesError::TooWide { .. }) => unreachable!(),
        Err(TablesError::OutOfMemory) => Err(OutOfMemory),
    }
}

/// Puts the values into the cells, one each.
pub fn fill(tables: &mut Tables, cells: &[Cell], values: &[u8])
    requires many { length values.now ≡ length cells.now }
    requires places { (k : ℕ) (cell : ACell) → slice_get cells.now k ≡ Some cell → HasPlace tables.old cell.sym cell.place }
    requires in_range { (k : ℕ) (cell : ACell) → slice_get cells.now k ≡ Some cell → MayHold tables.old cell.sym (slice_index values.now k) }
    requires distinct { AllPairs (λ (a b : ACell). a ≢ b) cells.now }
    ensures each { (k : ℕ) (cell : ACell) → slice_get cells.now k ≡ Some cell → entry_at tables.new cell.sym cell.place ≡ slice_index values.now k }
    ensures over { (symbols : AList ASymbol) → AreTablesOf symbols tables.old → AreTablesOf symbols tables.new }
    ensures size { tables.new.size ≡ tables.old.size }
{
    for k in 0..cells.len() {
        tables.set(cells[k].sym, cells[k].place, values[k]);
    }
}
