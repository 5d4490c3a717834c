//! The cells of a size, in order.

ghost use Rattle.std.specs.Prelude.{◌≡◌, ◌≤◌, ◌^◌, List as AList, [], ◌∷◌, ◌++◌, length, map, IfOk, IfErr, OnOk, if◌then◌else◌};
ghost use Rattle.sc_cells.specs.Cells.{Entry, AreCells, cell_at, cell_count, IsCauseOfCells};
ghost use Rattle.sc_cells.specs.Listing.{in_turn, symbol_entries, entries_with, all_entries};

use crate::digits::has_greatest;
use sc_term::{List, MAX_CELLS, Mem, Signature, SymId};
use std::alloc::Global;
use thiserror::Error;

/// An entry of a symbol other than `=`. The place is the one in the symbol's table: it starts at 0 and, for each
/// argument in order, becomes the size times itself plus that argument.
#[derive(Clone, Copy, Debug, PartialEq, Eq)]
pub struct Cell {
    pub sym: SymId,
    pub place: u32,
}

/// Why cells weren't listed.
#[derive(Clone, Copy, Debug, PartialEq, Eq, Error)]
pub enum CellsError {
    /// There are so many.
    #[error("{count} cells are more than 4096")]
    TooWide { count: u64 },
    #[error("out of memory")]
    OutOfMemory,
}

/// How many entries a symbol has.
fn table_len(size: u8, arity: u8) -> u32
    requires size { size ≤ 8 }
    requires arity { arity ≤ 8 }
    ensures value { result ≡ size ^ arity }
    ensures bound { result ≤ 16777216 }
{
    u32::from(size).pow(u32::from(arity))
}

fn count_cells(sig: &Signature, size: u8) -> u64
    requires { size ≤ 8 }
    ensures { result ≡ cell_count sig.now size }
{
    let len = sig.len();
    let mut count: u64 = 0;
    for number in 1..len {
        let symbol = sig.symbol(SymId(number));
        count += u64::from(table_len(size, symbol.arity));
    }
    count
}

fn push_if(cells: &mut List<Cell>, wanted: bool, cell: Cell) -> Mem<()>
    ensures { OnOk result (cells.new ≡ cells.old ++ (if wanted then cell ∷ [] else [])) }
{
    if wanted {
        cells.push(cell)?;
    }
    Ok(())
}

/// Adds the cells of a symbol whose greatest argument is that.
fn push_symbol(cells: &mut List<Cell>, size: u8, greatest: u8, sym: SymId, arity: u8) -> Mem<()>
    requires not_empty { 1 ≤ size }
    requires small { size ≤ 8 }
    requires arity { arity ≤ 8 }
    ensures { OnOk result (cells.new ≡ cells.old ++ map (cell_at size) (symbol_entries size greatest sym.0 arity)) }
{
    let count = table_len(size, arity);
    for place in 0..count {
        let wanted = has_greatest(size, arity, place, greatest);
        push_if(cells, wanted, Cell { sym, place })?;
    }
    Ok(())
}

/// Adds the cells whose greatest argument is that.
fn push_level(cells: &mut List<Cell>, sig: &Signature, size: u8, greatest: u8) -> Mem<()>
    requires not_empty { 1 ≤ size }
    requires small { size ≤ 8 }
    ensures { OnOk result (cells.new ≡ cells.old ++ map (cell_at size) (entries_with sig.now size greatest)) }
{
    let len = sig.len();
    for number in 1..len {
        let arity = sig.symbol(SymId(number)).arity;
        push_symbol(cells, size, greatest, SymId(number), arity)?;
    }
    Ok(())
}

fn list_cells(alloc: Global, sig: &Signature, size: u8) -> Mem<List<Cell>>
    requires not_empty { 1 ≤ size }
    requires small { size ≤ 8 }
    ensures { IfOk result (λ cells. cells ≡ map (cell_at size) (all_entries sig.now size)) }
{
    let mut cells = List::new(alloc);
    for greatest in 0..size {
        push_level(&mut cells, sig, size, greatest)?;
    }
    Ok(cells)
}

/// The cells of a size of 1 to 8, in order of the greatest argument (0 without one), then of the symbol's number, then
/// of the arguments (`AreCells`). `TooWide` comes exactly where there are more than 4,096, and tells how many.
pub fn cells_of(alloc: Global, sig: &Signature, size: u8) -> Result<List<Cell>, CellsError>
    requires not_empty { 1 ≤ size }
    requires small { size ≤ 8 }
    ensures value { IfOk result (λ cells. (entries : AList Entry) × AreCells sig.now size entries × (cells ≡ map (cell_at size) entries)) }
    ensures within { OnOk result (cell_count sig.now size ≤ 4096) }
    ensures refused { IfErr result (IsCauseOfCells (cell_count sig.now size)) }
{
    let count = count_cells(sig, size);
    if count > MAX_CELLS {
        return Err(CellsError::TooWide { count });
    }
    match list_cells(alloc, sig, size) {
        Ok(cells) => Ok(cells),
        Err(_) => Err(CellsError::OutOfMemory),
    }
}
