//! Rows and slots for the cells of a signature.

ghost use Rattle.std.specs.Prelude.{◌≡◌, ◌≤◌, ◌<◌, ◌^◌, ℕ, List as AList, All, IfOk, IsSomeAnd, map, drop, length, replicate, slice_get};
ghost use Rattle.sc_interp.specs.Structure.{place_of};
ghost use Rattle.sc_cells.specs.Cells.{Entry, IsCell, cell_at};
ghost use Rattle.sc_find_given.specs.Keeping.{slot_entries, AreIndexed};
ghost use Rattle.sc_find_given.specs.Numbering.{blank_row, HaveRows, AreBlank, AreApart, with_number_in};

use crate::row::Row;
use crate::slot::Slot;
use sc_cells::Cell;
use sc_term::{List, Mem, Signature, SymId};
use std::alloc::Global;

/// How many entries a symbol has.
fn row_len(size: u8, arity: u8) -> usize
    requires size { size ≤ 8 }
    requires arity { arity ≤ 8 }
    ensures { result ≡ size ^ arity }
{
    usize::from(size).pow(u32::from(arity))
}

fn blank_numbers(alloc: Global, len: usize, number: usize) -> Mem<List<usize>>
    ensures { IfOk result (λ numbers. numbers ≡ replicate len number) }
{
    let numbers = vec![in alloc; number; len]?;
    Ok(List::from_vec(numbers))
}

/// A row for each symbol but `=`, with that number at every place.
pub fn blank_rows(alloc: Global, sig: &Signature, size: u8, number: usize) -> Mem<Vec<Row>>
    requires { size ≤ 8 }
    ensures { IfOk result (λ rows. rows.items ≡ map (blank_row size number) (drop 1 sig.now)) }
{
    let len = sig.len();
    let mut rows = Vec::new(alloc);
    for id in 1..len {
        let symbol = sig.symbol(SymId(id));
        rows.push(Row {
            arity: symbol.arity,
            numbers: blank_numbers(alloc, row_len(size, symbol.arity), number)?,
        })?;
    }
    Ok(rows)
}

/// So many digits of a number in the base, the greatest first: the list of digits that stands at that place.
fn digits(alloc: Global, base: u8, count: u8, number: u32) -> Mem<List<u8>>
    requires { 1 ≤ base }
    ensures { IfOk result (λ digits. (ds : AList ℕ) → length ds ≡ count → All (λ d. d < base) ds → place_of base ds ≡ number → digits ≡ ds) }
{
    let base = u32::from(base);
    let mut rest = number;
    let mut digits = Vec::new(alloc);
    for _digit in 0..count {
        digits.push((rest % base) as u8)?;
        rest /= base;
    }
    digits.as_mut_slice().reverse();
    Ok(List::from_vec(digits))
}

/// The cells with their arguments.
pub fn slots_of(alloc: Global, sig: &Signature, size: u8, cells: &[Cell]) -> Mem<Vec<Slot>>
    requires not_empty { 1 ≤ size }
    requires cells { (entries : AList Entry) × All (IsCell sig.now size) entries × (cells.now ≡ map (cell_at size) entries) }
    ensures { IfOk result (λ slots. (entries : AList Entry) → All (IsCell sig.now size) entries → cells.now ≡ map (cell_at size) entries
        → slot_entries slots.items ≡ entries) }
{
    let mut slots = Vec::new(alloc);
    for cell in cells {
        let symbol = sig.symbol(cell.sym);
        let indices = digits(alloc, size, symbol.arity, cell.place)?;
        slots.push(Slot {
            sym: cell.sym,
            indices,
        })?;
    }
    Ok(slots)
}

/// Another number at a place of the row at a place in the list.
fn set_number(rows: &mut [Row], at: usize, place: usize, number: usize)
    requires { IsSomeAnd (slice_get rows.old at) (λ row. place < length row.numbers) }
    ensures { rows.new ≡ with_number_in rows.old at (slice_get rows.old at) place number }
{
    let row = &mut rows[at];
    row.numbers.set(place, number);
}

/// Puts the number of each cell, from 0, at the place of its entry. The cells are told by their entries at a size, which
/// have rows.
pub fn number_cells(rows: &mut [Row], cells: &[Cell])
    requires { (size : ℕ) × (entries : AList Entry) × HaveRows size rows.old entries cells.now }
    ensures { (size : ℕ) (entries : AList Entry) → HaveRows size rows.old entries cells.now → AreApart entries → AreBlank size rows.old (length entries)
        → AreIndexed size rows.new entries }
{
    for number in 0..cells.len() {
        let cell = cells[number];
        set_number(rows, cell.sym.0 as usize - 1, cell.place as usize, number);
    }
}
