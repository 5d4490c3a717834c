//! 1 more than the greatest element of some elements, 0 where there are none: of digits, indices, values, and of all that
//! the values so far and the next cell use.

ghost use Rattle.std.specs.Prelude.{◌≡◌, ◌<◌, ◌≤◌, List as AList, All, length, map, max, slice_get};
ghost use Rattle.sc_cells.specs.Cells.{Entry, IsCell, AreCells, cell_at};
ghost use Rattle.sc_cells.specs.Listing.{digits};
ghost use Rattle.sc_least.specs.Bound.{above, used, used_by, used_by_value};

use sc_cells::Cell;
use sc_term::{Role, Signature};

/// Of so many digits of a number.
fn above_digits(base: u8, len: u8, number: u32) -> u16
    requires { 1 ≤ base }
    ensures { result ≡ above (digits base len number) }
{
    let mut most: u16 = 0;
    let mut rest = number;
    for _digit in 0..len {
        let digit = (rest % u32::from(base)) as u8;
        most = most.max(u16::from(digit) + 1);
        rest /= u32::from(base);
    }
    most
}

/// Of the indices of a cell.
fn above_indices(sig: &Signature, size: u8, cell: Cell) -> u16
    requires not_empty { 1 ≤ size }
    requires there { cell.sym.0 < length sig.now }
    ensures { (entry : Entry) → IsCell sig.now size entry → cell ≡ cell_at size entry → result ≡ above entry.indices }
{
    above_digits(size, sig.symbol(cell.sym).arity, cell.place)
}

/// Of the value of a cell.
fn above_value(sig: &Signature, cell: Cell, value: u8) -> u16
    requires { cell.sym.0 < length sig.now }
    ensures { result ≡ above (used_by (slice_get sig.now cell.sym.0) value) }
{
    match sig.symbol(cell.sym).role {
        Role::Function => u16::from(value) + 1,
        Role::Predicate => 0,
    }
}

/// Of a cell and its value.
fn above_cell(sig: &Signature, size: u8, cell: Cell, value: u8) -> u16
    requires not_empty { 1 ≤ size }
    requires there { cell.sym.0 < length sig.now }
    ensures { (entry : Entry) → IsCell sig.now size entry → cell ≡ cell_at size entry
        → result ≡ max (above entry.indices) (above (used_by_value sig.now entry value)) }
{
    above_indices(sig, size, cell).max(above_value(sig, cell, value))
}

/// Of the cells that have values, of these values and of the next cell.
pub fn above_used(sig: &Signature, size: u8, prefix: &[u8], cells: &[Cell]) -> u16
    requires not_empty { 1 ≤ size }
    requires there { All (λ cell. cell.sym.0 < length sig.now) cells.now }
    requires shorter { length prefix.now < length cells.now }
    ensures { (entries : AList Entry) → AreCells sig.now size entries → cells.now ≡ map (cell_at size) entries
        → result ≡ above (used sig.now entries prefix.now) }
{
    let mut most: u16 = 0;
    for number in 0..prefix.len() {
        most = most.max(above_cell(sig, size, cells[number], prefix[number]));
    }
    most.max(above_indices(sig, size, cells[prefix.len()]))
}
