//! The bound by a signature, its cells and the values so far.

ghost use Rattle.std.specs.Prelude.{◌≡◌, ◌<◌, ◌≤◌, List as AList, length, map};
ghost use Rattle.sc_cells.specs.Cells.{Entry, AreCells, cell_at};
ghost use Rattle.sc_least.specs.Bound.{least_number};

use crate::used::above_used;
use sc_cells::Cell;
use sc_term::{List, Role, Signature};

/// The bound of the value of the cell that comes next after those that `prefix` gives values, one each (`least_number`):
/// for a cell of a function 1 more than the greatest element that is used, 0 where none is, and at most `size - 1`; 1 for
/// a cell of a predicate. `cells` are all cells of the signature at the size, in order, as `cells_of` gives them. Takes
/// time in proportion to the values, and no memory.
pub fn least_bound(sig: &Signature, prefix: &[u8], cells: &List<Cell>, size: u8) -> u8
    requires not_empty { 1 ≤ size }
    requires cells { (entries : AList Entry) × AreCells sig.now size entries × (cells.now ≡ map (cell_at size) entries) }
    requires shorter { length prefix.now < length cells.now }
    ensures { (entries : AList Entry) → AreCells sig.now size entries → cells.now ≡ map (cell_at size) entries
        → result ≡ least_number sig.now size entries prefix.now }
{
    let cells = cells.as_slice();
    let next = cells[prefix.len()];
    match sig.symbol(next.sym).role {
        Role::Predicate => 1,
        Role::Function => above_used(sig, size, prefix, cells).min(u16::from(size - 1)) as u8,
    }
}
