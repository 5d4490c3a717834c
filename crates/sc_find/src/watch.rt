//! An instance that waits for a cell.

/// The instance of that number isn't false before the cell of that number has a value. This was found when so many cells
/// had values as `depth` says. `next` is the number, from 1, of the watch before it at the same cell, or 0.
#[derive(Clone, Copy, Debug, PartialEq, Eq)]
pub struct Watch {
    pub instance: usize,
    pub cell: usize,
    pub depth: usize,
    pub next: usize,
}
