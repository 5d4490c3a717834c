//! Values for the first cells.

ghost use Rattle.std.specs.Prelude.{◌≡◌, ℕ, ◌+◌, ◌<◌, ◌≤◌, ◌^◌, List as AList, [], ◌∷◌, ◌++◌, IfOk, map, length, slice_index};
ghost use Rattle.sc_cells.specs.Cells.{Entry, Prefix, AreCells, cell_at};
ghost use Rattle.sc_find_given.specs.Waiting.{IsWaiting};

use crate::evaluate::clause_waits;
use crate::number::{blank_rows, number_cells, slots_of};
use crate::row::Row;
use crate::slot::Slot;
use sc_cells::Cell;
use sc_term::{Clause, List, Mem, Signature};
use std::alloc::Global;
use std::marker::Model;

/// Values for the first cells of a size. Contracts see the cells in order and the values.
#[derive(Debug, Drop)]
pub struct Given {
    size: u8,
    rows: Vec<Row>,
    slots: Vec<Slot>,
    values: Vec<u8>,
    len: usize,
}

impl Model for Given {
    ghost use Rattle.std.specs.Prelude.{take};
    ghost use Rattle.sc_cells.specs.Cells.{Prefix};
    ghost use Rattle.sc_find_given.specs.Keeping.{slot_entries, IsKept};

    ghost Value = { Prefix };

    ghost view = { λ g. record { cells = slot_entries g.slots.items; values = take g.len g.values.items } };

    ghost invariant = { λ g. IsKept g.size g.rows.items g.slots.items g.values.items g.len };
}

impl Given {
    /// No values yet for these cells, which are those of the size in order.
    pub fn new(alloc: Global, sig: &Signature, size: u8, cells: &List<Cell>) -> Mem<Given>
        requires not_empty { 1 ≤ size }
        requires small { size ≤ 8 }
        requires cells { (entries : AList Entry) × AreCells sig.now size entries × (cells.now ≡ map (cell_at size) entries) }
        ensures { IfOk result (λ g. (entries : AList Entry) → AreCells sig.now size entries → cells.now ≡ map (cell_at size) entries
            → g ≡ record { cells = entries; values = [] }) }
    {
        let mut rows = blank_rows(alloc, sig, size, cells.len())?;
        let slots = slots_of(alloc, sig, size, cells.as_slice())?;
        number_cells(rows.as_mut_slice(), cells.as_slice());
        let values = vec![in alloc; 0u8; slots.len()]?;
        Ok(Given {
            size,
            rows,
            slots,
            values,
            len: 0,
        })
    }

    /// How many cells have values.
    pub fn len(&self) -> usize
        ensures value { result ≡ length self.now.values }
        ensures kept { length self.now.values ≤ length self.now.cells }
    {
        self.len
    }

    /// How many cells there are.
    pub fn cell_len(&self) -> usize
        ensures value { result ≡ length self.now.cells }
        ensures kept { length self.now.values ≤ length self.now.cells }
    {
        self.slots.len()
    }

    /// The values, of cell 0 first.
    pub fn values(&self) -> &[u8]
        ensures { result.now ≡ self.now.values }
    {
        let (values, _) = self.values.as_slice().split_at(self.len);
        values
    }

    /// Gives the next cell a value.
    pub fn push(&mut self, value: u8)
        requires { length self.old.values < length self.old.cells }
        ensures { self.new ≡ record self.old { values = self.old.values ++ value ∷ [] } }
    {
        self.values[self.len] = value;
        self.len += 1;
    }

    /// Takes the last value back.
    pub fn pop(&mut self) -> u8
        requires { 0 < length self.old.values }
        ensures { self.old ≡ record self.new { values = self.new.values ++ result ∷ [] } }
    {
        self.len -= 1;
        self.values[self.len]
    }

    /// The cell without a value that the clause waits for, where variable n has element n of `values` (0 past the end):
    /// up to it no more values make all literals false. It is past the last one where none does. None, where each literal
    /// is false and all entries that it reads are given.
    pub fn waits(&self, clause: &Clause, values: &[u8]) -> Option<usize>
        ensures { IsWaiting clause.now.literals (slice_index values.now) self.now result }
    {
        clause_waits(
            self.size,
            self.rows.as_slice(),
            self.values(),
            values,
            clause,
        )
    }
}
