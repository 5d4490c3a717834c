//! Truth of a clause in tables, by all assignments.

ghost use Rattle.std.specs.Prelude.{◌≤◌, ◌↔◌, IsTrue, length};
ghost use Rattle.sc_term.specs.Clause.{width};
ghost use Rattle.sc_interp.specs.Structure.{Satisfies};

use crate::assign::{advance, start};
use crate::evaluate::some_literal_holds;
use crate::table::Table;
use sc_term::{Clause, full_width};

/// Whether every assignment to so many variables as there are places makes some literal true. The first that doesn't
/// ends the search.
fn holds_throughout(size: u8, tables: &[Table], c: &Clause, values: &mut [u8]) -> bool
    requires size { 1 ≤ size }
    requires wide { width c.now ≤ length values.old }
    ensures { IsTrue result ↔ Satisfies (record { size = size; tables = tables.now }) c.now }
{
    start(values);
    'assignments: loop {
        if !some_literal_holds(size, tables, values, c) {
            return false;
        }
        if !advance(size, values) {
            return true;
        }
    }
}

/// Whether every assignment to the clause's variables makes some literal true. There may be more places.
pub fn is_satisfied(size: u8, tables: &[Table], c: &Clause, values: &mut [u8]) -> bool
    requires size { 1 ≤ size }
    requires wide { width c.now ≤ length values.old }
    ensures { IsTrue result ↔ Satisfies (record { size = size; tables = tables.now }) c.now }
{
    let width = full_width(c) as usize;
    let (front, _) = values.split_at_mut(width);
    holds_throughout(size, tables, c, front)
}
