//! The truth of a clause in tables, by trying assignments in the order of their numbers.

ghost use Rattle.std.specs.Prelude.{◌≡◌, ◌≤◌, ◌<◌, ◌^◌, ◌↔◌, min, length, IsTrue, IfSome, IfNone};
ghost use Rattle.sc_term.specs.Clause.{IsCanonical, width};
ghost use Rattle.sc_interp.specs.Structure.{Satisfies};
ghost use Rattle.sc_interp.specs.Assignments.{AreElements, assignment_number};
ghost use Rattle.sc_mark.specs.Known.{IsFalsifiedBy, IsKnown};

use crate::evaluate::some_literal_holds;
use crate::known::Known;
use sc_interp::{Table, Tables};
use sc_term::{Clause, MAX_ASSIGNMENTS, full_width};

/// The number of assignments to so many variables, or one above the most that are tried where it is greater.
fn count_assignments(size: u8, width: u64) -> u32
    requires { 1 ≤ size }
    ensures { result ≡ min (size ^ width) 4097 }
{
    let mut count: u32 = 1;
    for _variable in 0..width {
        count = (count * u32::from(size)).min(MAX_ASSIGNMENTS + 1);
    }
    count
}

/// Makes it the assignment of this number.
fn assign(size: u8, number: u32, values: &mut [u8])
    requires { 1 ≤ size }
    ensures length { length values.new ≡ length values.old }
    ensures elements { AreElements size values.new }
    ensures numbered { number < size ^ length values.old → assignment_number size values.new ≡ number }
{
    let base = u32::from(size);
    let mut rest = number;
    for value in values.iter_mut() {
        *value = (rest % base) as u8;
        rest /= base;
    }
}

/// Whether the assignment of this number makes no literal true.
fn is_false_under(size: u8, tables: &[Table], c: &Clause, number: u32, values: &mut [u8]) -> bool
    requires size { 1 ≤ size }
    requires long { width c.now ≡ length values.old }
    requires there { number < size ^ length values.old }
    ensures length { length values.new ≡ length values.old }
    ensures falsified { IsTrue result ↔ IsFalsifiedBy (record { size = size; tables = tables.now }) c.now number }
{
    assign(size, number, values);
    !some_literal_holds(size, tables, values, c)
}

/// The number of the first assignment that makes no literal true.
fn first_false(size: u8, tables: &[Table], c: &Clause, count: u32, values: &mut [u8]) -> Option<u32>
    requires size { 1 ≤ size }
    requires long { width c.now ≡ length values.old }
    requires all { count ≡ size ^ length values.old }
    ensures length { length values.new ≡ length values.old }
    ensures some { IfSome result (IsFalsifiedBy (record { size = size; tables = tables.now }) c.now) }
    ensures none { IfNone result (Satisfies (record { size = size; tables = tables.now }) c.now) }
{
    for number in 0..count {
        if is_false_under(size, tables, c, number, values) {
            return Some(number);
        }
    }
    None
}

/// What is known of the clause when its assignments were tried.
pub fn tried(tables: &Tables, c: &Clause, values: &mut [u8]) -> Known
    requires canonical { IsCanonical c.now }
    requires wide { width c.now ≤ length values.old }
    ensures known { IsKnown tables.now c.now result }
    ensures values { length values.new ≡ length values.old }
{
    let size = tables.size();
    let width = full_width(c);
    let count = count_assignments(size, width);
    if count > MAX_ASSIGNMENTS {
        return Known::Wide;
    }
    let (front, _) = values.split_at_mut(width as usize);
    match first_false(size, tables.tables(), c, count, front) {
        Some(number) => Known::False(number),
        None => Known::True,
    }
}

/// Whether the assignment of this number still makes no literal true.
pub fn is_false_still(tables: &Tables, c: &Clause, number: u32, values: &mut [u8]) -> bool
    requires wide { width c.now ≤ length values.old }
    requires there { number < tables.now.size ^ width c.now }
    ensures falsified { IsTrue result ↔ IsFalsifiedBy tables.now c.now number }
    ensures values { length values.new ≡ length values.old }
{
    let width = full_width(c) as usize;
    let (front, _) = values.split_at_mut(width);
    is_false_under(tables.size(), tables.tables(), c, number, front)
}
