//! What is known of a clause in other tables, by what was known of it before.

ghost use Rattle.std.specs.Prelude.{◌≡◌, ◌≤◌, ◌<◌, ◌^◌, length};
ghost use Rattle.sc_term.specs.Clause.{IsCanonical, width};
ghost use Rattle.sc_interp.specs.Marks.{assignments};
ghost use Rattle.sc_mark.specs.Known.{IsKnown};
ghost use Rattle.sc_mark.specs.Changes.{AreChanges};

use crate::changes::clause_changed;
use crate::known::Known;
use crate::trying::{is_false_still, tried};
use sc_interp::Tables;
use sc_term::Clause;

/// What is known of a clause that an assignment made false in tables of this size: false still, where the same does,
/// otherwise it is tried anew.
fn false_after(tables: &Tables, c: &Clause, number: u32, values: &mut [u8]) -> Known
    requires some { 1 ≤ tables.now.size }
    requires there { number < tables.now.size ^ width c.now }
    requires few { assignments tables.now.size c.now ≤ 4096 }
    requires canonical { IsCanonical c.now }
    requires wide { width c.now ≤ length values.old }
    ensures known { IsKnown tables.now c.now result }
    ensures values { length values.new ≡ length values.old }
{
    if is_false_still(tables, c, number, values) {
        return Known::False(number);
    }
    tried(tables, c, values)
}

/// What is known of the clause in the new tables. Only where a symbol of it has another entry, and the assignment that
/// made it false makes it true, or it was true, is it tried anew; in tables of another size always.
pub fn known_after(
    old: &Tables,
    new: &Tables,
    changes: &[bool],
    c: &Clause,
    before: Known,
    values: &mut [u8],
) -> Known
    requires changes { AreChanges old.now.tables new.now.tables changes.now }
    requires before { IsKnown old.now c.now before }
    requires canonical { IsCanonical c.now }
    requires wide { width c.now ≤ length values.old }
    ensures known { IsKnown new.now c.now result }
    ensures values { length values.new ≡ length values.old }
{
    if old.size() != new.size() {
        return tried(new, c, values);
    }
    if !clause_changed(changes, c) {
        return before;
    }
    match before {
        Known::True => tried(new, c, values),
        Known::False(number) => false_after(new, c, number, values),
        Known::Wide => Known::Wide,
    }
}
