//! Slots emptied.

ghost use Rattle.std.specs.Prelude.{◌≡◌, ◌<◌, ◌↔◌, length, Some, IsTrue};
ghost use Rattle.sc_index.specs.Entries.{IsEmptiedAt, AreEmptied};

use crate::entries::Entry;
use sc_term::{List, Literal, same_literal};

/// Whether the slot has the literal with the number.
fn is_this(slot: &Option<Entry>, lit: &Literal, number: u32) -> bool
    ensures { IsTrue result ↔ (slot.now ≡ Some (record { literal = lit.now; number = number })) }
{
    match slot {
        Some(e) => e.number == number && same_literal(&e.literal, lit),
        None => false,
    }
}

/// Empties the slot, where it has the literal with the number.
fn empty_at(slots: &mut List<Option<Entry>>, at: usize, lit: &Literal, number: u32)
    requires { at < length slots.old }
    ensures emptied { IsEmptiedAt (record { literal = lit.now; number = number }) at slots.old slots.new }
    ensures long { length slots.new ≡ length slots.old }
{
    if is_this(&slots.as_slice()[at], lit, number) {
        slots.set(at, None);
    }
}

/// Empties each slot that has the literal with the number.
pub fn empty_each(slots: &mut List<Option<Entry>>, lit: &Literal, number: u32)
    ensures { AreEmptied (record { literal = lit.now; number = number }) (length slots.old) slots.old slots.new }
{
    for at in 0..slots.len() {
        empty_at(slots, at, lit, number);
    }
}
