//! Entries in slots, and the numbers of those that are asked for.

ghost use Rattle.std.specs.Prelude.{◌≡◌, ◌++◌, ◌∷◌, [], ◌↔◌, List as AList, ℕ, Some, IfOk, OnOk, OnErr, IsTrue, MatchOption};
ghost use Rattle.sc_index.specs.Entries.{HasInstance, IsWanted, HasEntry, AreNumbersAt};
ghost use Rattle.sc_index.specs.declared.entries.Entry.{Entry as AnEntry};

use sc_term::{List, Literal, Mem};
use sc_unify::match_onto;
use std::alloc::Global;

/// Which literals are asked for.
#[derive(Clone, Copy, Debug)]
pub enum Wanted {
    /// Those that have the given one as an instance.
    General,
    /// Those that are instances of it.
    Instances,
}

/// A literal with the number of its clause.
#[derive(Drop)]
pub struct Entry {
    pub literal: Literal,
    pub number: u32,
}

/// The entry in the slot.
fn entry_at(slots: &[Option<Entry>], slot: usize) -> Option<&Entry>
    ensures { MatchOption result ((e : AnEntry) → ¬ HasEntry slots.now slot e) (λ e. HasEntry slots.now slot e.now) }
{
    match slots.get(slot) {
        Some(Some(e)) => Some(e),
        Some(None) => None,
        None => None,
    }
}

/// One more slot, with the entry.
pub fn add_slot(slots: &mut List<Option<Entry>>, literal: Literal, number: u32) -> Mem<()>
    ensures ok { OnOk result (slots.new ≡ slots.old ++ Some (record { literal = literal; number = number }) ∷ []) }
    ensures err { OnErr result (slots.new ≡ slots.old) }
{
    slots.push(Some(Entry { literal, number }))?;
    Ok(())
}

fn have_one_sign(l: &Literal, m: &Literal) -> bool
    ensures { IsTrue result ↔ (l.now.positive ≡ m.now.positive) }
{
    l.positive == m.positive
}

/// Whether some terms for the pattern's variables make its atom the target's. Signs don't count.
fn has_instance(alloc: Global, pattern: &Literal, target: &Literal) -> Mem<bool>
    ensures { IfOk result (λ has. IsTrue has ↔ HasInstance pattern.now target.now) }
{
    match match_onto(alloc, pattern, target)? {
        Some(_) => Ok(true),
        None => Ok(false),
    }
}

/// Whether the entry's literal has the sign of this one, and is what is asked for.
fn is_wanted(alloc: Global, wanted: Wanted, e: &Entry, lit: &Literal) -> Mem<bool>
    ensures { IfOk result (λ is. IsTrue is ↔ IsWanted wanted lit.now e.now) }
{
    if have_one_sign(&e.literal, lit) {
        return match wanted {
            Wanted::General => Ok(has_instance(alloc, &e.literal, lit)?),
            Wanted::Instances => Ok(has_instance(alloc, lit, &e.literal)?),
        };
    }
    Ok(false)
}

/// Adds the number of the entry in the slot, where it is asked for.
fn add_wanted(
    alloc: Global,
    wanted: Wanted,
    slots: &[Option<Entry>],
    slot: usize,
    lit: &Literal,
    numbers: &mut Vec<u32>,
) -> Mem<()>
    ensures { OnOk result ((front : AList ℕ) → AreNumbersAt (IsWanted wanted lit.now) slots.now front numbers.old.items → AreNumbersAt (IsWanted wanted lit.now) slots.now (front ++ slot ∷ []) numbers.new.items) }
{
    match entry_at(slots, slot) {
        Some(e) => {
            if is_wanted(alloc, wanted, e, lit)? {
                numbers.push(e.number)?;
                return Ok(());
            }
            Ok(())
        }
        None => Ok(()),
    }
}

/// The numbers of the entries in these slots that are asked for.
pub fn numbers_of(
    alloc: Global,
    wanted: Wanted,
    slots: &[Option<Entry>],
    found: &[usize],
    lit: &Literal,
) -> Mem<Vec<u32>>
    ensures { IfOk result (λ numbers. AreNumbersAt (IsWanted wanted lit.now) slots.now found.now numbers.items) }
{
    let mut numbers = Vec::new(alloc);
    for slot in found {
        add_wanted(alloc, wanted, slots, *slot, lit, &mut numbers)?;
    }
    Ok(numbers)
}
