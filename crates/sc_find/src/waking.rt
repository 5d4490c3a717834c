//! Instances are looked at again when the cell that they wait for has a value.

ghost use Rattle.std.specs.Prelude.{◌≡◌, ◌∷◌, ◌++◌, [], ◌<◌, ◌≤◌, ℕ, List as AList, All, IfOk, OnOk, length};
ghost use Rattle.sc_cells.specs.Cells.{Prefix};
ghost use Rattle.sc_find.specs.Watching.{AreWatched, IsGrown, IsTakenBack, Goes, AllGo};

use crate::checking::waits;
use crate::watches::Watches;
use sc_cells::GroundInstance;
use sc_find_given::Given;
use sc_term::{Clause, Mem};

/// Lets the instance of that number wait for the cell that it waits for now, unless it is false. One that waits for no
/// cell needs no watch.
fn watch(
    given: &Given,
    watches: &mut Watches,
    clauses: &[Clause],
    instances: &[GroundInstance],
    number: usize,
) -> Mem<bool>
    requires places { All (λ i. i.place < length clauses.now) instances.now }
    requires number { number < length instances.now }
    requires cells { watches.old.cells ≡ length given.now.cells }
    ensures goes { IfOk result (Goes clauses.now instances.now given.now watches.new.watches number) }
    ensures grown { OnOk result (IsGrown (length instances.now) watches.old watches.new) }
{
    match waits(given, clauses, &instances[number]) {
        Some(cell) => {
            if cell >= given.cell_len() {
                return Ok(true);
            }
            watches.add(number, cell, given.len())?;
            Ok(true)
        }
        None => Ok(false),
    }
}

/// Lets each instance wait, where no cell has a value. Answers no where one of them is false.
pub fn watch_all(
    given: &Given,
    watches: &mut Watches,
    clauses: &[Clause],
    instances: &[GroundInstance],
) -> Mem<bool>
    requires places { All (λ i. i.place < length clauses.now) instances.now }
    requires empty { given.now.values ≡ [] }
    requires none { watches.old ≡ record { cells = length given.now.cells; watches = [] } }
    ensures all { IfOk result (AllGo clauses.now instances.now given.now watches.new.watches) }
    ensures grown { OnOk result (IsGrown (length instances.now) watches.old watches.new) }
{
    for number in 0..instances.len() {
        if !watch(given, watches, clauses, instances, number)? {
            return Ok(false);
        }
    }
    Ok(true)
}

/// Looks again at the instances that waited for the last cell with a value, and lets them wait for another. Answers no
/// where one of them is false.
pub fn wake(
    given: &Given,
    watches: &mut Watches,
    clauses: &[Clause],
    instances: &[GroundInstance],
) -> Mem<bool>
    requires places { All (λ i. i.place < length clauses.now) instances.now }
    requires cells { watches.old.cells ≡ length given.now.cells }
    requires last { (before : AList ℕ) × (v : ℕ) × (given.now.values ≡ before ++ v ∷ [])
        × AreWatched clauses.now instances.now (record { cells = given.now.cells; values = before }) watches.old.watches }
    ensures all { IfOk result (AllGo clauses.now instances.now given.now watches.new.watches) }
    ensures grown { OnOk result (IsGrown (length instances.now) watches.old watches.new) }
{
    let cell = given.len() - 1;
    let mut at = watches.latest(cell);
    while at > 0 {
        let watched = watches.get(at);
        if !watch(given, watches, clauses, instances, watched.instance)? {
            return Ok(false);
        }
        at = watched.next;
    }
    Ok(true)
}

/// Takes the last value back, and what was found with it.
pub fn take_back(given: &mut Given, watches: &mut Watches) -> u8
    requires { 0 < length given.old.values }
    ensures value { given.old ≡ record given.new { values = given.new.values ++ result ∷ [] } }
    ensures watches { IsTakenBack (length given.new.values) watches.old watches.new }
{
    let value = given.pop();
    watches.take_back(given.len());
    value
}
