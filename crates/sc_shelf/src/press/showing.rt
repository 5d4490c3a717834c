//! Appending an entry, and showing it to the readers.

ghost use Rattle.std.specs.Prelude.{◌≡◌, [], ◌∷◌, ◌++◌, drop, MatchResult};
ghost use Rattle.left_right.specs.Sides.{view};
ghost use Rattle.sc_shelf.specs.Entries.{AreEntries};
ghost use Rattle.sc_shelf.specs.Rule.{sight};

use crate::entry::Entry;
use crate::rule::{Sees, ShelfWriter};
use core::mem::replace_with;
use sc_term::{Mem, OutOfMemory};
use std::sync::Wait;

/// Shows the readers what was appended. It waits for those that still read the other copy.
pub(crate) fn show<R: Wait>(writer: ShelfWriter, rt: &R) -> (ShelfWriter, Mem<()>)
    requires { AreEntries writer.desk.shown.value.signature.value (writer.desk.shown.value.entries ++ drop writer.behind writer.log.items) }
    ensures { MatchResult result.1
        (λ _. (result.0.desk.shown.value ≡ record writer.desk.shown.value { entries = writer.desk.shown.value.entries ++ drop writer.behind writer.log.items }) × (view result.0.desk.place ≡ sight result.0.desk.shown.value) × (drop result.0.behind result.0.log.items ≡ []))
        (λ _. (result.0.desk.shown.value ≡ writer.desk.shown.value) × (view result.0.desk.place ≡ view writer.desk.place)) }
{
    let (writer, done) = writer.publish_as::<Sees, R>(rt);
    match done {
        Ok(()) => (writer, Ok(())),
        Err(_) => (writer, Err(OutOfMemory)),
    }
}

/// Appends the entry, and shows it. The entry is spent.
fn append_and_show<R: Wait>(writer: ShelfWriter, rt: &R, entry: Entry) -> (ShelfWriter, Mem<()>)
    requires ready { drop writer.behind writer.log.items ≡ [] }
    requires fits { AreEntries writer.desk.shown.value.signature.value (writer.desk.shown.value.entries ++ entry ∷ []) }
    ensures { MatchResult result.1
        (λ _. (result.0.desk.shown.value ≡ record writer.desk.shown.value { entries = writer.desk.shown.value.entries ++ entry ∷ [] }) × (view result.0.desk.place ≡ sight result.0.desk.shown.value) × (drop result.0.behind result.0.log.items ≡ []))
        (λ _. (result.0.desk.shown.value ≡ writer.desk.shown.value) × (view result.0.desk.place ≡ view writer.desk.place)) }
{
    let mut writer = writer;
    match writer.append(entry) {
        Ok(()) => show(writer, rt),
        Err(_) => (writer, Err(OutOfMemory)),
    }
}

/// The same in place.
pub(crate) fn publish_entry<R: Wait>(writer: &mut ShelfWriter, rt: &R, entry: Entry) -> Mem<()>
    requires ready { drop writer.old.behind writer.old.log.items ≡ [] }
    requires fits { AreEntries writer.old.desk.shown.value.signature.value (writer.old.desk.shown.value.entries ++ entry ∷ []) }
    ensures { MatchResult result
        (λ _. (writer.new.desk.shown.value ≡ record writer.old.desk.shown.value { entries = writer.old.desk.shown.value.entries ++ entry ∷ [] }) × (view writer.new.desk.place ≡ sight writer.new.desk.shown.value) × (drop writer.new.behind writer.new.log.items ≡ []))
        (λ _. (writer.new.desk.shown.value ≡ writer.old.desk.shown.value) × (view writer.new.desk.place ≡ view writer.old.desk.place)) }
{
    replace_with(
        writer,
        entry,
        |writer: ShelfWriter, entry: Entry| -> (ShelfWriter, Mem<()>)
            requires ready { drop writer.behind writer.log.items ≡ [] }
            requires fits { AreEntries writer.desk.shown.value.signature.value (writer.desk.shown.value.entries ++ entry ∷ []) }
            ensures { MatchResult result.1
                (λ _. (result.0.desk.shown.value ≡ record writer.desk.shown.value { entries = writer.desk.shown.value.entries ++ entry ∷ [] }) × (view result.0.desk.place ≡ sight result.0.desk.shown.value) × (drop result.0.behind result.0.log.items ≡ []))
                (λ _. (result.0.desk.shown.value ≡ writer.desk.shown.value) × (view result.0.desk.place ≡ view writer.desk.place)) }
        { append_and_show(writer, rt, entry) },
    )
}
