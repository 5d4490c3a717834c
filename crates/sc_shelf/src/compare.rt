//! Whether the versions among some entries begin with others.

ghost use Rattle.std.specs.Prelude.{◌≡◌, [], ◌∷◌, IsTrue};
ghost use Rattle.sc_shelf.specs.Entries.{versions, StartsWith};

use crate::entry::Entry;
use sc_interp::{Version, same};

fn is_entry_of(entry: &Entry, version: &Version) -> bool
    ensures { IsTrue result → versions (entry.now ∷ []) ≡ version.now ∷ [] }
{
    match entry {
        Entry::Published(own) => same(own, version),
        Entry::Close => false,
    }
}

/// Whether the first entries are these versions, in order.
pub fn begins(entries: &[Entry], seen: &[Version]) -> bool
    ensures { IsTrue result → StartsWith (versions entries.now) seen.now }
{
    if seen.len() > entries.len() {
        return false;
    }
    for i in 0..seen.len() {
        if !is_entry_of(&entries[i], &seen[i]) {
            return false;
        }
    }
    true
}
