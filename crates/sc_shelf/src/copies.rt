//! Copying the versions among entries.

ghost use Rattle.std.specs.Prelude.{◌≡◌, ◌≤◌, [], ◌∷◌, ◌++◌, take, drop, length, OnOk, OnErr};
ghost use Rattle.sc_shelf.specs.Entries.{versions, StartsWith};

use crate::entry::Entry;
use sc_interp::Version;
use sc_term::{List, Mem};
use std::alloc::Global;

/// Copies the entry's version, if it has one.
fn add_version(alloc: Global, entry: &Entry, seen: &mut List<Version>) -> Mem<()>
    ensures ok { OnOk result (seen.new ≡ seen.old ++ versions (entry.now ∷ [])) }
    ensures err { OnErr result (seen.new ≡ seen.old) }
{
    match entry {
        Entry::Published(version) => {
            let copy = version.copy(alloc)?;
            seen.push(copy)?;
            Ok(())
        }
        Entry::Close => Ok(()),
    }
}

/// Copies the versions among the entries.
fn copy_versions(alloc: Global, entries: &[Entry], seen: &mut List<Version>) -> Mem<()>
    ensures ok { OnOk result (seen.new ≡ seen.old ++ versions entries.now) }
    ensures part { StartsWith (seen.old ++ versions entries.now) seen.new }
    ensures grows { StartsWith seen.new seen.old }
{
    for entry in entries {
        add_version(alloc, entry, seen)?;
    }
    Ok(())
}

/// The entries behind those of the versions seen, which are the first ones.
fn unseen<'a>(entries: &'a [Entry], seen: &[Version]) -> &'a [Entry]
    requires { length seen.now ≤ length entries.now }
    ensures { result.now ≡ drop (length seen.now) entries.now }
{
    entries.split_at(seen.len()).1
}

/// Copies the versions that weren't seen yet. After want of memory a front of them was copied.
pub fn catch_up(alloc: Global, entries: &[Entry], seen: &mut List<Version>) -> Mem<()>
    requires { versions (take (length seen.old) entries.now) ≡ seen.old }
    ensures ok { OnOk result (seen.new ≡ versions entries.now) }
    ensures part { StartsWith (versions entries.now) seen.new }
    ensures grows { StartsWith seen.new seen.old }
{
    if seen.len() > entries.len() {
        return Ok(());
    }
    let fresh = unseen(entries, seen.as_slice());
    copy_versions(alloc, fresh, seen)
}
