//! What a press publishes.

ghost use Rattle.std.specs.Prelude.{◌≡◌, IfOk};

use sc_interp::Version;
use sc_term::Mem;
use std::alloc::Global;

/// A version, or the mark that none follows.
#[derive(Debug, Drop)]
pub enum Entry {
    Published(Version),
    Close,
}

pub fn copy_entry(alloc: Global, entry: &Entry) -> Mem<Entry>
    ensures { IfOk result (λ e. e ≡ entry.now) }
{
    match entry {
        Entry::Published(version) => Ok(Entry::Published(version.copy(alloc)?)),
        Entry::Close => Ok(Entry::Close),
    }
}
