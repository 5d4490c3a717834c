//! Publishing and closing.

ghost use Rattle.std.specs.Prelude.{◌≡◌, ◌<◌, ◌^◌, [], ◌∷◌, ◌++◌, true, false, length, drop, IfOk, OnOk, OnErr};
ghost use Rattle.left_right.specs.Sides.{view};
ghost use Rattle.sc_interp.specs.Structure.{AreTablesOf};
ghost use Rattle.sc_shelf.specs.declared.entry.Entry.TheVariants as entry;
ghost use Rattle.sc_shelf.specs.Rule.{sight};
ghost use Rattle.sc_shelf.specs.State.{listed, is_closed, new_press};

use super::Press;
use super::showing::publish_entry;
use crate::entry::Entry;
use crate::rule::ShelfWriter;
use sc_interp::Version;
use sc_term::Mem;
use std::sync::Wait;

impl Press {
    /// The press of a writer that shows no entry yet.
    pub(crate) fn new(writer: ShelfWriter) -> Press
        requires empty { writer.desk.shown.value.entries ≡ [] }
        requires knows { view writer.desk.place ≡ sight writer.desk.shown.value }
        requires ready { drop writer.behind writer.log.items ≡ [] }
        ensures { result ≡ new_press writer.desk.shown.value.signature.value }
    {
        Press {
            writer,
            whole: true,
            count: 0,
        }
    }

    /// Publishes the version, whose place, from 0, is the answer. The version is spent. It may wait for a reader inside a
    /// look. After want of memory nothing was published, and the press isn't whole.
    pub fn publish<R: Wait>(&mut self, rt: &R, version: Version) -> Mem<u32>
        requires whole { self.old.whole ≡ true }
        requires open { is_closed self.old ≡ false }
        requires over { AreTablesOf self.old.symbols version.tables }
        requires room { length (listed self.old) < 2 ^ 31 }
        ensures ok { OnOk result (self.new ≡ record self.old { entries = self.old.entries ++ entry.Published version ∷ [] }) }
        ensures place { IfOk result (λ place. place ≡ length (listed self.old)) }
        ensures list { OnOk result (listed self.new ≡ listed self.old ++ version ∷ []) }
        ensures open { is_closed self.new ≡ false }
        ensures err { OnErr result (self.new ≡ record self.old { whole = false }) }
    {
        let _ = version.tables();
        let place = self.count;
        match publish_entry(&mut self.writer, rt, Entry::Published(version)) {
            Ok(()) => {
                self.count = place + 1;
                Ok(place)
            }
            Err(error) => {
                self.whole = false;
                Err(error)
            }
        }
    }

    /// Closes the shelf: nothing is published from now on. It may wait for a reader inside a look. After want of memory
    /// the shelf isn't closed, and the press isn't whole.
    pub fn close<R: Wait>(&mut self, rt: &R) -> Mem<()>
        requires whole { self.old.whole ≡ true }
        requires open { is_closed self.old ≡ false }
        ensures ok { OnOk result (self.new ≡ record self.old { entries = self.old.entries ++ entry.Close ∷ [] }) }
        ensures closed { OnOk result (is_closed self.new ≡ true) }
        ensures list { listed self.new ≡ listed self.old }
        ensures err { OnErr result (self.new ≡ record self.old { whole = false }) }
    {
        match publish_entry(&mut self.writer, rt, Entry::Close) {
            Ok(()) => Ok(()),
            Err(error) => {
                self.whole = false;
                Err(error)
            }
        }
    }
}
