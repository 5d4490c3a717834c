//! What a press tells of itself, and its end.

ghost use Rattle.std.specs.Prelude.{◌≡◌, length, IfSome};
ghost use Rattle.sc_shelf.specs.Entries.{AreEntries};
ghost use Rattle.sc_shelf.specs.State.{listed};

use super::Press;
use crate::reader::new_reader;
use crate::told::Told;
use std::sync::Wait;

impl Press {
    /// A note of the entries that are published now, for a window of the same shelf to learn. It takes no memory, and is
    /// lost where all eight readers of the shelf are in use.
    pub fn told(&mut self) -> Told
        ensures note { IfSome result (λ note. note ≡ record { symbols = self.old.symbols; entries = self.old.entries }) }
        ensures same { self.new ≡ self.old }
    {
        match new_reader(&mut self.writer) {
            Ok(reader) => Told {
                reader: Some(reader),
            },
            Err(_) => Told { reader: None },
        }
    }

    /// Whether no publish and no close was refused.
    pub fn is_whole(&self) -> bool
        ensures { result ≡ self.now.whole }
    {
        self.whole
    }

    /// How many versions are published.
    pub fn count(&self) -> u32
        ensures { result ≡ length (listed self.now) }
    {
        self.count
    }

    /// What the entries of every shelf keep.
    pub fn keeps(&self)
        ensures { AreEntries self.now.symbols self.now.entries }
    {
        let _ = &self.whole;
    }

    /// Uses the press up, whole or not, closed or not. It may wait for a reader inside a look. What windows have seen
    /// stays, and no look after it is Ok.
    pub fn end<R: Wait>(self, rt: &R) {
        let Press {
            writer,
            whole: _,
            count: _,
        } = self;
        writer.take(rt);
    }
}
