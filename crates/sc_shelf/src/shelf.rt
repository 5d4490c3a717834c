//! Opening a shelf.

ghost use Rattle.std.specs.Prelude.{◌≡◌, [], IfOk, drop};
ghost use Rattle.left_right.specs.Sides.{view};
ghost use Rattle.sc_shelf.specs.Rule.{sight};
ghost use Rattle.sc_shelf.specs.State.{new_press, new_window};

use crate::press::{Press, show};
use crate::reader::new_reader;
use crate::rule::ShelfWriter;
use crate::sight::Sight;
use crate::store::empty_store;
use crate::window::Window;
use sc_term::{Mem, OutOfMemory, Signature};
use std::alloc::Global;
use std::sync::Wait;

/// So many readers there may be at once: the window's, and those of what was told and isn't spent.
const READERS: usize = 8;

/// The two ends of a shelf. It isn't `Drop`, as a press isn't.
pub struct Shelf {
    pub press: Press,
    pub window: Window,
}

/// A shelf for versions over the signature, with nothing on it.
pub fn new_shelf<R: Wait>(rt: &R, alloc: Global, sig: &Signature) -> Mem<Shelf>
    ensures press { IfOk result (λ shelf. shelf.press ≡ new_press sig.now) }
    ensures window { IfOk result (λ shelf. shelf.window ≡ new_window sig.now) }
{
    let first = empty_store(alloc, sig);
    let second = empty_store(alloc, sig);
    let writer = ShelfWriter::new(alloc, first, second, READERS)?;
    let (writer, done) = show(writer, rt);
    match done {
        Ok(()) => open_ends(rt, alloc, writer, sig),
        Err(error) => {
            writer.take(rt);
            Err(error)
        }
    }
}

/// The two ends of the shelf that the writer shows.
fn open_ends<R: Wait>(rt: &R, alloc: Global, writer: ShelfWriter, sig: &Signature) -> Mem<Shelf>
    requires empty { writer.desk.shown.value.entries ≡ [] }
    requires symbols { writer.desk.shown.value.signature.value ≡ sig.now }
    requires knows { view writer.desk.place ≡ sight writer.desk.shown.value }
    requires ready { drop writer.behind writer.log.items ≡ [] }
    ensures press { IfOk result (λ shelf. shelf.press ≡ new_press sig.now) }
    ensures window { IfOk result (λ shelf. shelf.window ≡ new_window sig.now) }
{
    let mut writer = writer;
    match new_reader(&mut writer) {
        Ok(reader) => Ok(Shelf {
            press: Press::new(writer),
            window: Window::new(alloc, Sight::new(alloc, reader, sig)),
        }),
        Err(_) => {
            writer.take(rt);
            Err(OutOfMemory)
        }
    }
}
