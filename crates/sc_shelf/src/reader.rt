//! Readers that know what the press knows.

ghost use Rattle.std.specs.Prelude.{◌≡◌, IfOk};
ghost use Rattle.left_right.specs.Sides.{view};

use crate::rule::{Note, ShelfReader, ShelfWriter};
use std::alloc::AllocError;

/// A new reader that has learnt a note of the press. It takes no memory; it is refused where all eight readers of the
/// shelf are in use.
pub fn new_reader(writer: &mut ShelfWriter) -> Result<ShelfReader, AllocError>
    ensures kept { (writer.new.desk.shown ≡ writer.old.desk.shown) × (writer.new.log ≡ writer.old.log) × (writer.new.behind ≡ writer.old.behind) × (view writer.new.desk.place ≡ view writer.old.desk.place) }
    ensures knows { IfOk result (λ r. view r.place ≡ view writer.old.desk.place) }
{
    let mut reader = writer.factory().reader()?;
    reader.learn::<Note>(writer.tell::<Note>());
    Ok(reader)
}
