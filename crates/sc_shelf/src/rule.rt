//! The rule of a shelf, and the steps that keep it.

ghost use Rattle.sc_shelf.specs.Rule as rule;

use crate::entry::Entry;
use crate::store::Store;
use crate::view::View;
use atomic_table::{Join, Split};
use crossbeam_utils::rule::{Outcome, Protocol};
use left_right::reader::Reader;
use left_right::writer::Writer;

/// The rule.
pub struct Shelved;

impl Protocol<Store, View> for Shelved {
    ghost holds = { rule.IsShelved };

    ghost first = { rule.newcomer };
}

/// What a publish, or a look, tells.
pub struct Sees;

impl Outcome<Store, View> for Sees {
    ghost then = { rule.Sees };
}

/// A note of what the press knows.
pub struct Note;

impl Split<View> for Note {
    ghost left = { λ v. v };

    ghost right = { λ v. v };
}

/// A new reader takes the note over.
impl Join<View> for Note {
    ghost both = { λ _ w. w };

    ghost spent = { rule.newcomer };
}

pub type ShelfReader = Reader<Store, View, Shelved>;

pub type ShelfWriter = Writer<Store, Entry, View, Shelved>;
