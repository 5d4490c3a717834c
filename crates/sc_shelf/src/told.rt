//! What a press tells a window.

use crate::rule::ShelfReader;
use std::marker::Model;

/// The entries that a press had published when it made this. Contracts see a note of them, and none where it was lost: it
/// is a reader of the shelf, which couldn't be made then.
#[derive(Drop)]
pub struct Told {
    pub(crate) reader: Option<ShelfReader>,
}

impl Model for Told {
    ghost use Rattle.std.specs.Prelude.{◌≡◌, Option, Some, IfSome, IsSome, option_map};
    ghost use Rattle.std.specs.Coded.{codes};
    ghost use Rattle.sc_term.specs.contracts.Term as term;
    ghost use Rattle.left_right.specs.Sides.{view as knowledge};
    ghost use Rattle.sc_shelf.specs.State.{Note};

    ghost Value = { Option Note };

    ghost coded = { Prim.hlevel (codes, term.the_row.coded) };

    ghost use Rattle.sc_shelf.specs.Kept.{note_of};

    ghost view = { λ t. option_map (λ r. note_of (knowledge r.place)) t.reader };

    ghost invariant = { λ t. IfSome t.reader (λ r. IsSome (knowledge r.place).symbols) };
}
