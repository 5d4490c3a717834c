//! The writing end of a shelf.

use crate::rule::ShelfWriter;
use std::marker::Model;

mod asking;
mod publishing;
mod showing;

pub(crate) use showing::show;

/// The writing end of a shelf. Contracts see the symbols of the shelf, the entries published, and whether it is whole
/// (`PressState`). It is not `Drop`: whoever has one ends it by `end`, on every way out.
pub struct Press {
    writer: ShelfWriter,
    whole: bool,
    count: u32,
}

impl Model for Press {
    ghost use Rattle.std.specs.Prelude.{drop};
    ghost use Rattle.std.specs.Coded.{codes};
    ghost use Rattle.sc_term.specs.contracts.Term as term;
    ghost use Rattle.left_right.specs.Sides.{view as knowledge};
    ghost use Rattle.sc_shelf.specs.State.{PressState};

    ghost Value = { PressState };

    ghost coded = { Prim.hlevel (codes, term.the_row.coded) };

    ghost use Rattle.sc_shelf.specs.Kept.{IsPress};

    ghost view = { λ p. record { symbols = p.writer.desk.shown.value.signature.value; entries = p.writer.desk.shown.value.entries; whole = p.whole } };

    ghost invariant = { λ p. IsPress p.writer.desk.shown.value (knowledge p.writer.desk.place) (drop p.writer.behind p.writer.log.items) p.count p.whole };
}
