//! The reading end of a shelf.

use crate::sight::Sight;
use crate::told::Told;
use sc_term::List;
use std::alloc::Global;
use std::marker::Model;

mod looking;

/// The reading end of a shelf. Contracts see the symbols of the shelf, the versions seen, how many were seen after each
/// look that was Ok, the entries that it met last, and those that the next look can't miss (`WindowState`).
#[derive(Drop)]
pub struct Window {
    alloc: Global,
    sight: Sight,
    pending: Option<Told>,
    looks: List<u32>,
}

impl Model for Window {
    ghost use Rattle.std.specs.Prelude.{IfSome};
    ghost use Rattle.std.specs.Coded.{codes};
    ghost use Rattle.sc_term.specs.contracts.Term as term;
    ghost use Rattle.sc_shelf.specs.State.{WindowState};
    ghost use Rattle.sc_shelf.specs.Kept.{IsNoteOver, learnt_by};

    ghost Value = { WindowState };

    ghost coded = { Prim.hlevel (codes, term.the_row.coded) };

    ghost view = { λ w. record { symbols = w.sight.symbols; seen = w.sight.seen; looks = w.looks; met = w.sight.met; learnt = learnt_by w.pending w.sight.met } };

    ghost invariant = { λ w. IfSome w.pending (IsNoteOver w.sight.symbols) };
}
