//! The given clause of a turn, with its row.

ghost use Rattle.std.specs.Prelude.{◌≡◌, ◌<◌, ◌+◌, ◌^◌, [], true, IfOk, OnOk, MatchOption, length};
ghost use Rattle.sc_term.specs.Clause.{IsCanonical, IsWithinLimits};
ghost use Rattle.sc_interp.specs.Marks.{IsMark};
ghost use Rattle.sc_interp.specs.Versions.{opening};
ghost use Rattle.sc_core.specs.Choice.{IsRowOf, IsChosen};
ghost use Rattle.sc_core.specs.Marking.{AreRight};

use crate::selecting::select;
use sc_core_rules::{Cause, GivenRow};
use sc_guide::Guide;
use sc_interp::{Assign, Truth, Version, truth};
use sc_keep::Book;
use sc_mark::Marks;
use sc_term::{Clause, Mem, Numbered, copy, width};
use std::alloc::Global;

/// A copy of the given clause of a turn, and its row.
#[derive(Drop)]
pub struct GivenChoice {
    pub given: Numbered,
    pub row: GivenRow,
}

/// The mark of the clause in the version.
fn mark(alloc: Global, version: &Version, c: &Clause) -> Mem<Truth>
    requires canonical { IsCanonical c.now }
    requires within { IsWithinLimits c.now }
    ensures { IfOk result (λ mark. IsMark version.now.tables c.now mark) }
{
    let mut register = Assign::new(alloc, width(c))?;
    Ok(truth(version.tables(), c, &mut register))
}

/// Clause n as the given one of the turn, with its row under the guide of what is seen.
fn with_row(
    alloc: Global,
    guide: &Guide,
    turn: u32,
    n: u32,
    clause: &Clause,
    cause: Cause,
) -> Mem<GivenChoice>
    requires canonical { IsCanonical clause.now }
    requires within { IsWithinLimits clause.now }
    ensures { IfOk result (λ choice. IsRowOf guide.now turn n clause.now cause choice) }
{
    let truth = mark(alloc, guide.version(), clause)?;
    let lengths = guide.lengths(alloc)?;
    let given = Numbered {
        number: n,
        clause: copy(alloc, clause)?,
    };
    let row = GivenRow {
        turn,
        number: n,
        cause,
        name: guide.name(),
        truth,
        lengths,
    };
    Ok(GivenChoice { given, row })
}

/// The given clause of the turn under the guide of what is seen, with its row (`IsChosen`). None exactly where sos is
/// empty. Marks that are right stay right.
pub fn choose(
    alloc: Global,
    guide: &Guide,
    marks: &mut Marks,
    book: &Book,
    turn: u32,
) -> Mem<Option<GivenChoice>>
    requires whole { book.now.whole ≡ true }
    requires few { length book.now.problem.inputs + length book.now.book.derived + 200002 < 2 ^ 32 }
    requires opens { guide.now.opening_version ≡ opening book.now.problem.symbols }
    requires right { AreRight book.now.problem guide.now.seen book.now.book marks.old }
    ensures chosen { IfOk result (λ chosen. MatchOption chosen (book.now.book.sos ≡ []) (λ choice. IsChosen book.now.problem guide.now turn book.now.book.sos choice)) }
    ensures right { OnOk result (AreRight book.now.problem guide.now.seen book.now.book marks.new) }
{
    book.keeps();
    match select(alloc, guide, marks, book, turn)? {
        Some(selected) => {
            let n = selected.number;
            let choice = with_row(alloc, guide, turn, n, book.clause(n), selected.cause)?;
            Ok(Some(choice))
        }
        None => Ok(None),
    }
}
