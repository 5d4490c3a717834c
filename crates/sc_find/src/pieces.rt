//! The pieces of a job, one after another.

ghost use Rattle.std.specs.Prelude.{IfOk};
ghost use Rattle.sc_find.specs.Answers.{AreFound};

use crate::answer::{Found, FoundAll, Piece};
use crate::find::find_first;
use crate::job::Job;
use sc_term::Mem;
use std::alloc::Global;

/// The first model of the job, sought in its pieces in order, each with the budget; that there is none; or the first
/// piece of which the plain count of nodes is more than the budget, where no piece before has a model (`AreFound`).
pub fn find_by_pieces(alloc: Global, job: &Job, budget: u64) -> Mem<FoundAll>
    ensures { IfOk result (AreFound job.now budget) }
{
    let end = job.pieces() + 1;
    for piece in 1..end {
        match find_first(alloc, job, Piece::First(piece as u8), budget)? {
            Found::Model(tables) => return Ok(FoundAll::Model(tables)),
            Found::None => {}
            Found::Spent => return Ok(FoundAll::Spent { piece }),
        }
    }
    Ok(FoundAll::None)
}
