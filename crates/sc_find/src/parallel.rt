//! The pieces of a job, as many at a time as there are workers.

ghost use Rattle.std.specs.Prelude.{◌≡◌, ◌+◌, ◌<◌, ◌≤◌, ℕ, Option as AnOption, IfOk, length, vec_len};
ghost use Rattle.sc_find.specs.Answers.{AreFound};
ghost use Rattle.sc_find.specs.Models.{Task, IsPiece};
ghost use Rattle.sc_find.specs.Pieces.{ArePieces, IsAnswerIn, AreAnswersFrom, IsDecidedFrom};

use crate::answer::{Found, FoundAll, Piece};
use crate::find::find_first;
use crate::job::Job;
use sc_term::Mem;
use std::alloc::Global;
use std::thread::{Threads, map_indices};

/// What the answer in a piece decides with what the pieces behind it have decided.
fn sooner(found: Found, piece: u32, later: Option<FoundAll>) -> Option<FoundAll>
    ensures { (task : Task) (budget end : ℕ) (value : AnOption ℕ) → IsPiece task piece value → IsAnswerIn task budget piece found
        → IsDecidedFrom task budget (piece + 1) end later → IsDecidedFrom task budget piece end result }
{
    match found {
        Found::Model(tables) => Some(FoundAll::Model(tables)),
        Found::None => later,
        Found::Spent => Some(FoundAll::Spent { piece }),
    }
}

/// What the answers in some pieces, of which that is the first, decide together.
fn decide(mut answers: Vec<Mem<Found>>, from: u32) -> Mem<Option<FoundAll>>
    requires { from + vec_len answers ≤ 9 }
    ensures { (task : Task) (budget : ℕ) → ArePieces task from (length answers.items) → AreAnswersFrom task budget from answers.items
        → IfOk result (IsDecidedFrom task budget from (from + length answers.items)) }
{
    let mut decided: Option<FoundAll> = None;
    while let Some(answer) = answers.pop() {
        let piece = from + answers.len() as u32;
        decided = sooner(answer?, piece, decided);
    }
    Ok(decided)
}

/// What so many pieces from that one on decide, each searched by a worker of its own.
fn search_together<R: Threads + Sync>(
    rt: &R,
    alloc: Global,
    job: &Job,
    budget: u64,
    from: u32,
    count: u32,
) -> Mem<Option<FoundAll>>
    requires few { from + count ≤ 9 }
    requires pieces { ArePieces job.now from count }
    ensures { IfOk result (IsDecidedFrom job.now budget from (from + count)) }
{
    let answers = map_indices(
        rt,
        alloc,
        count as usize,
        &|i: usize| -> Mem<Found>
            requires { (from + i ≤ 8) × ((value : AnOption ℕ) × IsPiece job.now (from + i) value) }
            ensures { IfOk result (IsAnswerIn job.entry.now budget (from + i)) }
        { find_first(alloc, job, Piece::First((from + i as u32) as u8), budget) },
    )?;
    Ok(decide(answers, from)?)
}

/// What `find_by_pieces` finds, by so many workers, each of which has a piece and a thread of its own where one can be
/// made. The next pieces are begun when all of these have ended; the first piece in order that has a model or was spent
/// decides, whichever ended first (`AreFound`).
pub fn find_parallel<R: Threads + Sync>(
    rt: &R,
    alloc: Global,
    job: &Job,
    budget: u64,
    workers: u32,
) -> Mem<FoundAll>
    requires { 1 ≤ workers }
    ensures { IfOk result (AreFound job.now budget) }
{
    let end = job.pieces() + 1;
    let mut from = 1;
    while from < end {
        let count = workers.min(end - from);
        if let Some(all) = search_together(rt, alloc, job, budget, from, count)? {
            return Ok(all);
        }
        from += count;
    }
    Ok(FoundAll::None)
}
