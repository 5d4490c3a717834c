//! One turn of a run.

ghost use Rattle.std.specs.Prelude.{◌≡◌, ◌+◌, ◌<◌, ◌^◌, true, None, IfOk, OnOk, Contains, length};
ghost use Rattle.sc_interp.specs.Versions.{opening};
ghost use Rattle.sc_core_rules.specs.Turn as turns;
ghost use Rattle.sc_core_rules.specs.Turn.{Turns};
ghost use Rattle.sc_core.specs.Finish.{finish_of};
ghost use Rattle.sc_core.specs.Marking.{AreRight};
ghost use Rattle.sc_core.specs.Counts.{IsCounted};
ghost use Rattle.sc_core.specs.Turning.{run_of, Stops, AreWorked, IsGiven};

use crate::choosing::{GivenChoice, choose};
use crate::finish::Finish;
use crate::working::work;
use sc_core_rules::{GivenRow, Outcome};
use sc_core_sites::sites;
use sc_guide::Guide;
use sc_keep::Book;
use sc_mark::Marks;
use sc_term::{List, MAX_WORK, Mem, Numbered};
use std::alloc::Global;

/// A run so far: the book, the rows of the given clauses, how it ended, and the number of the empty clause.
#[derive(Drop)]
pub struct Running {
    pub book: Book,
    pub given: List<GivenRow>,
    pub ended: Option<Outcome>,
    pub goal: Option<u32>,
}

/// What ends the run before a clause is given: sos is empty, or as many clauses as may be were given, or were kept.
fn limit(running: &Running) -> Option<Outcome>
    requires few_given { length running.now.given < 2 ^ 32 }
    requires few_kept { length running.now.book.book.kept < 2 ^ 32 }
    ensures { Stops running.now.book.problem (run_of running.now) result }
{
    let params = running.book.params();
    if running.book.sos().is_empty() {
        return Some(Outcome::SosEmpty);
    }
    let given = running.given.len() as u32;
    if given == params.max_given {
        return Some(Outcome::GivenLimit(given));
    }
    let kept = running.book.kept().len() as u32;
    if params.max_kept <= kept {
        return Some(Outcome::KeptLimit(kept));
    }
    None
}

/// What the work ends the run by.
fn outcome_of(turn: u32, finish: Finish) -> Option<Outcome>
    ensures { result ≡ turns.outcome_of turn (finish_of finish) }
{
    match finish {
        Finish::Done => None,
        Finish::Found(_) => Some(Outcome::Proof),
        Finish::TooMany => Some(Outcome::WorkLimit(turn)),
    }
}

/// The number of the empty clause that the work ends with.
fn goal_of(finish: Finish) -> Option<u32>
    ensures { result ≡ turns.goal_of (finish_of finish) }
{
    match finish {
        Finish::Found(n) => Some(n),
        Finish::Done | Finish::TooMany => None,
    }
}

/// Works all sites of the given clause, which is usable (`AreWorked`).
fn work_all(alloc: Global, book: &mut Book, given: &Numbered, turn: u32) -> Mem<Finish>
    requires whole { book.old.whole ≡ true }
    requires listed { Contains book.old.book.usable given.now }
    requires few { length book.old.problem.inputs + length book.old.book.derived + 200002 < 2 ^ 32 }
    ensures worked { IfOk result (λ finish. AreWorked book.old.problem turn given.now book.old.book book.new.book (finish_of finish)) }
    ensures problem { book.new.problem ≡ book.old.problem }
    ensures whole { OnOk result (book.new.whole ≡ true) }
{
    book.keeps();
    let listed = sites(alloc, book.flags(), given, book.usable(), MAX_WORK + 1)?;
    let finish = work(alloc, book, given, &listed, turn)?;
    Ok(finish)
}

/// Gives the chosen clause: its row is written, it moves to usable, and all its sites are worked (`IsGiven`).
fn give(alloc: Global, running: &mut Running, choice: GivenChoice, turn: u32) -> Mem<()>
    requires whole { running.old.book.whole ≡ true }
    requires listed { Contains running.old.book.book.sos choice.given }
    requires few { length running.old.book.problem.inputs + length running.old.book.book.derived + 200002 < 2 ^ 32 }
    ensures given { OnOk result (IsGiven running.old.book.problem turn choice (run_of running.old) (run_of running.new)) }
    ensures problem { running.new.book.problem ≡ running.old.book.problem }
    ensures whole { OnOk result (running.new.book.whole ≡ true) }
{
    running.book.keeps();
    running.book.give(choice.given.number)?;
    running.given.push(choice.row)?;
    let finish = work_all(alloc, &mut running.book, &choice.given, turn)?;
    running.ended = outcome_of(turn, finish);
    running.goal = goal_of(finish);
    Ok(())
}

/// One turn of a run that hasn't ended, with the versions that are seen (`Turns`). Marks that are right are right still.
/// After want of memory the run is of no use.
pub fn turn(alloc: Global, guide: &Guide, marks: &mut Marks, running: &mut Running) -> Mem<()>
    requires whole { running.old.book.whole ≡ true }
    requires going { running.old.ended ≡ None }
    requires counted { IsCounted running.old.book.problem (run_of running.old) }
    requires opens { guide.now.opening_version ≡ opening running.old.book.problem.symbols }
    requires right { AreRight running.old.book.problem guide.now.seen running.old.book.book marks.old }
    ensures turns { OnOk result (Turns running.old.book.problem (run_of running.old) guide.now.seen (run_of running.new)) }
    ensures right { OnOk result (AreRight running.old.book.problem guide.now.seen running.new.book.book marks.new) }
    ensures problem { running.new.book.problem ≡ running.old.book.problem }
    ensures whole { OnOk result (running.new.book.whole ≡ true) }
{
    running.book.keeps();
    match limit(running) {
        Some(outcome) => {
            running.ended = Some(outcome);
            return Ok(());
        }
        None => {}
    }
    let turn = running.given.len() as u32 + 1;
    match choose(alloc, guide, marks, &running.book, turn)? {
        Some(choice) => {
            let n = choice.given.number;
            give(alloc, running, choice, turn)?;
            marks.forget(n);
            Ok(())
        }
        // Sos isn't empty.
        None => Ok(()),
    }
}
