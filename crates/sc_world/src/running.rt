//! A run from its start to its end, and the finder that works between its turns.

ghost use Rattle.std.specs.Prelude.{◌≡◌, ◌≤◌, None, Some, true, IfOk, OnOk, length};
ghost use Rattle.sc_world.specs.Steps.{MayGrow, IsNextWorked, IsStep, IsEnd, seeing};
ghost use Rattle.sc_world.specs.Underway.{IsUnderway};

use sc_core::Prover;
use sc_core_rules::Outcome;
use sc_term::Mem;
use sc_text_run_rules::FinderEnd;
use sc_worker::{Chooser, Worked};
use std::alloc::Global;

/// The prover sees the version that joined.
fn see(prover: &mut Prover, worked: Worked) -> Mem<()>
    requires { MayGrow prover.old.seen }
    ensures { OnOk result (prover.new ≡ seeing worked prover.old) }
{
    match worked {
        Worked::Joined(version) => {
            prover.receive(1, version)?;
            Ok(())
        }
        Worked::Skipped(_) => Ok(()),
        Worked::Done => Ok(()),
        Worked::Wide => Ok(()),
    }
}

/// The finder works its next candidate, and the prover sees what it published.
fn work_next(alloc: Global, prover: &mut Prover, chooser: &mut Chooser<'_>) -> Mem<()>
    requires { MayGrow prover.old.seen }
    ensures { OnOk result (IsNextWorked prover.old prover.new chooser.old chooser.new) }
{
    let worked = chooser.next(alloc)?;
    see(prover, worked)?;
    Ok(())
}

/// One turn and, where the run goes on, the finder's next candidate.
fn step(alloc: Global, prover: &mut Prover, chooser: &mut Chooser<'_>) -> Mem<()>
    requires whole { prover.old.whole ≡ true }
    requires going { prover.old.run.ended ≡ None }
    requires room { MayGrow prover.old.seen }
    ensures { OnOk result (IsStep prover.old prover.new chooser.old chooser.new) }
{
    prover.turn()?;
    match prover.outcome() {
        Some(_) => Ok(()),
        None => {
            work_next(alloc, prover, chooser)?;
            Ok(())
        }
    }
}

/// Turns until the run has ended; it ends at the latest when as many clauses were given as may be.
pub fn run_to_its_end(alloc: Global, prover: &mut Prover, chooser: &mut Chooser<'_>) -> Mem<Outcome>
    requires few { length chooser.old.left ≤ 128 }
    requires underway { IsUnderway chooser.old prover.old chooser.old }
    ensures outcome { IfOk result (λ outcome. prover.new.run.ended ≡ Some outcome) }
    ensures underway { OnOk result (IsUnderway chooser.old prover.new chooser.new) }
{
    loop {
        match prover.outcome() {
            Some(outcome) => return Ok(outcome),
            None => {}
        }
        step(alloc, prover, chooser)?;
    }
}

/// How the finder ended.
pub fn end_of(chooser: &Chooser<'_>) -> FinderEnd
    ensures { IsEnd chooser.now result }
{
    if !chooser.has_more() {
        return FinderEnd::Done;
    }
    if chooser.is_wide() {
        return FinderEnd::Wide;
    }
    FinderEnd::Stopped
}
