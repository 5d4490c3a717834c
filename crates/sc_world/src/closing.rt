//! After all have ended: each shelf is closed, its window looks for the last time, and the record is put together.

ghost use Rattle.std.specs.Prelude.{◌≡◌, ◌<◌, ◌≤◌, ◌^◌, All, IfOk, OnOk, Some, false, true, length};
ghost use Rattle.std.specs.List.{AllZip};
ghost use Rattle.sc_shelf.specs.Entries.{StartsWith};
ghost use Rattle.sc_text_run_rules.specs.RunValue.{run_value};
ghost use Rattle.sc_worker.specs.declared.plan.Plan.{Plan as APlan};
ghost use Rattle.sc_world.specs.Abreast.{seen_of};
ghost use Rattle.sc_world.specs.Beside.{AllFound, IsBeside};
ghost use Rattle.sc_shelf.specs.State.{WindowState as AWindow, is_closed};
ghost use Rattle.sc_world.specs.Acting.{Closed, AllClosed, AreOnShelves, ends_of as spec_ends_of};
ghost use Rattle.sc_world.specs.declared.actors.Actor.{Actor as AnActor};

use crate::actors::Actor;
use crate::record::{proof_and_marks, rows};
use crate::turns::catch_up;
use sc_core::Prover;
use sc_core_rules::Outcome;
use sc_input_rules::Problem;
use sc_shelf::Window;
use sc_term::{List, Mem};
use sc_text_run_rules::RunText;
use sc_worker::FinderEnd;
use std::alloc::Global;
use std::sync::Wait;

/// Closes the finder's shelf, and looks at it once more. It is refused where a publish was.
fn close_one<R: Wait>(rt: &R, actor: &mut Actor<'_>, window: &mut Window) -> Mem<()>
    requires unclosed { is_closed actor.old.finder.press ≡ false }
    requires shelf { window.old.symbols ≡ actor.old.finder.press.symbols }
    requires room { length window.old.looks < 2 ^ 31 }
    ensures { OnOk result (Closed actor.old window.old actor.new window.new) }
{
    actor.finder.close(rt, window)
}

/// The same for every shelf.
pub fn close_all<R: Wait>(rt: &R, actors: &mut [Actor<'_>], windows: &mut [Window]) -> Mem<()>
    requires many { length windows.old ≡ length actors.old }
    requires unclosed { All (λ (a : AnActor). is_closed a.finder.press ≡ false) actors.old }
    requires shelves { AreOnShelves actors.old windows.old }
    requires room { All (λ (w : AWindow). length w.looks < 2 ^ 31) windows.old }
    ensures { OnOk result (AllClosed actors.old windows.old actors.new windows.new) }
{
    for i in 0..actors.len() {
        close_one(rt, &mut actors[i], &mut windows[i])?;
    }
    Ok(())
}

/// How each finder ended.
fn ends_of(alloc: Global, actors: &[Actor<'_>]) -> Mem<List<FinderEnd>>
    ensures { IfOk result (λ ends. ends ≡ spec_ends_of actors.now) }
{
    let mut ends = List::new(alloc);
    for actor in actors {
        ends.push(actor.end)?;
    }
    Ok(ends)
}

/// The record of a run that has ended beside these finders, whatever their plan is: its marks are in the guide of what the
/// prover sees now.
fn record(
    alloc: Global,
    problem: &Problem,
    prover: &Prover,
    actors: &[Actor<'_>],
    outcome: Outcome,
) -> Mem<RunText>
    requires whole { prover.now.whole ≡ true }
    requires ended { prover.now.run.ended ≡ Some outcome }
    requires same { prover.now.problem ≡ problem.now }
    ensures recorded { IfOk result (λ run. (plan : APlan) → AllFound problem.now plan (spec_ends_of actors.now) prover.now.seen → IsBeside problem.now plan prover.now.seen (run_value run)) }
    ensures given { IfOk result (λ run. run.given ≡ prover.now.run.given) }
    ensures outcome { IfOk result (λ run. run.outcome ≡ outcome) }
{
    prover.keeps();
    let told = proof_and_marks(alloc, prover, outcome)?;
    let ends = ends_of(alloc, actors)?;
    let run = rows(alloc, problem, prover, ends, outcome, told)?;
    Ok(run)
}

/// The prover sees what its windows have seen at last, and the record is that of the run with these lists.
pub fn finish_beside(
    alloc: Global,
    problem: &Problem,
    prover: &mut Prover,
    actors: &[Actor<'_>],
    windows: &[Window],
    outcome: Outcome,
) -> Mem<RunText>
    requires whole { prover.old.whole ≡ true }
    requires ended { prover.old.run.ended ≡ Some outcome }
    requires same { prover.old.problem ≡ problem.now }
    requires grown { AllZip StartsWith (seen_of windows.now) prover.old.seen }
    requires small { length windows.now ≤ 8 }
    requires few { All (λ (w : AWindow). length w.seen ≤ 2 ^ 31) windows.now }
    ensures recorded { IfOk result (λ run. (plan : APlan) → AllFound problem.now plan (spec_ends_of actors.now) (seen_of windows.now) → IsBeside problem.now plan prover.new.seen (run_value run)) }
    ensures sees { OnOk result (prover.new.seen ≡ seen_of windows.now) }
    ensures given { IfOk result (λ run. run.given ≡ prover.old.run.given) }
    ensures outcome { IfOk result (λ run. run.outcome ≡ outcome) }
{
    catch_up(prover, windows)?;
    let run = record(alloc, problem, prover, actors, outcome)?;
    Ok(run)
}
