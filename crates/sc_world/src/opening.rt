//! A finder, a shelf and a window for each number, and the end of all finders.

ghost use Rattle.std.specs.Prelude.{◌≡◌, ◌≤◌, [], ◌∷◌, ◌++◌, All, IfOk, OnOk, length};
ghost use Rattle.sc_shelf.specs.State.{WindowState as AWindow, new_window};
ghost use Rattle.sc_worker.specs.Plans.{IsPlan};
ghost use Rattle.sc_world.specs.Acting.{IsOpened, AreOpened, HasOne};

use crate::actors::Actor;
use sc_input_rules::Problem;
use sc_shelf::{Shelf, Window, new_shelf};
use sc_term::{Mem, OutOfMemory};
use sc_worker::{Chooser, Finder, FinderEnd, Plan};
use std::alloc::{AllocFailed, Global};
use std::sync::Wait;

/// Ends the finder's press.
fn end_one<R: Wait>(rt: &R, actor: Actor<'_>) {
    let Actor { finder, end: _ } = actor;
    finder.into_press().end(rt);
}

/// Ends every press.
pub fn end_all<R: Wait>(rt: &R, mut actors: Vec<Actor<'_>>) {
    while let Some(actor) = actors.pop() {
        end_one(rt, actor);
    }
    actors.destroy_empty();
}

/// The finder and the window join their rows, or the finder's press is ended.
fn put<'a, R: Wait>(
    rt: &R,
    actor: Actor<'a>,
    window: Window,
    actors: &mut Vec<Actor<'a>>,
    windows: &mut Vec<Window>,
) -> Mem<()>
    ensures actors { OnOk result (actors.new.items ≡ actors.old.items ++ actor.entry ∷ []) }
    ensures windows { OnOk result (windows.new.items ≡ windows.old.items ++ window ∷ []) }
{
    match windows.push(window) {
        Ok(()) => {}
        Err(_) => {
            end_one(rt, actor);
            return Err(OutOfMemory);
        }
    }
    match actors.push(actor) {
        Ok(()) => Ok(()),
        Err(AllocFailed { value }) => {
            end_one(rt, value);
            Err(OutOfMemory)
        }
    }
}

/// Opens a shelf for the finder of that number, which has worked nothing.
fn open_one<'a, R: Wait>(
    rt: &R,
    alloc: Global,
    problem: &'a Problem,
    plan: &Plan,
    number: u32,
    actors: &mut Vec<Actor<'a>>,
    windows: &mut Vec<Window>,
) -> Mem<()>
    requires plan { IsPlan plan.now }
    requires some { 1 ≤ number }
    requires few { number ≤ 8 }
    ensures actors { OnOk result (HasOne (IsOpened problem.now plan.now number) actors.old.items actors.new.items) }
    ensures windows { OnOk result (windows.new.items ≡ windows.old.items ++ new_window problem.now.symbols ∷ []) }
{
    let chooser = Chooser::new(alloc, problem, plan, number)?;
    let Shelf { press, window } = new_shelf(rt, alloc, problem.sig())?;
    let actor = Actor {
        finder: Finder::new(number, chooser, press),
        end: FinderEnd::Memory,
    };
    put(rt, actor, window, actors, windows)?;
    Ok(())
}

/// A finder and a window for each number. Where it is refused, some finders are there.
pub fn open_all<'a, R: Wait>(
    rt: &R,
    alloc: Global,
    problem: &'a Problem,
    plan: &Plan,
    actors: &mut Vec<Actor<'a>>,
    windows: &mut Vec<Window>,
) -> Mem<()>
    requires plan { IsPlan plan.now }
    requires empty { (actors.old.items ≡ []) × (windows.old.items ≡ []) }
    ensures many { OnOk result (length actors.new.items ≡ plan.now.finders) }
    ensures opened { OnOk result (AreOpened problem.now plan.now actors.new.items) }
    ensures alike { OnOk result (length windows.new.items ≡ plan.now.finders) }
    ensures new { OnOk result (All (λ (w : AWindow). w ≡ new_window problem.now.symbols) windows.new.items) }
{
    for made in 0..plan.finders {
        open_one(rt, alloc, problem, plan, made + 1, actors, windows)?;
    }
    Ok(())
}
