//! The prover's turns, each after a look at every shelf.

ghost use Rattle.std.specs.Prelude.{◌≡◌, ◌<◌, ◌≤◌, ◌+◌, ◌^◌, [], None, Some, All, IfOk, OnOk, get_or, length, slice_set, true};
ghost use Rattle.std.specs.List.{AllZip};
ghost use Rattle.sc_shelf.specs.Entries.{StartsWith};
ghost use Rattle.sc_shelf.specs.State.{WindowState as AWindow};
ghost use Rattle.sc_world.specs.Abreast.{IsLook, IsAbreast, IsTurnBeside, seen_of};

use crate::world::see_from;
use sc_core::Prover;
use sc_core_rules::Outcome;
use sc_interp::Version;
use sc_shelf::Window;
use sc_term::Mem;
use sc_worker::Gate;

/// One look at the shelf.
fn look_one(window: &mut Window) -> Mem<()>
    requires { length window.old.looks < 2 ^ 31 }
    ensures { OnOk result (IsLook window.old window.new) }
{
    window.look()
}

/// Looks at every shelf once.
fn look_all(windows: &mut [Window]) -> Mem<()>
    requires { All (λ (w : AWindow). length w.looks < 2 ^ 31) windows.old }
    ensures { OnOk result (AllZip IsLook windows.old windows.new) }
{
    for window in windows.iter_mut() {
        look_one(window)?;
    }
    Ok(())
}

/// The prover sees the others of these versions too, of whose list, from 0, it has seen the first.
fn see_others(prover: &mut Prover, place: usize, versions: &[Version]) -> Mem<()>
    requires there { place < length prover.old.seen }
    requires small { place < 8 }
    requires few { length versions.now ≤ 2 ^ 31 }
    requires begins { StartsWith versions.now (get_or prover.old.seen place []) }
    ensures { OnOk result (prover.new ≡ record prover.old { seen = slice_set prover.old.seen place versions.now }) }
{
    let from = prover.seen()[place].len();
    see_from(prover, place as u32 + 1, versions, from)
}

/// The prover sees all that its windows have seen. Where that is nothing new, nothing is copied.
pub fn catch_up(prover: &mut Prover, windows: &[Window]) -> Mem<()>
    requires grown { AllZip StartsWith (seen_of windows.now) prover.old.seen }
    requires small { length windows.now ≤ 8 }
    requires few { All (λ (w : AWindow). length w.seen ≤ 2 ^ 31) windows.now }
    ensures { OnOk result (prover.new ≡ record prover.old { seen = seen_of windows.now }) }
{
    for i in 0..windows.len() {
        see_others(prover, i, windows[i].seen().as_slice())?;
    }
    Ok(())
}

/// A look at every shelf, and a turn with what was seen.
fn look_and_turn(prover: &mut Prover, windows: &mut [Window]) -> Mem<()>
    requires whole { prover.old.whole ≡ true }
    requires going { prover.old.run.ended ≡ None }
    requires small { length windows.old ≤ 8 }
    requires room { All (λ (w : AWindow). length w.looks < 2 ^ 31) windows.old }
    requires sees { prover.old.seen ≡ seen_of windows.old }
    ensures { OnOk result (IsTurnBeside prover.old prover.new windows.old windows.new) }
{
    look_all(windows)?;
    catch_up(prover, windows)?;
    prover.turn()?;
    Ok(())
}

/// The number of the next turn, from 1.
fn next_turn(prover: &Prover) -> u64
    requires { length prover.now.run.given ≤ 1000000 }
    ensures { result ≡ length prover.now.run.given + 1 }
{
    prover.given().len() as u64 + 1
}

/// Turns until the run has ended, each after a look at every shelf; it ends at the latest when as many clauses were given
/// as may be. The prover passes point t of the gate before the looks of turn t.
pub fn run_turns<G: Gate>(prover: &mut Prover, windows: &mut [Window], gate: &G) -> Mem<Outcome>
    requires small { length windows.old ≤ 8 }
    requires abreast { IsAbreast prover.old.problem prover.old windows.old }
    ensures outcome { IfOk result (λ outcome. prover.new.run.ended ≡ Some outcome) }
    ensures abreast { OnOk result (IsAbreast prover.old.problem prover.new windows.new) }
{
    loop {
        match prover.outcome() {
            Some(outcome) => return Ok(outcome),
            None => {}
        }
        prover.keeps();
        gate.pass(0, next_turn(prover));
        look_and_turn(prover, windows)?;
    }
}
