//! The prover and the finders, side by side.

ghost use Rattle.std.specs.Prelude.{◌≡◌, ◌<◌, ◌≤◌, Some, IfOk, OnOk, length};
ghost use Rattle.std.specs.List.{All, AllZip};
ghost use Rattle.sc_world.specs.Abreast.{IsAbreast};
ghost use Rattle.sc_world.specs.Acting.{IsReady, Acted};

use crate::actors::{Actor, run_finders};
use crate::turns::run_turns;
use sc_core::Prover;
use sc_core_rules::Outcome;
use sc_shelf::Window;
use sc_term::Mem;
use sc_worker::Gate;
use std::alloc::Global;
use std::sync::Wait;
use std::sync::atomic::{AtomicU64, Ordering};
use std::thread::{Threads, join_mut};

/// The prover's turns; when they have ended, all finders are asked to stop.
fn turn_and_ask<G: Gate>(
    prover: &mut Prover,
    windows: &mut [Window],
    word: &AtomicU64,
    gate: &G,
) -> Mem<Outcome>
    requires small { length windows.old ≤ 8 }
    requires abreast { IsAbreast prover.old.problem prover.old windows.old }
    ensures outcome { IfOk result (λ outcome. prover.new.run.ended ≡ Some outcome) }
    ensures abreast { OnOk result (IsAbreast prover.old.problem prover.new windows.new) }
{
    let ended = run_turns(prover, windows, gate);
    word.store(1, Ordering::SeqCst);
    ended
}

/// The prover beside its finders, until all have ended. Where no thread can be made, the prover runs first.
pub fn run_side_by_side<R: Threads + Wait + Sync, G: Gate>(
    rt: &R,
    alloc: Global,
    prover: &mut Prover,
    windows: &mut [Window],
    actors: &mut [Actor<'_>],
    gate: &G,
) -> Mem<Outcome>
    requires small { length windows.old ≤ 8 }
    requires abreast { IsAbreast prover.old.problem prover.old windows.old }
    requires some { 0 < length actors.old }
    requires ready { All IsReady actors.old }
    ensures outcome { IfOk result (λ outcome. prover.new.run.ended ≡ Some outcome) }
    ensures abreast { OnOk result (IsAbreast prover.old.problem prover.new windows.new) }
    ensures acted { AllZip Acted actors.old actors.new }
{
    let word = AtomicU64::new(0);
    let (_, ended) = join_mut(
        rt,
        &mut ||
            requires { (0 < length actors.now) × All IsReady actors.now }
            ensures { AllZip Acted actors.entry.now actors.exit.now }
        { run_finders(rt, alloc, &word, gate, actors) },
        &mut || -> Mem<Outcome>
            requires { (length windows.now ≤ 8) × IsAbreast prover.now.problem prover.now windows.now }
            ensures outcome { IfOk result (λ outcome. prover.exit.now.run.ended ≡ Some outcome) }
            ensures abreast { OnOk result (IsAbreast prover.entry.now.problem prover.exit.now windows.exit.now) }
        { turn_and_ask(prover, windows, &word, gate) },
    );
    ended
}
