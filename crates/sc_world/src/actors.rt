//! Finders on threads of their own.

ghost use Rattle.std.specs.Prelude.{◌<◌, length};
ghost use Rattle.std.specs.List.{All, AllZip};
ghost use Rattle.sc_world.specs.Acting.{IsReady, Acted};

use sc_worker::{Finder, FinderEnd, Gate, Stop};
use std::alloc::Global;
use std::sync::Wait;
use std::sync::atomic::AtomicU64;
use std::thread::{Threads, for_each_mut};

/// A finder, and how it ended. It isn't `Drop`, as a finder isn't.
pub struct Actor<'a> {
    pub finder: Finder<'a>,
    pub end: FinderEnd,
}

/// All that the finder's thread does.
fn act<R: Wait, G: Gate>(rt: &R, alloc: Global, actor: &mut Actor<'_>, word: &AtomicU64, gate: &G)
    requires { IsReady actor.old }
    ensures { Acted actor.old actor.new }
{
    let mut halt = Stop::new(word);
    actor.end = actor.finder.work(rt, alloc, &mut halt, gate);
}

/// Each finder works on a thread of its own until it has ended; it stops before a candidate once the word is set, but works
/// its first.
pub fn run_finders<R: Threads + Wait + Sync, G: Gate>(
    rt: &R,
    alloc: Global,
    word: &AtomicU64,
    gate: &G,
    actors: &mut [Actor<'_>],
)
    requires some { 0 < length actors.old }
    requires ready { All IsReady actors.old }
    ensures { AllZip Acted actors.old actors.new }
{
    let threads = actors.len();
    for_each_mut(
        rt,
        actors,
        threads,
        &|_: usize, actor: &mut Actor<'_>|
            requires { IsReady actor.now }
            ensures { Acted actor.entry.now actor.exit.now }
        { act(rt, alloc, actor, word, gate) },
    );
}
