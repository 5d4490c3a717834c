//! The gate of the rows whose words begin with `gated`: it holds an actor at its points until others have come to theirs.

use sc_top::Gate;
use std::hint;
use std::sync::atomic::{AtomicU64, Ordering};

/// How often a wait looks before it gives up, so that a run in which nobody comes still ends.
const LOOKS: u64 = 10_000_000;

/// An actor, a point of its own, and whom it awaits there: another actor, at a point of that one's. Actor 0 is the prover,
/// whose points are its turns; finder f is actor f, and its points are how many candidates it has worked.
const WAITS: [(u32, u64, u32, u64); 8] = [
    (1, 0, 0, 2),
    (0, 2, 1, 1),
    (1, 1, 0, 3),
    (0, 3, 1, 2),
    (1, 2, 0, 4),
    (2, 0, 0, 4),
    (0, 4, 1, 4),
    (0, 4, 2, 4),
];

/// How many points each of three actors has come to. Each comes to all of its points in turn.
#[derive(Drop)]
pub struct Gated {
    prover: AtomicU64,
    first: AtomicU64,
    second: AtomicU64,
}

impl Gated {
    pub fn new() -> Gated {
        Gated {
            prover: AtomicU64::new(0),
            first: AtomicU64::new(0),
            second: AtomicU64::new(0),
        }
    }

    /// One more than the last point that the actor has come to.
    fn come(&self, actor: u32) -> &AtomicU64 {
        match actor {
            0 => &self.prover,
            1 => &self.first,
            _ => &self.second,
        }
    }

    fn wait(&self, actor: u32, point: u64) {
        for _ in 0..LOOKS {
            if self.come(actor).load(Ordering::SeqCst) > point {
                break;
            }
            hint::spin_loop();
        }
    }
}

impl Gate for Gated {
    fn pass(&self, actor: u32, point: u64) {
        self.come(actor)
            .store(point.saturating_add(1), Ordering::SeqCst);
        for (waiting, at, awaited, until) in WAITS {
            if waiting == actor && at == point {
                self.wait(awaited, until);
            }
        }
    }
}
