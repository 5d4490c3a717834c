//! Whether to stop.

ghost use Rattle.std.specs.Prelude.{◌≤◌, ℕ, IsTrue};
ghost use Rattle.sc_base.specs.Causes.{Rose};

use std::sync::atomic::{AtomicU64, Ordering};

/// What a finder asks whether it has to stop. Its count of requests never falls.
pub trait Halt {
    ghost requests: { Self → ℕ };

    /// True only where the count of requests rose in this call.
    fn asked(&mut self) -> bool
        ensures later { requests self.old ≤ requests self.new }
        ensures rose { IsTrue result → Rose (requests self.old) (requests self.new) };
}

/// Asks a word that another thread sets, once, to anything but 0. The count rises at each reading that finds it set.
#[derive(Drop)]
pub struct Stop<'a> {
    word: &'a AtomicU64,
    requests: u64,
}

impl<'a> Stop<'a> {
    pub fn new(word: &'a AtomicU64) -> Stop<'a> {
        Stop { word, requests: 0 }
    }
}

impl<'a> Halt for Stop<'a> {
    ghost requests = { λ s. s.requests };

    fn asked(&mut self) -> bool {
        if self.word.load(Ordering::SeqCst) == 0 {
            return false;
        }
        self.requests = self.requests.saturating_add(1);
        true
    }
}
