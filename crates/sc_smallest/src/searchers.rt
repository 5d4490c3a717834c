//! By whom a size is searched: on one thread, or by workers on threads of their own.

ghost use Rattle.std.specs.Prelude.{◌≤◌, ⊤, IfOk};
ghost use Rattle.std.specs.Thread.{IsSync};
ghost use Rattle.sc_find.specs.Answers.{AreFound};

use sc_find::{FoundAll, Job, find_by_pieces, find_parallel};
use sc_term::Mem;
use std::alloc::Global;
use std::thread::Threads;

/// Who searches the pieces of a job: what is found doesn't depend on it (`AreFound`).
pub trait Searchers {
    /// They can search.
    ghost ready: { Self → Type 0 };

    /// What the search over the pieces of the job finds, with the budget for each.
    fn search(&self, alloc: Global, job: &Job, budget: u64) -> Mem<FoundAll>
        requires { ready self.now }
        ensures { IfOk result (AreFound job.now budget) };
}

/// The thread that asks, which waits for nobody.
#[derive(Clone, Copy, Debug)]
pub struct Alone;

impl Searchers for Alone {
    ghost ready = { λ _. ⊤ };

    fn search(&self, alloc: Global, job: &Job, budget: u64) -> Mem<FoundAll> {
        Ok(find_by_pieces(alloc, job, budget)?)
    }
}

/// So many workers, each on a thread of its own where one can be made.
#[derive(Drop)]
pub struct Workers<'a, R> {
    pub rt: &'a R,
    pub count: u32,
}

impl<R: Threads + Sync> Searchers for Workers<'_, R> {
    ghost ready = { λ w. IsSync R.row × (1 ≤ w.count) };

    fn search(&self, alloc: Global, job: &Job, budget: u64) -> Mem<FoundAll> {
        Ok(find_parallel(self.rt, alloc, job, budget, self.count)?)
    }
}
