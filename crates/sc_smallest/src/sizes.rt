//! Sizes in order, up to the first that has an answer other than that there is no model.

ghost use Rattle.std.specs.Prelude.{◌≡◌, ◌≤◌, All, IfOk, IfErr, OnOk};
ghost use Rattle.sc_input_rules.specs.WellFormed.{IsOver};
ghost use Rattle.sc_find.specs.Answers.{AreFound};
ghost use Rattle.sc_smallest.specs.Smallest.{Fits, IsSmallest, IsCauseAt, IsTooWide, at_size};

use crate::answer::{Smallest, SmallestError};
use crate::searchers::{Alone, Searchers, Workers};
use sc_find::{FoundAll, Job, JobError};
use sc_term::{Clause, List, Mem, OutOfMemory, Signature};
use std::alloc::Global;
use std::thread::Threads;

/// The job of a size.
fn job_of<'a>(
    alloc: Global,
    sig: &'a Signature,
    clauses: &'a List<Clause>,
    size: u8,
) -> Result<Job<'a>, SmallestError>
    requires some { 1 ≤ size }
    requires few { size ≤ 8 }
    requires over { All (IsOver sig.now) clauses.now }
    ensures value { IfOk result (λ job. job ≡ at_size (record { sig = sig.now; clauses = clauses.now }) size) }
    ensures fits { OnOk result (Fits (record { sig = sig.now; clauses = clauses.now }) size) }
    ensures refused { IfErr result (IsCauseAt (record { sig = sig.now; clauses = clauses.now }) size) }
{
    match Job::new(alloc, sig, clauses, size) {
        Ok(job) => Ok(job),
        Err(JobError::Cells { count }) => Err(SmallestError::Cells { count }),
        Err(JobError::Instances { count }) => Err(SmallestError::Instances { count }),
        Err(JobError::OutOfMemory) => Err(SmallestError::OutOfMemory),
    }
}

/// What is found at a size.
fn find_at<W: Searchers>(
    searchers: &W,
    alloc: Global,
    sig: &Signature,
    clauses: &List<Clause>,
    size: u8,
    budget: u64,
) -> Result<FoundAll, SmallestError>
    requires ready { W.ready searchers.now }
    requires some { 1 ≤ size }
    requires few { size ≤ 8 }
    requires over { All (IsOver sig.now) clauses.now }
    ensures value { IfOk result (AreFound (at_size (record { sig = sig.now; clauses = clauses.now }) size) budget) }
    ensures fits { OnOk result (Fits (record { sig = sig.now; clauses = clauses.now }) size) }
    ensures refused { IfErr result (IsCauseAt (record { sig = sig.now; clauses = clauses.now }) size) }
{
    let job = job_of(alloc, sig, clauses, size)?;
    match searchers.search(alloc, &job, budget) {
        Ok(found) => Ok(found),
        Err(OutOfMemory) => Err(SmallestError::OutOfMemory),
    }
}

/// The first model of the smallest size from `from` to `to` that has one, with the budget for each piece of each size; that
/// none of them has one; or the size that was spent before one was found (`IsSmallest`). The first size of which the cells
/// are more than 4,096 or the instances more than 200,000 ends it with their count, where no smaller one has a model
/// (`IsTooWide`).
pub fn find_smallest_by<W: Searchers>(
    searchers: &W,
    alloc: Global,
    sig: &Signature,
    clauses: &List<Clause>,
    from: u8,
    to: u8,
    budget: u64,
) -> Result<Smallest, SmallestError>
    requires ready { W.ready searchers.now }
    requires some { 1 ≤ from }
    requires ordered { from ≤ to }
    requires few { to ≤ 8 }
    requires over { All (IsOver sig.now) clauses.now }
    ensures value { IfOk result (IsSmallest (record { sig = sig.now; clauses = clauses.now }) from to budget) }
    ensures refused { IfErr result (IsTooWide (record { sig = sig.now; clauses = clauses.now }) from to) }
{
    for size in from..to + 1 {
        match find_at(searchers, alloc, sig, clauses, size, budget)? {
            FoundAll::Model(tables) => return Ok(Smallest::Model(tables)),
            FoundAll::None => {}
            FoundAll::Spent { piece } => return Ok(Smallest::Spent { size, piece }),
        }
    }
    Ok(Smallest::None)
}

/// `find_smallest_by` on the thread that asks. Waits for nobody.
pub fn find_smallest_alone(
    alloc: Global,
    sig: &Signature,
    clauses: &List<Clause>,
    from: u8,
    to: u8,
    budget: u64,
) -> Result<Smallest, SmallestError>
    requires some { 1 ≤ from }
    requires ordered { from ≤ to }
    requires few { to ≤ 8 }
    requires over { All (IsOver sig.now) clauses.now }
    ensures value { IfOk result (IsSmallest (record { sig = sig.now; clauses = clauses.now }) from to budget) }
    ensures refused { IfErr result (IsTooWide (record { sig = sig.now; clauses = clauses.now }) from to) }
{
    find_smallest_by(&Alone, alloc, sig, clauses, from, to, budget)
}

/// `find_smallest_by` by so many workers, each of which searches a piece of a size at a time. Waits for them.
pub fn find_smallest<R: Threads + Sync>(
    rt: &R,
    alloc: Global,
    sig: &Signature,
    clauses: &List<Clause>,
    from: u8,
    to: u8,
    budget: u64,
    workers: u32,
) -> Result<Smallest, SmallestError>
    requires workers { 1 ≤ workers }
    requires some { 1 ≤ from }
    requires ordered { from ≤ to }
    requires few { to ≤ 8 }
    requires over { All (IsOver sig.now) clauses.now }
    ensures value { IfOk result (IsSmallest (record { sig = sig.now; clauses = clauses.now }) from to budget) }
    ensures refused { IfErr result (IsTooWide (record { sig = sig.now; clauses = clauses.now }) from to) }
{
    let workers = Workers { rt, count: workers };
    find_smallest_by(&workers, alloc, sig, clauses, from, to, budget)
}
