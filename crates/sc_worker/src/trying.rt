//! Whether claims have a model, and its version.

ghost use Rattle.std.specs.Prelude.{◌≡◌, ◌≤◌, ◌<◌, ◌^◌, None, IfOk, OnOk, OnErr, length};
ghost use Rattle.sc_interp.specs.Structure.{IsStructure};
ghost use Rattle.sc_interp.specs.Versions.{AreTrue};
ghost use Rattle.sc_cells.specs.Cells.{cell_count};
ghost use Rattle.sc_find_laws.specs.Meaning.{IsOverSignature};
ghost use Rattle.sc_worker.specs.FinderList.{claimed_clauses, task_for, MayBeTried, version_with};
ghost use Rattle.sc_worker.specs.Present.{IsOneMore, IsKeptAfter};
ghost use Rattle.sc_worker.specs.Trying.{IsTried};

use crate::copies::{copy_claims, copy_clauses};
use crate::present::{from_present, keep};
use crate::worked::Skip;
use sc_find::{Found, Job, JobError, Piece, find_first};
use sc_find_laws::found_models_are_true;
use sc_input_rules::Problem;
use sc_interp::{Claim, ClaimError, Tables, Version};
use sc_term::{Clause, Mem, OutOfMemory};
use std::alloc::Global;

/// What became of claims: the version of their first model was found, or they were given up.
#[derive(Debug, Drop)]
pub enum Tried {
    Found(Version),
    GivenUp(Skip),
}

/// The tables with the claims, which are true in them.
pub fn version_of(alloc: Global, tables: Tables, claims: &[Claim]) -> Mem<Version>
    requires hold { AreTrue tables claims.now }
    requires few { length claims.now < 2 ^ 32 }
    ensures value { IfOk result (λ v. v ≡ version_with tables claims.now) }
    ensures structure { OnOk result (IsStructure tables) }
{
    // It tells what tables keep: an entry in range for each place.
    let _ = tables.size();
    let list = copy_claims(alloc, claims)?;
    match Version::make(alloc, tables, list) {
        Ok(version) => Ok(version),
        Err(ClaimError::False { .. }) => unreachable!(),
        Err(ClaimError::OutOfMemory) => Err(OutOfMemory),
    }
}

/// What becomes of the claims whose clauses are those of the job.
fn searched(alloc: Global, job: &Job, budget: u64, claims: &[Claim]) -> Mem<Tried>
    requires over { IsOverSignature job.now }
    requires clauses { job.now.clauses ≡ claimed_clauses claims.now }
    requires tried { MayBeTried job.now }
    requires few { length claims.now < 2 ^ 32 }
    ensures { IfOk result (IsTried job.now budget claims.now) }
{
    found_models_are_true();
    match find_first(alloc, job, Piece::Whole, budget)? {
        Found::Model(tables) => Ok(Tried::Found(version_of(alloc, tables, claims)?)),
        Found::None => Ok(Tried::GivenUp(Skip::NoModel)),
        Found::Spent => Ok(Tried::GivenUp(Skip::Spent)),
    }
}

/// What becomes of the claims at the size, of which there are not too many cells.
fn try_claims(
    alloc: Global,
    problem: &Problem,
    size: u8,
    budget: u64,
    claims: &[Claim],
) -> Mem<Tried>
    requires some { 1 ≤ size }
    requires small { size ≤ 8 }
    requires fits { cell_count problem.now.symbols size ≤ 4096 }
    requires over { IsOverSignature (task_for problem.now size claims.now) }
    requires few { length claims.now < 2 ^ 32 }
    ensures { IfOk result (IsTried (task_for problem.now size claims.now) budget claims.now) }
{
    let clauses = copy_clauses(alloc, claims)?;
    match Job::new(alloc, problem.sig(), &clauses, size) {
        Ok(job) => Ok(searched(alloc, &job, budget, claims)?),
        Err(JobError::Instances { .. }) => Ok(Tried::GivenUp(Skip::Instances)),
        Err(JobError::Cells { .. }) => unreachable!(),
        Err(JobError::OutOfMemory) => Err(OutOfMemory),
    }
}

/// Searches for the first model of the claims, and keeps a copy of its tables if there is one.
fn try_anew(
    alloc: Global,
    problem: &Problem,
    size: u8,
    budget: u64,
    claims: &[Claim],
    present: &mut Option<Tables>,
) -> Mem<Tried>
    requires some { 1 ≤ size }
    requires small { size ≤ 8 }
    requires fits { cell_count problem.now.symbols size ≤ 4096 }
    requires over { IsOverSignature (task_for problem.now size claims.now) }
    requires few { length claims.now < 2 ^ 32 }
    ensures tried { IfOk result (IsTried (task_for problem.now size claims.now) budget claims.now) }
    ensures kept { IfOk result (IsKeptAfter problem.now size claims.now present.old present.new) }
    ensures refused { OnErr result (present.new ≡ present.old) }
{
    let tried = try_claims(alloc, problem, size, budget, claims)?;
    keep(alloc, &tried, present)?;
    Ok(tried)
}

/// What becomes of the claims, of which the last, of this clause, is new: no search is made where the tables that are kept
/// make it true. Where memory is wanting, nothing changes.
pub fn try_next(
    alloc: Global,
    problem: &Problem,
    size: u8,
    budget: u64,
    claims: &[Claim],
    clause: &Clause,
    present: &mut Option<Tables>,
) -> Mem<Tried>
    requires some { 1 ≤ size }
    requires small { size ≤ 8 }
    requires fits { cell_count problem.now.symbols size ≤ 4096 }
    requires over { IsOverSignature (task_for problem.now size claims.now) }
    requires few { length claims.now < 2 ^ 32 }
    requires more { IsOneMore problem.now size claims.now clause.now present.old }
    ensures tried { IfOk result (IsTried (task_for problem.now size claims.now) budget claims.now) }
    ensures kept { IfOk result (IsKeptAfter problem.now size claims.now present.old present.new) }
    ensures refused { OnErr result (present.new ≡ present.old) }
{
    match from_present(alloc, problem, size, claims, clause, present)? {
        Some(version) => Ok(Tried::Found(version)),
        None => Ok(try_anew(alloc, problem, size, budget, claims, present)?),
    }
}
