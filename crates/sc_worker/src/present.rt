//! The tables of the last version that was published: where they make the next candidate true, they serve again.

ghost use Rattle.std.specs.Prelude.{◌≡◌, ◌≤◌, ◌<◌, ◌^◌, min, IsTrue, IfOk, OnOk, OnErr, IfSome, Some, length};
ghost use Rattle.sc_term.specs.Clause.{width};
ghost use Rattle.sc_interp.specs.Structure.{Satisfies};
ghost use Rattle.sc_cells.specs.Ground.{instance_count};
ghost use Rattle.sc_find_laws.specs.Meaning.{IsOverSignature};
ghost use Rattle.sc_worker.specs.FinderList.{claimed_clauses, task_for};
ghost use Rattle.sc_worker.specs.Present.{IsPresent, IsOneMore, tables_after};
ghost use Rattle.sc_worker.specs.Trying.{IsFirstVersion};

use crate::trying::{Tried, version_of};
use sc_find_laws::found_models_are_true;
use sc_input_rules::Problem;
use sc_interp::{Claim, Tables, Truth, Version, mark_of};
use sc_term::{Clause, Mem, full_width};
use std::alloc::Global;

/// No more instances than this are tried.
const MOST_INSTANCES: u32 = 200_000;

/// The number of assignments to so many variables, or one above the most instances where there are more.
fn count_assignments(size: u8, wide: u64) -> u32
    requires { 1 ≤ size }
    ensures { result ≡ min (size ^ wide) 200001 }
{
    let mut count: u32 = 1;
    for _variable in 0..wide {
        count = (count * u32::from(size)).min(MOST_INSTANCES + 1);
    }
    count
}

/// The number of instances of the claims, or one above the most where there are more.
fn count_instances(size: u8, claims: &[Claim]) -> u32
    requires { 1 ≤ size }
    ensures { result ≡ min (instance_count (claimed_clauses claims.now) size) 200001 }
{
    let mut count: u32 = 0;
    for claim in claims {
        let more = count_assignments(size, full_width(&claim.clause));
        count = (count + more).min(MOST_INSTANCES + 1);
    }
    count
}

/// Whether the claims have few enough instances.
fn may_be_tried(size: u8, claims: &[Claim]) -> bool
    requires { 1 ≤ size }
    ensures { IsTrue result → instance_count (claimed_clauses claims.now) size ≤ 200000 }
{
    count_instances(size, claims) <= MOST_INSTANCES
}

/// Whether the clause is true in the tables, which isn't tried where it has too many assignments.
fn is_true_in(alloc: Global, tables: &Tables, clause: &Clause) -> Mem<bool>
    ensures { IfOk result (λ holds. IsTrue holds → Satisfies tables.now clause.now) }
{
    match mark_of(alloc, tables, clause)? {
        Truth::True => Ok(true),
        Truth::False => Ok(false),
        Truth::Wide => Ok(false),
    }
}

/// The version of the tables with the claims, of which only the last one, of this clause, may be false in them; None where
/// it is, or where the claims have to be searched.
fn with_tables(
    alloc: Global,
    problem: &Problem,
    size: u8,
    claims: &[Claim],
    clause: &Clause,
    tables: &Tables,
) -> Mem<Option<Version>>
    requires some { 1 ≤ size }
    requires over { IsOverSignature (task_for problem.now size claims.now) }
    requires few { length claims.now < 2 ^ 32 }
    requires more { IsOneMore problem.now size claims.now clause.now (Some tables.now) }
    ensures kept { IfOk result (λ found. IfSome found (λ version. IsPresent problem.now size claims.now (Some tables.now))) }
    ensures version { IfOk result (λ found. IfSome found (IsFirstVersion (task_for problem.now size claims.now) claims.now)) }
{
    if !may_be_tried(size, claims) {
        return Ok(None);
    }
    if !is_true_in(alloc, tables, clause)? {
        return Ok(None);
    }
    found_models_are_true();
    let copied = tables.copy(alloc)?;
    let version = version_of(alloc, copied, claims)?;
    Ok(Some(version))
}

/// The version of the claims with the tables that are kept, where these make the last claim, of this clause, true; None where
/// none are kept or the claims have to be searched.
pub fn from_present(
    alloc: Global,
    problem: &Problem,
    size: u8,
    claims: &[Claim],
    clause: &Clause,
    present: &Option<Tables>,
) -> Mem<Option<Version>>
    requires some { 1 ≤ size }
    requires over { IsOverSignature (task_for problem.now size claims.now) }
    requires few { length claims.now < 2 ^ 32 }
    requires more { IsOneMore problem.now size claims.now clause.now present.now }
    ensures kept { IfOk result (λ found. IfSome found (λ version. IsPresent problem.now size claims.now present.now)) }
    ensures version { IfOk result (λ found. IfSome found (IsFirstVersion (task_for problem.now size claims.now) claims.now)) }
{
    match present {
        Some(tables) => Ok(with_tables(alloc, problem, size, claims, clause, tables)?),
        None => Ok(None),
    }
}

/// A copy of the version's tables is kept, if one was found. Where memory is wanting, nothing changes.
pub fn keep(alloc: Global, tried: &Tried, present: &mut Option<Tables>) -> Mem<()>
    ensures kept { OnOk result (present.new ≡ tables_after tried.now present.old) }
    ensures refused { OnErr result (present.new ≡ present.old) }
{
    match tried {
        Tried::Found(version) => {
            let copied = version.tables().copy(alloc)?;
            *present = Some(copied);
            Ok(())
        }
        Tried::GivenUp(_) => Ok(()),
    }
}
