//! The ground instances of clauses, in order.

ghost use Rattle.std.specs.Prelude.{◌≡◌, ◌≤◌, ◌^◌, ◌++◌, min, IfOk, IfErr, OnOk};
ghost use Rattle.sc_term.specs.Clause.{width};
ghost use Rattle.sc_cells.specs.Ground.{AreInstances, instance_count, IsCauseOfGround};
ghost use Rattle.sc_cells.specs.Listing.{instance_with, instances_of, all_instances};

use crate::digits::digits_of;
use crate::instances::{Ground, GroundError, GroundInstance};
use sc_term::{Clause, List, MAX_INSTANCES, Mem, full_width};
use std::alloc::Global;

/// No more instances than this are counted.
const MOST_COUNTED: u64 = 1_000_000_000;

/// The number of assignments to so many variables, or a billion where that is less.
fn count_assignments(size: u8, wide: u64) -> u64
    requires { 1 ≤ size }
    ensures { result ≡ min (size ^ wide) 1000000000 }
{
    let mut count: u64 = 1;
    for _variable in 0..wide {
        count = (count * u64::from(size)).min(MOST_COUNTED);
    }
    count
}

/// The number of instances, or a billion where that is less.
fn count_instances(clauses: &[Clause], size: u8) -> u64
    requires { 1 ≤ size }
    ensures { result ≡ min (instance_count clauses.now size) 1000000000 }
{
    let mut count: u64 = 0;
    for clause in clauses {
        let more = count_assignments(size, full_width(clause));
        count = (count + more).min(MOST_COUNTED);
    }
    count
}

/// The instance whose elements are the digits of the number.
fn instance(alloc: Global, size: u8, place: u32, wide: u64, number: u32) -> Mem<GroundInstance>
    requires { 1 ≤ size }
    ensures { IfOk result (λ i. i ≡ instance_with size place wide number) }
{
    let values = digits_of(alloc, size, wide, number)?;
    Ok(GroundInstance { place, values })
}

/// Adds the instances of the clause at a place.
fn push_instances(
    alloc: Global,
    size: u8,
    place: u32,
    clause: &Clause,
    instances: &mut List<GroundInstance>,
) -> Mem<()>
    requires not_empty { 1 ≤ size }
    requires few { size ^ width clause.now ≤ 200000 }
    ensures { OnOk result (instances.new ≡ instances.old ++ instances_of size place clause.now) }
{
    let wide = full_width(clause);
    let count = count_assignments(size, wide) as u32;
    for number in 0..count {
        instances.push(instance(alloc, size, place, wide, number)?)?;
    }
    Ok(())
}

fn list_instances(alloc: Global, clauses: &[Clause], size: u8) -> Mem<List<GroundInstance>>
    requires not_empty { 1 ≤ size }
    requires few { instance_count clauses.now size ≤ 200000 }
    ensures { IfOk result (λ is. is ≡ all_instances clauses.now size) }
{
    let mut instances = List::new(alloc);
    for place in 0..clauses.len() {
        push_instances(alloc, size, place as u32, &clauses[place], &mut instances)?;
    }
    Ok(instances)
}

/// The instances of the clauses over the elements of a size of 1 to 8: in order of the clauses, and those of a clause in
/// rising order of the elements, variable 0 first (`AreInstances`). `TooWide` comes exactly where there are more than
/// 200,000, and tells how many, or a billion where there are more. They are counted before any is made.
pub fn ground(alloc: Global, clauses: &List<Clause>, size: u8) -> Result<Ground, GroundError>
    requires not_empty { 1 ≤ size }
    requires small { size ≤ 8 }
    ensures value { IfOk result (AreInstances clauses.now size) }
    ensures within { OnOk result (instance_count clauses.now size ≤ 200000) }
    ensures refused { IfErr result (IsCauseOfGround (instance_count clauses.now size)) }
{
    let count = count_instances(clauses.as_slice(), size);
    if count > MAX_INSTANCES {
        return Err(GroundError::TooWide { count });
    }
    match list_instances(alloc, clauses.as_slice(), size) {
        Ok(instances) => Ok(Ground { instances }),
        Err(_) => Err(GroundError::OutOfMemory),
    }
}
