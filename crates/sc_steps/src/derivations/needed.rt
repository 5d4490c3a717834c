//! The walk back from a goal over the clauses that derivations name.

ghost use Rattle.std.specs.Prelude.{◌≡◌, ℕ, ◌||◌, IfOk, OnOk};
ghost use Rattle.std.specs.Ordering.{nat_cmp};
ghost use Rattle.std.specs.BTreeSet.{contains};
ghost use Rattle.sc_term.specs.declared.Clause.{Clause as AClause};
ghost use Rattle.sc_term.specs.Numbering.{numbered};
ghost use Rattle.sc_steps.specs.Derivation.{all_clauses, derived_at, AreDerived};
ghost use Rattle.sc_steps.specs.Splice.{AreNeeded};
ghost use Rattle.sc_steps.specs.Walk.{names, names_of};

use crate::derivations::derivation::Derived;
use crate::derivations::named::{derived_at, named_by};
use sc_term::{Clause, Line, Mem};
use std::alloc::Global;
use std::collections::BTreeSet;

/// The clauses that the lines name join those that wait.
fn add_named(pending: &mut BTreeSet<u32>, lines: &[Line]) -> Mem<()>
    ensures { OnOk result ((m : ℕ) → contains nat_cmp pending.new m ≡ (contains nat_cmp pending.old m || names lines.now m)) }
{
    for line in lines {
        if let Some(n) = named_by(&line.step) {
            pending.insert(n)?;
        }
    }
    Ok(())
}

/// The clauses that the derivation of clause n names join those that wait.
fn add_named_of(
    pending: &mut BTreeSet<u32>,
    inputs: &[Clause],
    derived: &[Derived],
    n: u32,
) -> Mem<()>
    ensures { OnOk result ((m : ℕ) → contains nat_cmp pending.new m ≡ (contains nat_cmp pending.old m || names_of (derived_at inputs.now derived.now n) m)) }
{
    match derived_at(inputs, derived, n) {
        Some(d) => add_named(pending, d.lines.as_slice()),
        None => Ok(()),
    }
}

/// The numbers of the clauses that the goal needs, rising. Of those that wait the greatest is looked at next, so that
/// each is looked at once: a derivation names smaller numbers alone.
pub fn needed(alloc: Global, inputs: &[Clause], derived: &[Derived], goal: u32) -> Mem<Vec<u32>>
    requires goal { (c : AClause) × (numbered (all_clauses inputs.now derived.now) goal ≡ Some c) }
    requires derivations { AreDerived inputs.now derived.now }
    ensures { IfOk result (λ ns. AreNeeded inputs.now derived.now goal ns.items) }
{
    let mut pending = BTreeSet::new(alloc);
    pending.insert(goal)?;
    let mut found = Vec::new(alloc);
    while let Some(n) = pending.pop_last() {
        found.push(n)?;
        add_named_of(&mut pending, inputs, derived, n)?;
    }
    found.reverse();
    Ok(found)
}
