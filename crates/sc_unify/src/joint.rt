//! The terms that take parents to their parts of a joint instance.

ghost use Rattle.std.specs.Prelude.{◌≡◌, ◌↔◌, ◌<◌, ◌≤◌, ◌+◌, ◌-◌, ◌^◌, ℕ, List as AList, [], map, sum, IfOk, IfSome, IsSome, OnOk};
ghost use Rattle.sc_term.specs.declared.Clause.{Clause as AClause};
ghost use Rattle.sc_term.specs.declared.Pair.{Pair as APair};
ghost use Rattle.sc_term.specs.Term.{joined, largest, term_under};
ghost use Rattle.sc_term.specs.Clause.{IsWithinLimits, literal_depth, literal_weight, variables, width};
ghost use Rattle.sc_term.specs.Substitution.{IsMostGeneralUnifier, clause_under, literal_under};
ghost use Rattle.sc_term.specs.JointInstance.{IsJointInstance, apart, whole};
ghost use Rattle.sc_term.specs.Occurrence.{noted};
ghost use Rattle.sc_unify.specs.Bindings.{bindings, AreSolved, finished};
ghost use Rattle.sc_unify.specs.Joint.{value_at, values, values_above, AreTermsOf};
ghost use Rattle.sc_unify.specs.Limits.{Spends};
ghost use Rattle.sc_unify.specs.Unifiers.{substitution};

use crate::bound::{Bound, find};
use crate::limits::spend_literals;
use crate::substitution::Subst;
use crate::write::{write_clause, write_term};
use sc_term::{Clause, List, MAX_WEIGHT, Mem, Term, note_variables, renumber_term, width};
use std::alloc::Global;

/// What is left of a weight after what the bindings make of the clauses, or None where they weigh more or one is
/// deeper than the limit.
fn spend_clauses<'a>(bound: &[Bound<'a>], clauses: &'a [Clause], weight: u32) -> Option<u32>
    requires { AreSolved (bindings bound.now) }
    ensures { let made = whole (map (clause_under (finished (bindings bound.now))) clauses.now) in
        Spends weight 256 (sum (map literal_weight made.literals)) (largest (map literal_depth made.literals)) result }
{
    let mut left = weight;
    for c in clauses {
        match spend_literals(bound, c.literals.as_slice(), left) {
            Some(rest) => left = rest,
            None => return None,
        }
    }
    Some(left)
}

/// The variables of what the bindings make of the clauses, in the order in which they first occur.
fn order_of<'a>(alloc: Global, bound: &[Bound<'a>], clauses: &'a [Clause]) -> Mem<Vec<u32>>
    requires { AreSolved (bindings bound.now) }
    ensures { IfOk result (λ order. order.items ≡ noted [] (joined (map variables (map (clause_under (finished (bindings bound.now))) clauses.now)))) }
{
    let mut order = Vec::new(alloc);
    for c in clauses {
        let made = write_clause(alloc, bound, c)?;
        note_variables(&made, &mut order)?;
    }
    Ok(order)
}

/// What the bindings make of the variable.
fn write_variable<'a>(alloc: Global, bound: &[Bound<'a>], variable: u32) -> Mem<Term>
    requires { AreSolved (bindings bound.now) }
    ensures { IfOk result (λ t. t ≡ finished (bindings bound.now) variable) }
{
    match find(bound, variable) {
        Some(term) => write_term(alloc, bound, term),
        None => Ok(Term::Var(variable)),
    }
}

/// What the bindings make of the variable, with its variables numbered by the order.
fn value<'a>(alloc: Global, bound: &[Bound<'a>], order: &[u32], variable: u32) -> Mem<Term>
    requires { AreSolved (bindings bound.now) }
    ensures { IfOk result (λ t. t ≡ value_at (bindings bound.now) order.now variable) }
{
    let made = write_variable(alloc, bound, variable)?;
    renumber_term(alloc, &made, order)
}

/// The values of as many variables as the count, from the first.
fn values<'a>(
    alloc: Global,
    bound: &[Bound<'a>],
    order: &[u32],
    first: u32,
    count: u32,
) -> Mem<List<Term>>
    requires solved { AreSolved (bindings bound.now) }
    requires small { first + count < 2 ^ 32 }
    ensures { IfOk result (λ terms. terms ≡ values (value_at (bindings bound.now) order.now) first count) }
{
    let mut terms = List::new(alloc);
    for n in 0..count {
        terms.push(value(alloc, bound, order, first + n)?)?;
    }
    Ok(terms)
}

/// For each clause the values of its variables that are above those of the clauses before it.
fn values_of<'a>(
    alloc: Global,
    bound: &[Bound<'a>],
    order: &[u32],
    clauses: &[Clause],
) -> Mem<List<List<Term>>>
    requires solved { AreSolved (bindings bound.now) }
    requires small { largest (map width clauses.now) < 2 ^ 31 }
    ensures { IfOk result (λ told. told ≡ values_above (value_at (bindings bound.now) order.now) 0 clauses.now) }
{
    let mut low: u32 = 0;
    let mut told = List::new(alloc);
    for c in clauses {
        let count = width(c).saturating_sub(low);
        told.push(values(alloc, bound, order, low, count)?)?;
        low += count;
    }
    Ok(told)
}

/// For each parent the terms that take its own clause, from which it was shifted, to its part of the joint instance,
/// or None where the joint instance is outside the limits.
pub fn joint_terms(
    alloc: Global,
    s: &Subst,
    parents: &List<Clause>,
) -> Mem<Option<List<List<Term>>>>
    requires { largest (map width parents.now) < 2 ^ 31 }
    ensures parts { (own : AList AClause) (pairs : AList APair) (parts : AList AClause) → parents.now ≡ apart own
        → IsMostGeneralUnifier pairs (substitution s.now) → IsJointInstance own pairs parts
        → IfOk result (λ told. IfSome told (λ terms. AreTermsOf own terms parts)) }
    ensures limits { (own : AList AClause) (pairs : AList APair) (parts : AList AClause) → parents.now ≡ apart own
        → IsMostGeneralUnifier pairs (substitution s.now) → IsJointInstance own pairs parts
        → IfOk result (λ told. IsSome told ↔ IsWithinLimits (whole parts)) }
{
    let bound = s.bindings(alloc)?;
    let parents = parents.as_slice();
    match spend_clauses(bound.as_slice(), parents, MAX_WEIGHT) {
        Some(_) => {
            let order = order_of(alloc, bound.as_slice(), parents)?;
            let told = values_of(alloc, bound.as_slice(), order.as_slice(), parents)?;
            Ok(Some(told))
        }
        None => Ok(None),
    }
}
