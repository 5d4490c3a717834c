//! Parts of parents in their joint instance.

ghost use Rattle.std.specs.Prelude.{◌≡◌, ◌<◌, ◌≤◌, ◌∷◌, [], List as AList, length, IfOk, IsSomeAnd, MatchOption};
ghost use Rattle.sc_term.specs.declared.Term.{Term as ATerm};
ghost use Rattle.sc_term.specs.declared.Clause.{Clause as AClause};
ghost use Rattle.sc_term.specs.JointInstance.{shift};
ghost use Rattle.sc_term.specs.Clause.{width, instance, IsWithinLimits};
ghost use Rattle.sc_term.specs.Substitution.{Unify};
ghost use Rattle.sc_resolve.specs.Literals.{pair_of};
ghost use Rattle.sc_resolve.specs.Parts.{IsOutside, AreTermsOfOne, AreTermsOfTwo};

use sc_term::{Clause, List, Literal, Mem, Term, copy, instance};
use sc_unify::{joint_terms, unify};
use std::alloc::Global;

/// A clause with the terms that make it of its parent.
#[derive(Drop)]
pub struct Part {
    pub terms: List<Term>,
    pub clause: Clause,
}

/// What the terms make of the clause, or None where that is outside the limits.
pub fn part_of(alloc: Global, c: &Clause, terms: List<Term>) -> Mem<Option<Part>>
    requires { length terms ≡ width c.now }
    ensures { IfOk result (λ found. MatchOption found (¬ IsWithinLimits (instance terms c.now)) (λ p. (p.terms ≡ terms) × (p.clause ≡ instance terms c.now))) }
{
    match instance(alloc, c, &terms)? {
        Some(clause) => Ok(Some(Part { terms, clause })),
        None => Ok(None),
    }
}

/// The terms that take the clause to its part of the joint instance in which the two atoms of it become equal, or None
/// where that is outside the limits.
pub fn joint_one(alloc: Global, c: &Clause, l: &Literal, m: &Literal) -> Mem<Option<List<Term>>>
    requires narrow { width c.now ≤ 10000 }
    requires unify { Unify (pair_of l.now m.now) }
    ensures { IfOk result (λ found. MatchOption found (IsOutside (c.now ∷ []) (pair_of l.now m.now)) (λ terms. AreTermsOfOne c.now (pair_of l.now m.now) terms)) }
{
    let s = match unify(alloc, l, m)? {
        Some(s) => s,
        None => return Ok(None),
    };
    let mut parents = List::new(alloc);
    parents.push(copy(alloc, c)?)?;
    match joint_terms(alloc, &s, &parents)? {
        Some(mut told) => Ok(told.pop()),
        None => Ok(None),
    }
}

/// The terms for two parents.
#[derive(Drop)]
pub struct Both {
    pub left: List<Term>,
    pub right: List<Term>,
}

/// The last two of the rows.
fn both_of(rows: List<List<Term>>) -> Option<Both>
    ensures { (left right : AList ATerm) → rows ≡ left ∷ right ∷ [] → IsSomeAnd result (λ b. (b.left ≡ left) × (b.right ≡ right)) }
{
    let mut rest = rows;
    let right = rest.pop()?;
    let left = rest.pop()?;
    Some(Both { left, right })
}

/// The terms that take the clause, and the one from which `apart` was shifted, to their parts of the joint instance in
/// which the atoms of l and m become equal, or None where that is outside the limits.
pub fn joint_two(
    alloc: Global,
    c: &Clause,
    apart: &Clause,
    l: &Literal,
    m: &Literal,
) -> Mem<Option<Both>>
    requires narrow { width c.now ≤ 10000 }
    requires narrow_apart { width apart.now ≤ 20000 }
    requires unify { Unify (pair_of l.now m.now) }
    ensures { (own : AClause) → apart.now ≡ shift (width c.now) own
        → IfOk result (λ found. MatchOption found (IsOutside (c.now ∷ own ∷ []) (pair_of l.now m.now)) (λ b. AreTermsOfTwo c.now own (pair_of l.now m.now) b.left b.right)) }
{
    let s = match unify(alloc, l, m)? {
        Some(s) => s,
        None => return Ok(None),
    };
    let mut parents = List::new(alloc);
    parents.push(copy(alloc, c)?)?;
    parents.push(copy(alloc, apart)?)?;
    match joint_terms(alloc, &s, &parents)? {
        Some(told) => Ok(both_of(told)),
        None => Ok(None),
    }
}
