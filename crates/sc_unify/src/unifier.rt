//! Most general unifiers.

ghost use Rattle.std.specs.Prelude.{◌≡◌, ◌↔◌, ◌∷◌, [], MatchOption, IfOk};
ghost use Rattle.sc_term.specs.Substitution.{IsMostGeneralUnifier, Unify};
ghost use Rattle.sc_unify.specs.Equations.{equations, HasNoSolution, IsMostGeneralSolution};
ghost use Rattle.sc_unify.specs.Unifiers.{substitution, EquatesAtoms, EquatesPairs, HasNoUnifier};

use crate::equation::{Equation, equate};
use crate::solve::solve;
use crate::substitution::Subst;
use sc_term::{List, Literal, Mem, Pair};
use std::alloc::Global;

/// Adds the equations that make the two atoms equal, where their predicates and numbers of arguments are the same.
fn equate_atoms<'a>(a: &'a Literal, b: &'a Literal, todo: &mut Vec<Equation<'a>>) -> Mem<bool>
    ensures { IfOk result (λ can. EquatesAtoms can a.now b.now (equations todo.old.items) (equations todo.new.items)) }
{
    if a.pred != b.pred || a.args.len() != b.args.len() {
        return Ok(false);
    }
    equate(a.args.as_slice(), b.args.as_slice(), todo)?;
    Ok(true)
}

/// The equations that make the atoms of each pair equal, or None where the predicates or numbers of arguments of one
/// differ.
fn equate_pairs<'a>(alloc: Global, pairs: &'a [Pair]) -> Mem<Option<Vec<Equation<'a>>>>
    ensures { IfOk result (λ todo. MatchOption todo (HasNoUnifier pairs.now) (λ es. EquatesPairs pairs.now (equations es.items))) }
{
    let mut todo = Vec::new(alloc);
    for pair in pairs {
        if !equate_atoms(&pair.left, &pair.right, &mut todo)? {
            return Ok(None);
        }
    }
    Ok(Some(todo))
}

/// The most general solution of the equations, or None where they have no solution.
fn solution(alloc: Global, todo: Vec<Equation>) -> Mem<Option<Subst>>
    ensures { let es = equations todo.entry.items in
        IfOk result (λ found. MatchOption found (HasNoSolution es) (λ s. IsMostGeneralSolution es (substitution s))) }
{
    match solve(alloc, todo)? {
        Some(bound) => Ok(Some(Subst::of(alloc, bound.as_slice())?)),
        None => Ok(None),
    }
}

/// A most general unifier of all pairs at once, or None where they have no unifier.
pub fn unify_all(alloc: Global, pairs: &List<Pair>) -> Mem<Option<Subst>>
    ensures { IfOk result (λ found. MatchOption found (¬ Unify pairs.now) (λ s. IsMostGeneralUnifier pairs.now (substitution s))) }
{
    match equate_pairs(alloc, pairs.as_slice())? {
        Some(todo) => solution(alloc, todo),
        None => Ok(None),
    }
}

/// A most general unifier of the two atoms, whose signs don't count, or None where they have no unifier.
pub fn unify(alloc: Global, a: &Literal, b: &Literal) -> Mem<Option<Subst>>
    ensures { let pairs = record { left = a.now; right = b.now } ∷ [] in
        IfOk result (λ found. MatchOption found (¬ Unify pairs) (λ s. IsMostGeneralUnifier pairs (substitution s))) }
{
    let mut todo = Vec::new(alloc);
    if !equate_atoms(a, b, &mut todo)? {
        return Ok(None);
    }
    solution(alloc, todo)
}
