//! Matching: terms for the variables of one atom that make it another, whose variables stay as they are.

ghost use Rattle.std.specs.Prelude.{◌≡◌, ◌∷◌, [], map, IfOk, MatchOption};
ghost use Rattle.std.specs.Option.{option_copied, unwrap_or};
ghost use Rattle.sc_term.specs.declared.Term.{Var};
ghost use Rattle.sc_term.specs.Term.{joined, term_under, term_variables};
ghost use Rattle.sc_unify.specs.Bindings.{bindings, lookup};
ghost use Rattle.sc_unify.specs.Matching.{Matches, filled, IsMatch, HasNoMatch};

use crate::bound::{Bound, find};
use sc_term::{List, Literal, Mem, Term, copy_term, same_term, terms_width};
use std::alloc::Global;

/// Gives the variable the term, unless it has another one. Whether it can.
fn match_variable<'a>(n: u32, target: &'a Term, bound: &mut Vec<Bound<'a>>) -> Mem<bool>
    ensures { IfOk result (λ can. Matches can (bindings bound.old.items) (bindings bound.new.items)
        (λ s. s n ≡ target.now) (n ∷ [])) }
{
    match find(bound.as_slice(), n) {
        Some(term) => Ok(same_term(term, target)),
        None => {
            bound.push(Bound {
                variable: n,
                term: target,
            })?;
            Ok(true)
        }
    }
}

/// Gives variables of the pattern terms that make it the target. Whether there are any.
#[cycle(matching)]
pub fn match_term<'a>(pattern: &Term, target: &'a Term, bound: &mut Vec<Bound<'a>>) -> Mem<bool>
    ensures { IfOk result (λ can. Matches can (bindings bound.old.items) (bindings bound.new.items)
        (λ s. term_under s pattern.now ≡ target.now) (term_variables pattern.now)) }
{
    match (pattern, target) {
        (Term::Var(n), _) => match_variable(*n, target, bound),
        (Term::App(f, patterns), Term::App(g, targets)) => {
            if f != g {
                return Ok(false);
            }
            match_terms(patterns.as_slice(), targets.as_slice(), bound)
        }
        (Term::App(_, _), Term::Var(_)) => Ok(false),
    }
}

#[cycle(matching)]
fn match_terms<'a>(patterns: &[Term], targets: &'a [Term], bound: &mut Vec<Bound<'a>>) -> Mem<bool>
    ensures { IfOk result (λ can. Matches can (bindings bound.old.items) (bindings bound.new.items)
        (λ s. map (term_under s) patterns.now ≡ targets.now) (joined (map term_variables patterns.now))) }
{
    if patterns.len() != targets.len() {
        return Ok(false);
    }
    for i in 0..patterns.len() {
        if !match_term(&patterns[i], &targets[i], bound)? {
            return Ok(false);
        }
    }
    Ok(true)
}

/// The term that the variable was given.
fn term_for<'a>(bound: &[Bound<'a>], variable: u64) -> Option<&'a Term>
    ensures { option_copied result ≡ lookup (bindings bound.now) variable }
{
    for one in bound {
        if u64::from(one.variable) == variable {
            return Some(one.term);
        }
    }
    None
}

/// The term that the variable was given, or variable 0.
fn filling(alloc: Global, bound: &[Bound], variable: u64) -> Mem<Term>
    ensures { IfOk result (λ t. t ≡ unwrap_or (lookup (bindings bound.now) variable) (Var 0)) }
{
    match term_for(bound, variable) {
        Some(term) => copy_term(alloc, term),
        None => Ok(Term::Var(0)),
    }
}

/// The terms of the variables below the width, variable 0 for one that was given none.
pub fn fill(alloc: Global, bound: &[Bound], width: u64) -> Mem<List<Term>>
    ensures { IfOk result (λ terms. terms ≡ filled (bindings bound.now) width) }
{
    let mut terms = List::new(alloc);
    for n in 0..width {
        terms.push(filling(alloc, bound, n)?)?;
    }
    Ok(terms)
}

/// Terms for the pattern's variables that make its atom the target's, or None where there are none. A variable below
/// the width that doesn't occur gets variable 0. Signs don't count.
pub fn match_onto(alloc: Global, pattern: &Literal, target: &Literal) -> Mem<Option<List<Term>>>
    ensures { IfOk result (λ found. MatchOption found (HasNoMatch pattern.now target.now) (λ terms. IsMatch pattern.now target.now terms)) }
{
    if pattern.pred != target.pred {
        return Ok(None);
    }
    let mut bound = Vec::new(alloc);
    if !match_terms(pattern.args.as_slice(), target.args.as_slice(), &mut bound)? {
        return Ok(None);
    }
    let width = terms_width(pattern.args.as_slice());
    Ok(Some(fill(alloc, bound.as_slice(), width)?))
}
