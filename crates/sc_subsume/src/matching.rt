//! Matching: bindings that make one literal another, whose variables stay as they are.

ghost use Rattle.std.specs.Prelude.{◌≡◌, ◌≢◌, ◌∷◌, ◌≤◌, [], length, map, IfOk, MatchOption};
ghost use Rattle.sc_term.specs.Term.{joined, term_under, term_variables};
ghost use Rattle.sc_unify.specs.Matching.{Matches};
ghost use Rattle.sc_subsume.specs.Search.{bindings, Extends, Takes, HasNoPlace, IsFirstPlace};

use crate::bound::{Bound, find};
use crate::like::are_like;
use sc_term::{Literal, Mem, Term, same_term};

/// Gives the variable the term, unless it has another one. Whether it can.
fn match_variable<'a>(n: u32, target: &'a Term, bound: &mut Vec<Bound<'a>>) -> Mem<bool>
    ensures same { IfOk result (λ can. Matches can (bindings bound.old.items) (bindings bound.new.items)
        (λ s. s n ≡ target.now) (n ∷ [])) }
    ensures extends { IfOk result (λ can. Extends bound.old.items bound.new.items) }
{
    match find(bound.as_slice(), n) {
        Some(term) => Ok(same_term(term, target)),
        None => {
            bound.push(Bound {
                variable: n,
                term: target,
            })?;
            Ok(true)
        }
    }
}

/// Gives variables of the pattern terms that make it the target. Whether there are any.
#[cycle(matching)]
fn match_term<'a>(pattern: &Term, target: &'a Term, bound: &mut Vec<Bound<'a>>) -> Mem<bool>
    ensures same { IfOk result (λ can. Matches can (bindings bound.old.items) (bindings bound.new.items)
        (λ s. term_under s pattern.now ≡ target.now) (term_variables pattern.now)) }
    ensures extends { IfOk result (λ can. Extends bound.old.items bound.new.items) }
{
    match (pattern, target) {
        (Term::Var(n), _) => match_variable(*n, target, bound),
        (Term::App(f, patterns), Term::App(g, targets)) => {
            if f != g {
                return Ok(false);
            }
            match_terms(patterns.as_slice(), targets.as_slice(), bound)
        }
        (Term::App(_, _), Term::Var(_)) => Ok(false),
    }
}

#[cycle(matching)]
fn match_terms<'a>(patterns: &[Term], targets: &'a [Term], bound: &mut Vec<Bound<'a>>) -> Mem<bool>
    ensures same { IfOk result (λ can. Matches can (bindings bound.old.items) (bindings bound.new.items)
        (λ s. map (term_under s) patterns.now ≡ targets.now) (joined (map term_variables patterns.now))) }
    ensures extends { IfOk result (λ can. Extends bound.old.items bound.new.items) }
{
    if patterns.len() != targets.len() {
        return Ok(false);
    }
    for i in 0..patterns.len() {
        if !match_term(&patterns[i], &targets[i], bound)? {
            return Ok(false);
        }
    }
    Ok(true)
}

/// Gives variables of the pattern terms that make it the target, sign and all. Whether there are any; where there are
/// none the bindings are as they were.
pub fn match_literal<'a>(
    pattern: &Literal,
    target: &'a Literal,
    bound: &mut Vec<Bound<'a>>,
) -> Mem<bool>
    ensures { IfOk result (λ can. Takes can pattern.now target.now bound.old.items bound.new.items) }
{
    if !are_like(pattern, target) {
        return Ok(false);
    }
    let before = bound.len();
    if match_terms(pattern.args.as_slice(), target.args.as_slice(), bound)? {
        return Ok(true);
    }
    bound.truncate(before);
    Ok(false)
}

/// The first place from `first` on whose literal the pattern can be made, which gives variables terms, or None where
/// there is no such place.
pub fn next_place<'a>(
    pattern: &Literal,
    targets: &'a [Literal],
    first: usize,
    bound: &mut Vec<Bound<'a>>,
) -> Mem<Option<usize>>
    requires { first ≤ length targets.now }
    ensures { IfOk result (λ found. MatchOption found (HasNoPlace pattern.now targets.now first bound.old.items bound.new.items)
        (λ place. IsFirstPlace pattern.now targets.now first place bound.old.items bound.new.items)) }
{
    for place in first..targets.len() {
        if match_literal(pattern, &targets[place], bound)? {
            return Ok(Some(place));
        }
    }
    Ok(None)
}
