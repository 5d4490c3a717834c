//! The first redex of a clause. Nothing is listed: the walk ends at the redex, and its path is put together on the way
//! back.

ghost use Rattle.std.specs.Prelude.{◌≡◌, ◌<◌, ◌+◌, ◌^◌, [], sum, map, IfOk, MatchOption};
ghost use Rattle.sc_term.specs.Clause.{literal_weight};
ghost use Rattle.sc_term.specs.Path.{IsSubtermAt};
ghost use Rattle.sc_term.specs.Term.{term_weight};
ghost use Rattle.sc_demod.specs.Fitting.{IsFirstFit, FitsNone};
ghost use Rattle.sc_demod.specs.Finding.{IsWithin, FindsNone, Finds, FindsNoneIn, FindsIn};

use crate::fit::first_fit;
use sc_term::{List, Literal, Mem, Numbered, Term};
use std::alloc::Global;

/// A redex by its path, the first demodulator that fits it, by its place in the list, and the terms for its variables.
#[derive(Debug, Drop)]
pub struct Redex {
    pub path: Vec<u32>,
    pub place: usize,
    pub terms: List<Term>,
}

/// A literal, from 1, and its first redex.
#[derive(Debug, Drop)]
pub struct Found {
    pub literal: u32,
    pub redex: Redex,
}

/// The term itself as a redex, where a demodulator fits it.
fn find_here(alloc: Global, demods: &[Numbered], t: &Term) -> Mem<Option<Redex>>
    ensures { IfOk result (λ found. MatchOption found (FitsNone demods.now t.now) (λ r. (r.path.items ≡ []) × IsFirstFit demods.now t.now r.place r.terms)) }
{
    match first_fit(alloc, demods, t)? {
        Some(fit) => Ok(Some(Redex {
            path: Vec::new(alloc),
            place: fit.place,
            terms: fit.terms,
        })),
        None => Ok(None),
    }
}

/// The first redex of the term in post-order. It recurs as deep as the term is.
#[cycle(find)]
fn find_in_term(alloc: Global, demods: &[Numbered], t: &Term) -> Mem<Option<Redex>>
    requires { term_weight t.now < 2 ^ 32 }
    ensures { IfOk result (λ found. MatchOption found (FindsNone demods.now (IsWithin t.now)) (λ r. Finds demods.now (IsWithin t.now) r.path.items r.place r.terms)) }
{
    match t {
        Term::Var(_) => Ok(None),
        Term::App(_, args) => match find_in_terms(alloc, demods, args.as_slice())? {
            Some(inner) => Ok(Some(inner)),
            None => find_here(alloc, demods, t),
        },
    }
}

/// The first redex of the arguments in post-order.
#[cycle(find)]
fn find_in_terms(alloc: Global, demods: &[Numbered], args: &[Term]) -> Mem<Option<Redex>>
    requires { sum (map term_weight args.now) < 2 ^ 32 }
    ensures { IfOk result (λ found. MatchOption found (FindsNone demods.now (IsSubtermAt args.now)) (λ r. Finds demods.now (IsSubtermAt args.now) r.path.items r.place r.terms)) }
{
    for i in 0..args.len() {
        match find_in_term(alloc, demods, &args[i])? {
            Some(inner) => {
                let mut redex = inner;
                redex.path.insert(0, i as u32 + 1)?;
                return Ok(Some(redex));
            }
            None => {}
        }
    }
    Ok(None)
}

/// The first redex of the literals: in the first that has one, and there the first in post-order.
pub fn find(alloc: Global, demods: &[Numbered], literals: &[Literal]) -> Mem<Option<Found>>
    requires { sum (map literal_weight literals.now) < 2 ^ 32 }
    ensures { IfOk result (λ found. MatchOption found (FindsNoneIn demods.now literals.now) (λ f. FindsIn demods.now literals.now f.literal f.redex.path.items f.redex.place f.redex.terms)) }
{
    for i in 0..literals.len() {
        match find_in_terms(alloc, demods, literals[i].args.as_slice())? {
            Some(redex) => {
                let literal = i as u32 + 1;
                return Ok(Some(Found { literal, redex }));
            }
            None => {}
        }
    }
    Ok(None)
}
