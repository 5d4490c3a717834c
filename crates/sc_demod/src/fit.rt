//! Which demodulator fits a term.

ghost use Rattle.std.specs.Prelude.{IfOk, MatchOption};
ghost use Rattle.sc_core_rules.specs.Rewriting.{Fits};
ghost use Rattle.sc_demod.specs.Fitting.{FitsBy, IsFirstFit, FitsNone};

use crate::equation::sides;
use sc_term::{List, Mem, Numbered, Term};
use sc_unify::{Bound, match_term_onto};
use std::alloc::Global;

/// The first demodulator that fits, by its place in the list, and the terms for its variables.
#[derive(Debug, Drop)]
pub struct Fit {
    pub place: usize,
    pub terms: List<Term>,
}

/// Terms for the demodulator's variables that make its left side the term, or None where it doesn't fit.
fn fit_one<'a>(
    alloc: Global,
    d: &Numbered,
    s: &'a Term,
    bound: &mut Vec<Bound<'a>>,
) -> Mem<Option<List<Term>>>
    ensures { IfOk result (λ found. MatchOption found (¬ Fits d.now s.now) (FitsBy d.now s.now)) }
{
    match sides(&d.clause) {
        Some((left, _)) => match_term_onto(alloc, left, s, bound),
        None => Ok(None),
    }
}

/// The first demodulator of the list that fits the term, or None where none does.
pub fn first_fit(alloc: Global, demods: &[Numbered], s: &Term) -> Mem<Option<Fit>>
    ensures { IfOk result (λ found. MatchOption found (FitsNone demods.now s.now) (λ f. IsFirstFit demods.now s.now f.place f.terms)) }
{
    let mut bound = Vec::new(alloc);
    for place in 0..demods.len() {
        match fit_one(alloc, &demods[place], s, &mut bound)? {
            Some(terms) => return Ok(Some(Fit { place, terms })),
            None => {}
        }
    }
    Ok(None)
}
