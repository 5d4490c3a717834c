//! The canonical form of a conclusion, with the line of it.

ghost use Rattle.std.specs.Prelude.{◌≡◌, ◌↔◌, ◌<◌, ◌≤◌, ◌^◌, IsTrue, IfOk, OnOk, IsSomeAnd, MatchOption, length};
ghost use Rattle.sc_term.specs.Clause.{counting_from, firsts, variables, weight, IsCanonical, IsWithinLimits};
ghost use Rattle.sc_steps.specs.Derivation.{last_clause};
ghost use Rattle.sc_core_rules.specs.Derivation.{EndsCanonical};
ghost use Rattle.sc_keep.specs.Canonical.{place_or_first, place_terms, IsCanonicalLine};

use sc_term::{Clause, Line, List, Mem, Step, Term, canonical, full_width, note_variables};
use std::alloc::Global;

/// The place of the number, or 0 where it isn't there.
fn place_of(order: &[u32], n: usize) -> u32
    requires { length order.now ≤ 10000 }
    ensures { result ≡ place_or_first order.now n }
{
    for at in 0..order.len() {
        if order[at] as usize == n {
            return at as u32;
        }
    }
    0
}

/// As many variables as the count, each with its place in the order as its number, and 0 for one without a place.
fn places(alloc: Global, order: &[u32], count: usize) -> Mem<List<Term>>
    requires { length order.now ≤ 10000 }
    ensures { IfOk result (λ terms. terms ≡ place_terms order.now count) }
{
    let mut terms = List::new(alloc);
    for n in 0..count {
        terms.push(Term::Var(place_of(order, n)))?;
    }
    Ok(terms)
}

/// Whether the numbers are 0, 1, 2 and so on.
fn is_counting(order: &[u32]) -> bool
    ensures { IsTrue result ↔ (order.now ≡ counting_from 0 order.now) }
{
    for at in 0..order.len() {
        if order[at] as usize != at {
            return false;
        }
    }
    true
}

/// The line by which a clause with variables in this order, that of line `of`, becomes canonical.
fn canonical_line(alloc: Global, c: &Clause, order: &[u32], of: u32) -> Mem<Line>
    requires order { order.now ≡ firsts (variables c.now) }
    requires light { weight c.now ≤ 10000 }
    ensures { IfOk result (λ line. IsCanonicalLine c.now of line) }
{
    let terms = places(alloc, order, full_width(c) as usize)?;
    let clause = canonical(alloc, c)?;
    Ok(Line {
        step: Step::Instance { of, terms },
        clause,
    })
}

/// The line by which the clause of line `of` becomes canonical, unless it is so.
fn next_canonical(alloc: Global, c: &Clause, of: u32) -> Mem<Option<Line>>
    requires { weight c.now ≤ 10000 }
    ensures { IfOk result (λ found. MatchOption found (IsCanonical c.now) (λ line. (¬ IsCanonical c.now) × IsCanonicalLine c.now of line)) }
{
    let mut order = Vec::new(alloc);
    note_variables(c, &mut order)?;
    if is_counting(order.as_slice()) {
        return Ok(None);
    }
    let line = canonical_line(alloc, c, order.as_slice(), of)?;
    Ok(Some(line))
}

/// Adds the line of the canonical form of the last clause, which is within the limits, unless the clause is canonical.
pub fn end_canonical(alloc: Global, lines: &mut List<Line>) -> Mem<()>
    requires some { 0 < length lines.old }
    requires few { length lines.old < 2 ^ 32 }
    requires within { IsSomeAnd (last_clause lines.old) (λ c. IsWithinLimits c) }
    ensures { OnOk result (EndsCanonical lines.old lines.new) }
{
    let last = lines.len() - 1;
    match next_canonical(alloc, &lines.as_slice()[last].clause, last as u32 + 1)? {
        Some(line) => {
            lines.push(line)?;
            Ok(())
        }
        None => Ok(()),
    }
}
