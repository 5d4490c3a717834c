//! The end of a derivation: the canonical form of its last clause.

ghost use Rattle.std.specs.Prelude.{◌≡◌, ◌↔◌, ◌<◌, ◌≤◌, ◌+◌, ◌^◌, ℕ, Some, length, nat_eq, slice_get, IfOk, IsTrue};
ghost use Rattle.std.specs.List.{position_or_len};
ghost use Rattle.sc_term.specs.declared.Term.{Var as AVar};
ghost use Rattle.sc_term.specs.Clause.{IsWithinLimits, counting_from};
ghost use Rattle.sc_steps.specs.Derivation.{last_clause};
ghost use Rattle.sc_core_rules.specs.Derivation.{EndsCanonical};
ghost use Rattle.sc_resolve.specs.Canonical.{place_in};
ghost use Rattle.sc_resolve.specs.Kept.{IsKept};

use crate::lines::add_line;
use sc_steps::Made;
use sc_term::{
    Clause, Line, List, MAX_DEPTH, MAX_WEIGHT, Mem, Step, Term, canonical, copy, depth, full_width,
    note_variables, weight,
};
use std::alloc::Global;

/// Whether the numbers are 0, 1, ..
fn is_counting(order: &[u32]) -> bool
    ensures { IsTrue result ↔ (order.now ≡ counting_from 0 order.now) }
{
    for at in 0..order.len() {
        if order[at] as usize != at {
            return false;
        }
    }
    true
}

/// How many of the list stand before the number.
fn place(order: &[u32], n: u64) -> usize
    ensures { result ≡ position_or_len (nat_eq n) order.now }
{
    for at in 0..order.len() {
        if u64::from(order[at]) == n {
            return at;
        }
    }
    order.len()
}

/// The number of a variable by first occurrence, 0 where it doesn't occur.
fn new_number(order: &[u32], n: u64) -> u32
    requires { length order.now ≤ 10000 }
    ensures { result ≡ place_in order.now n }
{
    let at = place(order, n);
    if at < order.len() { at as u32 } else { 0 }
}

/// The terms that number so many variables by first occurrence.
fn numbering(alloc: Global, order: &[u32], width: u64) -> Mem<List<Term>>
    requires { length order.now ≤ 10000 }
    ensures many { IfOk result (λ terms. length terms ≡ width) }
    ensures each { IfOk result (λ terms. (n : ℕ) → n < width → slice_get terms n ≡ Some (AVar (place_in order.now n))) }
{
    let mut terms = List::new(alloc);
    for n in 0..width {
        terms.push(Term::Var(new_number(order, n)))?;
    }
    Ok(terms)
}

/// Whether the clause is canonical and within the limits, as given and usable clauses are.
pub fn is_kept(alloc: Global, c: &Clause) -> Mem<bool>
    ensures { IfOk result (λ kept. IsTrue kept ↔ IsKept c.now) }
{
    if weight(c) > MAX_WEIGHT || depth(c) > MAX_DEPTH {
        return Ok(false);
    }
    let mut order = Vec::new(alloc);
    note_variables(c, &mut order)?;
    Ok(is_counting(order.as_slice()))
}

/// The conclusion with its derivation, which gets an `instance` line to the canonical form of its last clause, unless
/// that is canonical already.
pub fn finish(alloc: Global, mut lines: List<Line>, clause: Clause) -> Mem<Made>
    requires few { length lines + 1 < 2 ^ 32 }
    requires ends { last_clause lines ≡ Some clause }
    requires within { IsWithinLimits clause }
    ensures { IfOk result (λ made. EndsCanonical lines made.lines) }
{
    let mut order = Vec::new(alloc);
    note_variables(&clause, &mut order)?;
    if is_counting(order.as_slice()) {
        return Ok(Made { clause, lines });
    }
    let terms = numbering(alloc, order.as_slice(), full_width(&clause))?;
    let last = canonical(alloc, &clause)?;
    let line = copy(alloc, &last)?;
    let of = lines.len() as u32;
    add_line(&mut lines, Step::Instance { of, terms }, line)?;
    Ok(Made {
        clause: last,
        lines,
    })
}
