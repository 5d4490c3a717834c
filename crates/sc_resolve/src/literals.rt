//! Literals by their numbers, and whether two may be resolved on or merged.

ghost use Rattle.std.specs.Prelude.{◌≡◌, ◌↔◌, not, false, IsTrue, IfOk};
ghost use Rattle.std.specs.List.{list_any};
ghost use Rattle.std.specs.Option.{option_copied};
ghost use Rattle.sc_term.specs.Numbering.{numbered};
ghost use Rattle.sc_resolve.specs.Literals.{may_resolve, may_merge, AreResolvable, AreMergeable};

use sc_term::{Literal, Mem};
use sc_unify::unify;
use std::alloc::Global;

/// Literal number n, from 1.
pub fn literal(items: &[Literal], n: u32) -> Option<&Literal>
    ensures { option_copied result ≡ numbered items.now n }
{
    if n == 0 {
        None
    } else {
        items.get(n as usize - 1)
    }
}

/// Whether the signs are opposite and the predicates the same.
fn may_resolve(l: &Literal, m: &Literal) -> bool
    ensures { result ≡ may_resolve l.now m.now }
{
    l.positive != m.positive && l.pred == m.pred
}

/// Whether the signs and the predicates are the same.
fn may_merge(l: &Literal, m: &Literal) -> bool
    ensures { result ≡ may_merge l.now m.now }
{
    l.positive == m.positive && l.pred == m.pred
}

/// Whether the literal may be resolved with one of them.
fn may_resolve_with(l: &Literal, others: &[Literal]) -> bool
    ensures { result ≡ list_any (may_resolve l.now) others.now }
{
    for m in others {
        if may_resolve(l, m) {
            return true;
        }
    }
    false
}

/// Whether one of the literals may be resolved with one of the others, by signs and predicates alone.
pub fn may_resolve_any(literals: &[Literal], others: &[Literal]) -> bool
    ensures { result ≡ list_any (λ l. list_any (may_resolve l) others.now) literals.now }
{
    for l in literals {
        if may_resolve_with(l, others) {
            return true;
        }
    }
    false
}

/// Whether the literals have opposite signs and unify.
pub fn are_resolvable(alloc: Global, l: &Literal, m: &Literal) -> Mem<bool>
    ensures { IfOk result (λ are. IsTrue are ↔ AreResolvable l.now m.now) }
{
    if !may_resolve(l, m) {
        return Ok(false);
    }
    Ok(unify(alloc, l, m)?.is_some())
}

/// Whether the literals have the same sign and unify.
pub fn are_mergeable(alloc: Global, l: &Literal, m: &Literal) -> Mem<bool>
    ensures { IfOk result (λ are. IsTrue are ↔ AreMergeable l.now m.now) }
{
    if !may_merge(l, m) {
        return Ok(false);
    }
    Ok(unify(alloc, l, m)?.is_some())
}
