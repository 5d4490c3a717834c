//! Why a conclusion is dropped.

ghost use Rattle.std.specs.Prelude.{◌++◌, ◌≤◌, ◌<◌, ◌↔◌, IfOk, IsTrue, MatchOption};
ghost use Rattle.sc_keep.specs.Dropping.{IsDropped, IsHeavy, IsLong, IsSubsumed, IsSubsumedBy};

use crate::live::{Live, live_subsumer};
use sc_core_rules::Fate;
use sc_input_rules::{Flags, Params};
use sc_subsume::is_tautology;
use sc_term::{Clause, Mem, weight};
use std::alloc::Global;

/// Whether the clause is too heavy.
fn is_heavy(params: Params, c: &Clause) -> bool
    requires { params.max_weight ≤ 1000 }
    ensures { IsTrue result ↔ IsHeavy params c.now }
{
    params.max_weight < weight(c)
}

/// Whether the clause has too many literals.
fn is_long(params: Params, c: &Clause) -> bool
    ensures { IsTrue result ↔ IsLong params c.now }
{
    (params.max_literals as usize) < c.literals.len()
}

/// The least number of a live clause that subsumes the clause, where that is asked for.
fn subsumer(alloc: Global, for_sub: bool, live: Live, c: &Clause) -> Mem<Option<u32>>
    ensures { IfOk result (λ found. MatchOption found (¬ IsSubsumed for_sub (live.entry.usable.now ++ live.entry.sos.now ++ live.entry.passive.now) c.now)
        (λ k. IsSubsumedBy for_sub (live.entry.usable.now ++ live.entry.sos.now ++ live.entry.passive.now) c.now k)) }
{
    if !for_sub {
        return Ok(None);
    }
    let found = live_subsumer(alloc, live, c)?;
    Ok(found)
}

/// The fate of a simplified conclusion that isn't empty, where it is dropped: a tautology, too heavy, too long, or
/// subsumed by the live clause of least number that does.
pub fn dropped(
    alloc: Global,
    flags: Flags,
    params: Params,
    live: Live,
    c: &Clause,
) -> Mem<Option<Fate>>
    requires { params.max_weight ≤ 1000 }
    ensures { IfOk result (λ fate. IsDropped flags params (live.entry.usable.now ++ live.entry.sos.now ++ live.entry.passive.now) c.now fate) }
{
    if is_tautology(c) {
        return Ok(Some(Fate::Taut));
    }
    if is_heavy(params, c) {
        return Ok(Some(Fate::Heavy));
    }
    if is_long(params, c) {
        return Ok(Some(Fate::Long));
    }
    match subsumer(alloc, flags.for_sub, live, c)? {
        Some(m) => Ok(Some(Fate::Subsumed(m))),
        None => Ok(None),
    }
}
