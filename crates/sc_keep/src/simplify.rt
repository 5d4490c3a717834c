//! A conclusion is simplified: rewritten, flipped, cut by units, merged, and made canonical.

ghost use Rattle.std.specs.Prelude.{◌≡◌, ◌≢◌, ◌<◌, ◌+◌, ◌^◌, ◌++◌, ◌↔◌, List as AList, AllPairs, IfOk, IsSomeAnd, IsTrue, length};
ghost use Rattle.sc_term.specs.declared.Clause.{Clause as AClause};
ghost use Rattle.sc_term.specs.declared.Line.{Line as ALine};
ghost use Rattle.sc_term.specs.Clause.{IsWithinLimits};
ghost use Rattle.sc_term.specs.Proof.{AreSteps};
ghost use Rattle.sc_steps.specs.Derivation.{last_clause};
ghost use Rattle.sc_core_rules.specs.Derivation.{EndsCanonical};
ghost use Rattle.sc_core_rules.specs.Order.{Exhausts, With};
ghost use Rattle.sc_core_rules.specs.Simplification.{DeletesOnce, MergesOnce, Orients, Simplifies};
ghost use Rattle.sc_demod.specs.Standing.{ChecksWith};

use crate::canonical::end_canonical;
use crate::live::Live;
use crate::merge::merge_all;
use crate::units_in_order::units_in_order;
use sc_demod::{Demods, orient, rewrite, unit_delete_by};
use sc_input_rules::Flags;
use sc_steps::Made;
use sc_term::{Line, List, Mem, OutOfMemory, copy};
use std::alloc::Global;

/// The conclusion, flipped where that is asked for and it is an equation whose right side weighs more.
fn oriented(alloc: Global, dynamic_demod: bool, made: Made) -> Mem<Made>
    ensures orients { IfOk result (λ after. With dynamic_demod (Orients made.lines after.lines) (after.lines ≡ made.lines)) }
    ensures checks { IfOk result (λ after. (clauses : AList AClause) → AreSteps clauses made.lines → AreSteps clauses after.lines) }
{
    if !dynamic_demod {
        return Ok(made);
    }
    let after = orient(alloc, made)?;
    Ok(after)
}

/// The conclusion, cut by the live units where that is asked for.
fn cut(alloc: Global, unit_deletion: bool, live: Live, made: Made) -> Mem<Made>
    requires differ { AllPairs (λ p q. p.number ≢ q.number) (live.usable.now ++ live.sos.now ++ live.passive.now) }
    requires checks { ChecksWith (live.usable.now ++ live.sos.now ++ live.passive.now) made.lines }
    ensures { IfOk result (λ after. With unit_deletion (Exhausts (DeletesOnce (live.entry.usable.now ++ live.entry.sos.now ++ live.entry.passive.now)) made.lines after.lines) (after.lines ≡ made.lines)) }
{
    if !unit_deletion {
        return Ok(made);
    }
    let units = units_in_order(alloc, live)?;
    let after = unit_delete_by(alloc, made, units.as_slice())?;
    Ok(after)
}

/// Whether the lines leave room for as many more, with numbers below 2^32, as their last clause has literals.
fn has_room(lines: &[Line]) -> bool
    requires { 0 < length lines.now }
    ensures { IsTrue result ↔ IsSomeAnd (last_clause lines.now) (λ c. length lines.now + length c.literals < 2 ^ 32) }
{
    let most = u32::MAX as usize;
    let c = &lines[lines.len() - 1].clause;
    lines.len() <= most && c.literals.len() <= most - lines.len()
}

/// The clause that the lines end with, with its lines.
fn made_of(alloc: Global, lines: List<Line>) -> Mem<Made>
    requires some { 0 < length lines }
    requires within { IsSomeAnd (last_clause lines) (λ c. IsWithinLimits c) }
    ensures { IfOk result (λ made. made.lines ≡ lines) }
{
    let clause = copy(alloc, &lines.as_slice()[lines.len() - 1].clause)?;
    Ok(Made { clause, lines })
}

/// The conclusion without literals that equal an earlier one, in its canonical form.
fn merged_and_canonical(alloc: Global, made: Made) -> Mem<Made>
    ensures { IfOk result (λ after. (merged : AList ALine) × Exhausts MergesOnce made.lines merged × EndsCanonical merged after.lines) }
{
    if !has_room(made.lines.as_slice()) {
        return Err(OutOfMemory);
    }
    let mut lines = made.lines;
    merge_all(alloc, &mut lines)?;
    end_canonical(alloc, &mut lines)?;
    let after = made_of(alloc, lines)?;
    Ok(after)
}

/// Simplifies the conclusion (`Simplifies`): it is rewritten by the demodulators, at most as often as the limit says;
/// flipped, with `dynamic_demod`, where it is an equation whose right side weighs more; cut by the live units, with
/// `unit_deletion`; literals that equal an earlier one are removed; and the canonical form is taken. Each has its lines.
/// The live clauses have to have numbers of their own, and the lines to check over some clauses that have these and the
/// demodulators at their numbers. The answer is `OutOfMemory` too where the lines, with the literals of their last clause,
/// would be 2^32 or more, as their numbers are of u32.
pub fn simplify(
    alloc: Global,
    flags: Flags,
    demod_limit: u32,
    demods: &Demods,
    live: Live,
    made: Made,
) -> Mem<Made>
    requires differ { AllPairs (λ p q. p.number ≢ q.number) (live.usable.now ++ live.sos.now ++ live.passive.now) }
    requires checks { ChecksWith ((live.usable.now ++ live.sos.now ++ live.passive.now) ++ demods.now) made.lines }
    ensures { IfOk result (λ after. Simplifies flags demod_limit demods.now (live.entry.usable.now ++ live.entry.sos.now ++ live.entry.passive.now) made.lines after.lines) }
{
    let rewritten = rewrite(alloc, made, demods, demod_limit)?;
    let turned = oriented(alloc, flags.dynamic_demod, rewritten)?;
    let shorter = cut(alloc, flags.unit_deletion, live, turned)?;
    let after = merged_and_canonical(alloc, shorter)?;
    Ok(after)
}
