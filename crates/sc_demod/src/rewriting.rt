//! Rewriting by demodulators.

ghost use Rattle.std.specs.Prelude.{◌≡◌, ◌≤◌, List as AList, ◌↔◌, IfOk, IsTrue, MatchOption, Some};
ghost use Rattle.sc_term.specs.Clause as spec;
ghost use Rattle.sc_term.specs.Clause.{IsWithinLimits};
ghost use Rattle.sc_term.specs.declared.Line.{Line as ALine};
ghost use Rattle.sc_core_rules.specs.Rewriting.{Rewrites, RewritesOnce};
ghost use Rattle.sc_steps.specs.Derivation.{last_clause};
ghost use Rattle.sc_demod.specs.Standing.{ChecksWith, KeepsChecking};
ghost use Rattle.sc_demod.specs.Rewriting.{AreDemods, AllAgree, IsChange, IsIrreducible, IsRewritten};
ghost use Rattle.sc_demod.specs.Finding.{FindsIn};

use crate::demods::Demods;
use crate::equation::sides;
use crate::extend::count_lines;
use crate::find::{Found, find};
use crate::replace::put_in;
use sc_resolve::{add_line, add_part};
use sc_steps::Made;
use sc_term::{
    Clause, Line, List, MAX_DEPTH, MAX_WEIGHT, Mem, Numbered, Side, Step, Term, copy, depth,
    instance, weight,
};
use std::alloc::Global;

/// What a clause is rewritten to, the instance of the demodulator by which it is, and where.
#[derive(Debug, Drop)]
struct Change {
    found: Found,
    part: Clause,
    after: Clause,
}

/// Whether the clause is within the limits on what is made.
pub fn is_within_limits(c: &Clause) -> bool
    ensures { IsTrue result ↔ IsWithinLimits c.now }
{
    weight(c) <= MAX_WEIGHT && depth(c) <= MAX_DEPTH
}

/// The change at a redex that was found, or None where it would be outside the limits.
fn change_at(
    alloc: Global,
    clause: &Clause,
    demods: &[Numbered],
    found: Found,
) -> Mem<Option<Change>>
    requires are { AreDemods demods.now }
    requires found { FindsIn demods.now clause.now.literals found.literal found.redex.path.items found.redex.place found.redex.terms }
    ensures { IfOk result (λ o. MatchOption o (IsIrreducible demods.now clause.now) (λ x. IsChange demods.now clause.now x.found.literal x.found.redex.path.items x.found.redex.place x.found.redex.terms x.part x.after)) }
{
    let demodulator = &demods[found.redex.place];
    let part = match instance(alloc, &demodulator.clause, &found.redex.terms)? {
        Some(part) => part,
        None => return Ok(None),
    };
    let (left, right) = match sides(&part) {
        Some(both) => both,
        None => return Ok(None),
    };
    let path = found.redex.path.as_slice();
    let after = put_in(alloc, clause, found.literal, path, left, right)?;
    if !is_within_limits(&after) {
        return Ok(None);
    }
    Ok(Some(Change { found, part, after }))
}

/// The change at the first redex, or None where there is none or it would be outside the limits.
fn first_change(alloc: Global, clause: &Clause, demods: &[Numbered]) -> Mem<Option<Change>>
    requires are { AreDemods demods.now }
    requires light { spec.weight clause.now ≤ 10000 }
    ensures { IfOk result (λ o. MatchOption o (IsIrreducible demods.now clause.now) (λ x. IsChange demods.now clause.now x.found.literal x.found.redex.path.items x.found.redex.place x.found.redex.terms x.part x.after)) }
{
    match find(alloc, demods, clause.literals.as_slice())? {
        Some(found) => change_at(alloc, clause, demods, found),
        None => Ok(None),
    }
}

/// Adds the lines of a change: those of the demodulator's instance, and the `para` line.
fn add_change(
    alloc: Global,
    clause: &Clause,
    lines: &mut List<Line>,
    demods: &[Numbered],
    made: Change,
) -> Mem<Clause>
    requires are { AreDemods demods.now }
    requires ends { last_clause lines.old ≡ Some clause.now }
    requires agrees { AllAgree lines.old demods.now }
    requires change { IsChange demods.now clause.now made.found.literal made.found.redex.path.items made.found.redex.place made.found.redex.terms made.part made.after }
    ensures { IfOk result (λ c. IsRewritten demods.now lines.old lines.new c) }
{
    let into = count_lines(lines)?;
    let Found { literal, redex } = made.found;
    let demodulator = &demods[redex.place];
    let from = add_part(alloc, lines, demodulator, redex.terms, &made.part)?;
    let copied = copy(alloc, &made.after)?;
    let step = Step::Para {
        from,
        from_lit: 1,
        side: Side::Left,
        into,
        into_lit: literal,
        path: List::from_vec(redex.path),
    };
    add_line(lines, step, copied)?;
    Ok(made.after)
}

/// Rewrites the clause, the last of the lines, once, or answers None where that can't be done, with the lines as they
/// were.
fn rewrite_once(
    alloc: Global,
    clause: &Clause,
    lines: &mut List<Line>,
    demods: &[Numbered],
) -> Mem<Option<Clause>>
    requires are { AreDemods demods.now }
    requires light { spec.weight clause.now ≤ 10000 }
    requires ends { last_clause lines.old ≡ Some clause.now }
    requires agrees { AllAgree lines.old demods.now }
    ensures { IfOk result (λ o. MatchOption o ((lines.new ≡ lines.old) × ((after : AList ALine) → ¬ RewritesOnce demods.now lines.old after)) (λ c. IsRewritten demods.now lines.old lines.new c)) }
{
    match first_change(alloc, clause, demods)? {
        Some(made) => Ok(Some(add_change(alloc, clause, lines, demods, made)?)),
        None => Ok(None),
    }
}

/// `rewrite` by the demodulators of a slice.
fn rewrite_by(alloc: Global, made: Made, demods: &[Numbered], limit: u32) -> Mem<Made>
    requires are { AreDemods demods.now }
    requires checks { ChecksWith demods.now made.lines }
    ensures rewrites { IfOk result (λ after. Rewrites demods.now limit made.lines after.lines) }
    ensures checks { IfOk result (λ after. KeepsChecking demods.now made.lines after.lines) }
{
    let mut clause = made.clause;
    let mut lines = made.lines;
    for _turn in 0..limit {
        match rewrite_once(alloc, &clause, &mut lines, demods)? {
            Some(next) => clause = next,
            None => return Ok(Made { clause, lines }),
        }
    }
    Ok(Made { clause, lines })
}

/// The clause rewritten by the demodulators (`Rewrites`): again and again the first redex, in the order of literals and
/// then in post-order, by the demodulator of least number that fits. It ends where there is no redex, after as many
/// rewrites as the limit says, or before a result outside the limits, weight 10,000 and depth 256. The lines have to
/// check over some clauses that have the demodulators at their numbers; over all such clauses the answer's lines check
/// too. No line is added to 4,294,967,292 or more, as their numbers are of u32: that is answered as want of memory.
pub fn rewrite(alloc: Global, made: Made, demods: &Demods, limit: u32) -> Mem<Made>
    requires { ChecksWith demods.now made.lines }
    ensures rewrites { IfOk result (λ after. Rewrites demods.now limit made.lines after.lines) }
    ensures checks { IfOk result (λ after. KeepsChecking demods.now made.lines after.lines) }
{
    rewrite_by(alloc, made, demods.as_slice(), limit)
}
