//! Unit deletion.

ghost use Rattle.std.specs.Prelude.{◌≡◌, ◌≢◌, ◌<◌, ◌≤◌, ◌+◌, ◌∷◌, [], not, length, AllPairs, IfOk, MatchOption, IsSomeAnd, Some, IsTrue, ◌↔◌};
ghost use Rattle.sc_term.specs.Clause as of;
ghost use Rattle.sc_term.specs.Numbering.{numbered};
ghost use Rattle.sc_term.specs.declared.Clause.{Clause as AClause};
ghost use Rattle.sc_term.specs.declared.Literal.{Literal as ALiteral};
ghost use Rattle.sc_core_rules.specs.Order.{Exhausts};
ghost use Rattle.sc_core_rules.specs.Simplification.{Removes, DeletesOnce};
ghost use Rattle.sc_steps.specs.Derivation.{last_clause};
ghost use Rattle.sc_resolve.specs.ByNumber.{seen};
ghost use Rattle.sc_demod.specs.Standing.{Agrees, ChecksWith, KeepsChecking};
ghost use Rattle.sc_demod.specs.Deleting.{IsRemoval, IsFirstRemoval, RemovesNone, opposite, IsCut};

use crate::extend::count_lines;
use crate::fit::Fit;
use sc_resolve::{add_line, add_part, by_number};
use sc_steps::Made;
use sc_term::{Clause, Line, List, Literal, Mem, Numbered, Step, Term, copy, copy_literal};
use sc_unify::match_onto;
use std::alloc::Global;

/// Whether the signs are opposite.
fn are_opposed(l: &Literal, m: &Literal) -> bool
    ensures { IsTrue result ↔ (l.now.positive ≡ not m.now.positive) }
{
    l.positive != m.positive
}

/// Terms for the variables of a unit by which it removes the literal, or None where it doesn't.
fn removing(alloc: Global, l: &Literal, u: &Numbered) -> Mem<Option<List<Term>>>
    ensures { IfOk result (λ found. MatchOption found (¬ Removes l.now u.now) (IsRemoval l.now u.now)) }
{
    match u.clause.literals.as_slice() {
        [m] => {
            if !are_opposed(l, m) {
                return Ok(None);
            }
            match_onto(alloc, m, l)
        }
        _ => Ok(None),
    }
}

/// The first unit of the list that removes the literal, or None where none does.
fn first_removing(alloc: Global, l: &Literal, units: &[&Numbered]) -> Mem<Option<Fit>>
    ensures { IfOk result (λ found. MatchOption found (RemovesNone (seen units.now) l.now) (λ f. IsFirstRemoval (seen units.now) l.now f.place f.terms)) }
{
    for place in 0..units.len() {
        match removing(alloc, l, units[place])? {
            Some(terms) => return Ok(Some(Fit { place, terms })),
            None => {}
        }
    }
    Ok(None)
}

/// The unit clause of the opposite literal.
fn opposite(alloc: Global, l: &Literal) -> Mem<Clause>
    ensures { IfOk result (λ c. c ≡ opposite l.now) }
{
    let mut turned = copy_literal(alloc, l)?;
    turned.positive = !l.positive;
    let mut literals = List::new(alloc);
    literals.push(turned)?;
    Ok(Clause { literals })
}

/// The clause without the literal at the place, which the unit removes. Its lines are added.
fn cut(
    alloc: Global,
    clause: Clause,
    lines: &mut List<Line>,
    at: usize,
    u: &Numbered,
    terms: List<Term>,
) -> Mem<Clause>
    requires there { at < length clause.literals }
    requires light { of.weight clause ≤ 10000 }
    requires removes { IsSomeAnd (numbered clause.literals (at + 1)) (λ l. IsRemoval l u.now terms) }
    requires ends { last_clause lines.old ≡ Some clause }
    requires agrees { Agrees lines.old u.now }
    ensures { IfOk result (λ after. IsCut clause lines.old (at + 1) u.now after lines.new) }
{
    let left = count_lines(lines)?;
    let left_lit = at as u32 + 1;
    let part = opposite(alloc, &clause.literals.as_slice()[at])?;
    let right = add_part(alloc, lines, u, terms, &part)?;
    let mut literals = clause.literals;
    literals.remove(at);
    let after = Clause { literals };
    let copied = copy(alloc, &after)?;
    let step = Step::Resolve {
        left,
        left_lit,
        right,
        right_lit: 1,
    };
    add_line(lines, step, copied)?;
    Ok(after)
}

/// `unit_delete` by references to units in rising order of their numbers, as a caller may keep them.
pub fn unit_delete_by(alloc: Global, made: Made, units: &[&Numbered]) -> Mem<Made>
    requires rising { AllPairs (λ p q. p.number < q.number) (seen units.now) }
    requires checks { ChecksWith (seen units.now) made.lines }
    ensures deletes { IfOk result (λ after. Exhausts (DeletesOnce (seen units.now)) made.lines after.lines) }
    ensures checks { IfOk result (λ after. KeepsChecking (seen units.now) made.lines after.lines) }
{
    let mut clause = made.clause;
    let mut lines = made.lines;
    let mut at = 0;
    while at < clause.literals.len() {
        match first_removing(alloc, &clause.literals.as_slice()[at], units)? {
            Some(found) => {
                let unit = units[found.place];
                clause = cut(alloc, clause, &mut lines, at, unit, found.terms)?;
            }
            None => at += 1,
        }
    }
    Ok(Made { clause, lines })
}

/// Literals are removed, from the left, each by the unit of least number that has the opposite sign and the literal's
/// atom as an instance, until none can be (`DeletesOnce`). The units may stand in any order, but their numbers have to
/// differ. The lines have to check over some clauses that have the units at their numbers; over all such clauses the
/// answer's lines check too. No line is added to 4,294,967,292 or more, as their numbers are of u32: that is answered as
/// want of memory.
pub fn unit_delete(alloc: Global, made: Made, units: &List<Numbered>) -> Mem<Made>
    requires differ { AllPairs (λ p q. p.number ≢ q.number) units.now }
    requires checks { ChecksWith units.now made.lines }
    ensures deletes { IfOk result (λ after. Exhausts (DeletesOnce units.now) made.lines after.lines) }
    ensures checks { IfOk result (λ after. KeepsChecking units.now made.lines after.lines) }
{
    let ordered = by_number(alloc, units.as_slice())?;
    unit_delete_by(alloc, made, ordered.as_slice())
}
