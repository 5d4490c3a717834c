//! Conclusions of paramodulation.

ghost use Rattle.std.specs.Prelude.{◌≡◌, ◌≢◌, ◌<◌, ◌≤◌, ◌++◌, length, Some, true, IfOk, IfSome, IfNone, IsSomeAnd, MatchOption};
ghost use Rattle.sc_term.specs.declared.Term.{Term as ATerm};
ghost use Rattle.sc_term.specs.Numbering.{numbered, with_element, without};
ghost use Rattle.sc_term.specs.Proof.{chosen, other};
ghost use Rattle.sc_term.specs.Refuted.{equation};
ghost use Rattle.sc_term.specs.Clause.{IsWithinLimits};
ghost use Rattle.sc_steps.specs.Derivation.{last_clause};
ghost use Rattle.sc_core_rules.specs.Derivation.{AreTermsTo, EndsCanonical};
ghost use Rattle.sc_para.specs.Conclusion.{AreSidesOf, IsFitting, IsChanged, IsParamodulantOf, AreReplacing};

use crate::pairs::positive_sides;
use crate::replacing::replaced;
use sc_core_rules::ParaSite;
use sc_resolve::{Part, add_line, add_part, finish, literal};
use sc_steps::Made;
use sc_term::{
    Clause, Line, List, Literal, MAX_DEPTH, MAX_WEIGHT, Mem, Numbered, Side, Step, Term, copy,
    depth, weight,
};
use std::alloc::Global;

/// The chosen side, and then the other.
fn chosen_first<'a>(side: Side, left: &'a Term, right: &'a Term) -> (&'a Term, &'a Term)
    ensures chosen { result.0.now ≡ chosen side left.now right.now }
    ensures other { result.1.now ≡ other side left.now right.now }
{
    match side {
        Side::Left => (left, right),
        Side::Right => (right, left),
    }
}

/// The sides, chosen and other, of the positive equation with this number.
pub fn sides_of(literals: &[Literal], n: u32, side: Side) -> Option<(&Term, &Term)>
    ensures found { IfSome result (λ p. AreSidesOf literals.now n side p.0.now p.1.now) }
    ensures none { IfNone result ((s t : ATerm) → ¬ AreSidesOf literals.now n side s t) }
{
    let Some(l) = literal(literals, n) else {
        return None;
    };
    match positive_sides(l) {
        Some((left, right)) => Some(chosen_first(side, left, right)),
        None => None,
    }
}

/// The literal that the site changes, with the other side of the equation in the place of the chosen one.
fn changed_literal(
    alloc: Global,
    left: &Clause,
    right: &Clause,
    site: &ParaSite,
) -> Mem<Option<Literal>>
    requires { IsFitting left.now right.now site.now }
    ensures { IfOk result (λ found. IsSomeAnd found (λ l. IsChanged left.now right.now site.now l)) }
{
    let Some((_, other)) = sides_of(left.literals.as_slice(), site.from_lit, site.side) else {
        return Ok(None);
    };
    let Some(target) = literal(right.literals.as_slice(), site.into_lit) else {
        return Ok(None);
    };
    let Some(args) = replaced(alloc, target.args.as_slice(), site.path.as_slice(), other)? else {
        return Ok(None);
    };
    Ok(Some(Literal {
        positive: target.positive,
        pred: target.pred,
        args,
    }))
}

/// The literals of the one clause with literal b changed, and those of the other without literal a.
fn joined(left: Clause, a: u32, right: Clause, b: u32, changed: Literal) -> Mem<Clause>
    requires left_there { 0 < a }
    requires left_within { a ≤ length left.literals }
    requires right_there { 0 < b }
    requires right_within { b ≤ length right.literals }
    ensures { IfOk result (λ c. c.literals ≡ with_element right.literals b changed ++ without left.literals a) }
{
    let mut literals = right.literals;
    literals.set(b as usize - 1, changed);
    let mut rest = left.literals;
    rest.remove(a as usize - 1);
    literals.append(rest)?;
    Ok(Clause { literals })
}

/// The lines up to the step of paramodulation, and the clause of the last.
#[derive(Drop)]
pub struct Steps {
    pub lines: List<Line>,
    pub clause: Clause,
}

/// The parts of the parents, and the step of paramodulation on them.
pub fn replacing(
    alloc: Global,
    from: &Numbered,
    into: &Numbered,
    left: Part,
    right: Part,
    site: &ParaSite,
) -> Mem<Option<Steps>>
    requires left_terms { AreTermsTo from.now.clause left.clause left.terms }
    requires right_terms { AreTermsTo into.now.clause right.clause right.terms }
    requires same { into.now.number ≡ from.now.number → into.now ≡ from.now }
    requires fitting { IsFitting left.clause right.clause site.now }
    ensures { IfOk result (λ found. IsSomeAnd found (λ s. AreReplacing from.now into.now left.clause right.clause site.now s.clause s.lines × (length s.lines < 900))) }
{
    let Some(changed) = changed_literal(alloc, &left.clause, &right.clause, site)? else {
        return Ok(None);
    };
    let mut lines = List::new(alloc);
    let of_left = add_part(alloc, &mut lines, from, left.terms, &left.clause)?;
    let of_right = add_part(alloc, &mut lines, into, right.terms, &right.clause)?;
    let clause = joined(
        left.clause,
        site.from_lit,
        right.clause,
        site.into_lit,
        changed,
    )?;
    let step = Step::Para {
        from: of_left,
        from_lit: site.from_lit,
        side: site.side,
        into: of_right,
        into_lit: site.into_lit,
        path: List::from_slice(alloc, site.path.as_slice())?,
    };
    let line = copy(alloc, &clause)?;
    add_line(&mut lines, step, line)?;
    Ok(Some(Steps { lines, clause }))
}

/// The conclusion of the steps, or None where their last clause is outside the limits.
pub fn ended(alloc: Global, steps: Steps) -> Mem<Option<Made>>
    requires few { length steps.lines < 900 }
    requires ends { last_clause steps.lines ≡ Some steps.clause }
    ensures { IfOk result (λ made. MatchOption made (¬ IsWithinLimits steps.clause) (λ m. EndsCanonical steps.lines m.lines)) }
{
    let Steps { lines, clause } = steps;
    if weight(&clause) > MAX_WEIGHT || depth(&clause) > MAX_DEPTH {
        return Ok(None);
    }
    Ok(Some(finish(alloc, lines, clause)?))
}
