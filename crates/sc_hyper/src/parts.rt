//! The lines of the parts of several parents.

ghost use Rattle.std.specs.Prelude.{◌≡◌, ◌<◌, ◌≤◌, ◌^◌, List as AList, length, All, IfOk, IsSomeAnd, MatchOption};
ghost use Rattle.sc_term.specs.declared.Clause.{Clause as AClause};
ghost use Rattle.sc_term.specs.Clause.{width, instance, IsWithinLimits};
ghost use Rattle.sc_resolve.specs.Kept.{IsKept};
ghost use Rattle.sc_resolve.specs.Lines.{IsKnown, HasPart};
ghost use Rattle.sc_hyper.specs.Making.{AreOneByNumber, AreTold, IsOpened};

use sc_resolve::{add_part, part_of};
use sc_term::{Clause, Line, List, Mem, Numbered, Term, copy_terms};
use std::alloc::Global;

/// A part of a parent, and the line that has it.
#[derive(Drop)]
pub struct AddedPart {
    pub line: u32,
    pub clause: Clause,
}

/// Adds the lines of the part that the terms make of the parent, or answers None where that is outside the limits.
fn added_part(
    alloc: Global,
    lines: &mut List<Line>,
    parent: &Numbered,
    terms: &List<Term>,
) -> Mem<Option<AddedPart>>
    requires few { length lines.old ≤ 30000 }
    requires known { IsKnown lines.old parent.now }
    requires kept { IsKept parent.now.clause }
    requires many { length terms.now ≡ width parent.now.clause }
    ensures { IfOk result (λ found. MatchOption found (¬ IsWithinLimits (instance terms.now parent.now.clause))
        (λ p. (p.clause ≡ instance terms.now parent.now.clause) × HasPart lines.old parent.now p.clause lines.new p.line)) }
{
    let own = copy_terms(alloc, terms.as_slice())?;
    let part = match part_of(alloc, &parent.clause, own)? {
        Some(part) => part,
        None => return Ok(None),
    };
    let line = add_part(alloc, lines, parent, part.terms, &part.clause)?;
    Ok(Some(AddedPart {
        line,
        clause: part.clause,
    }))
}

/// The first lines of a derivation, with the parts of the parents and the line of each.
#[derive(Drop)]
pub struct Opening {
    pub lines: List<Line>,
    pub part_lines: List<u32>,
    pub parts: List<Clause>,
}

/// The lines of the parts that the terms make of the parents.
pub fn opening_of(alloc: Global, parents: &[Numbered], told: &[List<Term>]) -> Mem<Option<Opening>>
    requires few { length parents.now ≤ 10001 }
    requires kept { All (λ p. IsKept p.clause) parents.now }
    requires one { AreOneByNumber parents.now }
    requires told { (parts : AList AClause) × AreTold parents.now told.now parts }
    ensures { (parts : AList AClause) → AreTold parents.now told.now parts
        → IfOk result (λ found. IsSomeAnd found (λ o. (o.parts ≡ parts) × IsOpened parents.now parts o.lines o.part_lines)) }
{
    let mut lines = List::new(alloc);
    let mut part_lines = List::new(alloc);
    let mut parts = List::new(alloc);
    for at in 0..parents.len() {
        let added = match added_part(alloc, &mut lines, &parents[at], &told[at])? {
            Some(added) => added,
            None => return Ok(None),
        };
        part_lines.push(added.line)?;
        parts.push(added.clause)?;
    }
    Ok(Some(Opening {
        lines,
        part_lines,
        parts,
    }))
}
