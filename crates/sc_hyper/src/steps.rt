//! The steps that resolve a clause with several others, and the conclusion.

ghost use Rattle.std.specs.Prelude.{◌≡◌, ◌≢◌, ◌<◌, ◌≤◌, ◌^◌, [], length, All, IfOk};
ghost use Rattle.std.specs.List.{AllZip};
ghost use Rattle.sc_term.specs.declared.Step.TheVariants.{Resolve};
ghost use Rattle.sc_term.specs.Clause.{IsWithinLimits};
ghost use Rattle.sc_term.specs.JointInstance.{whole};
ghost use Rattle.sc_term.specs.Proof.{clause_of};
ghost use Rattle.sc_core_rules.specs.Inference.{Inference};
ghost use Rattle.sc_resolve.specs.Kept.{IsKept};
ghost use Rattle.sc_resolve.specs.Lines.{IsAdded};
ghost use Rattle.sc_resolve.specs.Made.{Makes, IsOpposed};
ghost use Rattle.sc_hyper.specs.Making.{AreOneByNumber, IsResolution, resolvent, CanResolveParts, AreResolvedAll};

use crate::pairing::{apart, terms_of_all};
use crate::parts::{Opening, opening_of};
use sc_resolve::{add_line, finish};
use sc_steps::Made;
use sc_term::{Clause, Line, List, Mem, Numbered, Step, copy};
use std::alloc::Global;

/// The clause without literal a, and then the part without literal b.
fn resolvent(alloc: Global, c: Clause, a: u32, part: &Clause, b: u32) -> Mem<Clause>
    requires { IsOpposed c a part.now b }
    ensures { IfOk result (λ r. r ≡ resolvent c a part.now b) }
{
    let mut literals = c.literals;
    literals.remove(a as usize - 1);
    let mut rest = copy(alloc, part)?.literals;
    rest.remove(b as usize - 1);
    literals.append(rest)?;
    Ok(Clause { literals })
}

/// Adds the line of the clause, which is resolved from these.
fn add_resolvent(
    alloc: Global,
    lines: &mut List<Line>,
    left: u32,
    left_lit: u32,
    right: u32,
    right_lit: u32,
    clause: &Clause,
) -> Mem<u32>
    requires { length lines.old ≤ 40000 }
    ensures { IfOk result (λ k. IsAdded lines.old (Resolve left left_lit right right_lit) clause.now lines.new k) }
{
    let step = Step::Resolve {
        left,
        left_lit,
        right,
        right_lit,
    };
    let line = copy(alloc, clause)?;
    add_line(lines, step, line)
}

/// The first part resolved on these literals in order, each with that literal of the next part, with its derivation.
fn resolved(alloc: Global, opening: Opening, lits: &[u32], others: &[u32]) -> Mem<Made>
    requires few { length opening.lines ≤ 20002 }
    requires few_steps { length lits.now ≤ 10000 }
    requires some { lits.now ≢ [] }
    requires there { AllZip (λ k part. clause_of opening.lines k ≡ Some part) opening.part_lines opening.parts }
    requires can { CanResolveParts opening.parts lits.now others.now }
    requires within { IsWithinLimits (whole opening.parts) }
    ensures { IfOk result (λ made. AreResolvedAll opening.lines opening.part_lines lits.now others.now made.lines) }
{
    let Opening {
        mut lines,
        part_lines,
        parts,
    } = opening;
    let part_lines = part_lines.as_slice();
    let parts = parts.as_slice();
    let mut line = part_lines[0];
    let mut clause = copy(alloc, &parts[0])?;
    for at in 0..lits.len() {
        let lit = lits[at] - at as u32;
        let (right, other) = (part_lines[at + 1], others[at]);
        clause = resolvent(alloc, clause, lit, &parts[at + 1], other)?;
        line = add_resolvent(alloc, &mut lines, line, lit, right, other, &clause)?;
    }
    finish(alloc, lines, clause)
}

/// The conclusion where these literals of the first parent are resolved in order, each with that literal of the next
/// parent, or None where there is none.
pub fn conclusion(
    alloc: Global,
    parents: &[Numbered],
    lits: &[u32],
    others: &[u32],
) -> Mem<Option<Made>>
    requires few { length parents.now ≤ 10001 }
    requires kept { All (λ p. IsKept p.clause) parents.now }
    requires one { AreOneByNumber parents.now }
    requires site { (i : Inference) × IsResolution parents.now lits.now others.now i }
    ensures { (i : Inference) → IsResolution parents.now lits.now others.now i → IfOk result (λ made. Makes i made) }
{
    let apart = apart(alloc, parents)?;
    let told = match terms_of_all(alloc, &apart, lits, others)? {
        Some(told) => told,
        None => return Ok(None),
    };
    let opening = match opening_of(alloc, parents, told.as_slice())? {
        Some(opening) => opening,
        None => return Ok(None),
    };
    Ok(Some(resolved(alloc, opening, lits, others)?))
}
