//! Steps, and whole proofs.

ghost use Rattle.std.specs.Prelude.{◌≡◌, ◌↔◌, ◌<◌, ◌≤◌, ◌+◌, ◌-◌, ◌^◌, ℕ, List as AList, length, take, IsTrue, OnOk, IfErr, IsSomeAnd};
ghost use Rattle.sc_term.specs.Numbering.{numbered};
ghost use Rattle.sc_term.specs.declared.Clause.{Clause as AClause};
ghost use Rattle.sc_term.specs.declared.Line.{Line as ALine};
ghost use Rattle.sc_term.specs.Refuted.{IsRefuted};
ghost use Rattle.sc_term.specs.Clause as spec;
ghost use Rattle.sc_term.specs.Proof.{AreOpposite, IsResolvent, IsMerged, clause_of, Follows, IsStepAt, AreSteps, EndsFalse, IsProof, IsFirstFault};
ghost use Rattle.sc_steps.specs.Derivation.{IsDerivation, IsFirstFaultOfDerivation};

use crate::checking::equality::{is_flipped, is_paramodulant};
use crate::checking::instance::is_instance;
use crate::lists::{is_among, is_joined, is_without, numbered};
use sc_term::{Clause, Line, List, Literal, Step, Term, full_width, same, same_terms};

/// Whether the two have opposite signs and the same atom.
fn are_opposite(l: &Literal, m: &Literal) -> bool
    ensures { IsTrue result ↔ AreOpposite l.now m.now }
{
    l.positive != m.positive && l.pred == m.pred && same_terms(l.args.as_slice(), m.args.as_slice())
}

// In the three below the literals of `c` are compared first: where they fit, the parents are no larger than `c` and the
// literals left out, so a line costs no more than that.

/// Whether `c` has the literals of `left` without number a, and then those of `right` without number b, its opposite.
fn is_resolvent(left: &Clause, a: u32, right: &Clause, b: u32, c: &Clause) -> bool
    ensures { IsTrue result ↔ IsResolvent left.now a right.now b c.now }
{
    let (lefts, rights) = (left.literals.as_slice(), right.literals.as_slice());
    match (numbered(lefts, a), numbered(rights, b)) {
        (Some(l), Some(m)) => {
            is_joined(c.literals.as_slice(), lefts, a, rights, b) && are_opposite(l, m)
        }
        _ => false,
    }
}

/// Whether `c` has the literals of `of` without number a, which equals an earlier one.
fn is_merged(of: &Clause, a: u32, c: &Clause) -> bool
    ensures { IsTrue result ↔ IsMerged of.now a c.now }
{
    let literals = of.literals.as_slice();
    match numbered(literals, a) {
        Some(l) => {
            is_without(c.literals.as_slice(), literals, a)
                && is_among(&literals[..a as usize - 1], l)
        }
        None => false,
    }
}

/// Whether `c` is the instance of `of` by the terms, which are as many as it is wide.
fn is_instantiated(of: &Clause, terms: &[Term], c: &Clause) -> bool
    ensures { IsTrue result ↔ ((length terms.now ≡ spec.width of.now) × (c.now ≡ spec.instance terms.now of.now)) }
{
    is_instance(of, terms, c) && terms.len() as u64 == full_width(of)
}

/// Whether the clause follows from the input clauses and the earlier lines by the step.
fn follows(inputs: &[Clause], earlier: &[Line], c: &Clause, step: &Step) -> bool
    ensures { IsTrue result ↔ Follows inputs.now earlier.now c.now step.now }
{
    match step {
        Step::Input(k) => match numbered(inputs, *k) {
            Some(input) => same(input, c),
            None => false,
        },
        Step::Instance { of, terms } => match numbered(earlier, *of) {
            Some(line) => is_instantiated(&line.clause, terms.as_slice(), c),
            None => false,
        },
        Step::Resolve {
            left,
            left_lit,
            right,
            right_lit,
        } => match (numbered(earlier, *left), numbered(earlier, *right)) {
            (Some(left), Some(right)) => {
                is_resolvent(&left.clause, *left_lit, &right.clause, *right_lit, c)
            }
            _ => false,
        },
        Step::Merge { of, lit } => match numbered(earlier, *of) {
            Some(line) => is_merged(&line.clause, *lit, c),
            None => false,
        },
        Step::Para {
            from,
            from_lit,
            side,
            into,
            into_lit,
            path,
        } => match (numbered(earlier, *from), numbered(earlier, *into)) {
            (Some(from), Some(into)) => is_paramodulant(
                &from.clause,
                *from_lit,
                *side,
                &into.clause,
                *into_lit,
                path.as_slice(),
                c,
            ),
            _ => false,
        },
        Step::Flip { of, lit } => match numbered(earlier, *of) {
            Some(line) => is_flipped(&line.clause, *lit, c),
            None => false,
        },
    }
}

/// Whether line k, counted from 1, is a step from the lines before it (`IsStepAt`). Line k has to be there.
pub fn check_line(inputs: &List<Clause>, lines: &List<Line>, k: u32) -> bool
    requires there { 0 < k }
    requires within { k ≤ length lines.now }
    ensures { IsTrue result ↔ IsStepAt inputs.now lines.now k }
{
    let lines = lines.as_slice();
    let at = k as usize - 1;
    follows(
        inputs.as_slice(),
        &lines[..at],
        &lines[at].clause,
        &lines[at].step,
    )
}

/// Whether the last line has the empty clause.
fn ends_false(lines: &[Line]) -> bool
    ensures { IsTrue result ↔ EndsFalse lines.now }
{
    match lines.last() {
        Some(line) => line.clause.literals.is_empty(),
        None => false,
    }
}

/// The first line at fault, counted from 1.
#[derive(Clone, Copy, Debug, PartialEq, Eq)]
pub struct BadLine {
    pub line: u32,
}

/// Whether every line is a step, or else the first that isn't.
fn all_steps(inputs: &List<Clause>, lines: &List<Line>) -> Result<(), BadLine>
    requires { length lines.now < 2 ^ 32 - 1 }
    ensures ok { OnOk result (AreSteps inputs.now lines.now) }
    ensures earlier { IfErr result (λ e. (i : ℕ) → i + 1 < e.line → IsStepAt inputs.now lines.now (i + 1)) }
    ensures at { IfErr result (λ e. ¬ IsStepAt inputs.now lines.now e.line) }
    ensures within { IfErr result (λ e. (0 < e.line) × (e.line ≤ length lines.now)) }
{
    for at in 0..lines.len() {
        let k = at as u32 + 1;
        if !check_line(inputs, lines, k) {
            return Err(BadLine { line: k });
        }
    }
    Ok(())
}

/// Whether the lines are a proof from the input clauses, or else the first line that is at fault.
fn first_fault(inputs: &List<Clause>, lines: &List<Line>) -> Result<(), BadLine>
    requires { length lines.now < 2 ^ 32 - 1 }
    ensures ok { OnOk result (IsProof inputs.now lines.now) }
    ensures bad { IfErr result (λ e. IsFirstFault inputs.now lines.now e.line) }
{
    all_steps(inputs, lines)?;
    if ends_false(lines.as_slice()) {
        Ok(())
    } else {
        Err(BadLine {
            line: lines.len() as u32 + 1,
        })
    }
}

/// Ok exactly where the lines are a proof from the input clauses (`IsProof`), which are then refuted (`IsRefuted`):
/// every line is a step and the last clause is empty. Else the first line that isn't a step, or, where all are, the
/// line after the last (`IsFirstFault`). There have to be fewer than 4,294,967,295 lines, so that this line has a
/// number.
pub fn check(inputs: &List<Clause>, lines: &List<Line>) -> Result<(), BadLine>
    requires { length lines.now < 2 ^ 32 - 1 }
    ensures ok { OnOk result (IsProof inputs.now lines.now) }
    ensures bad { IfErr result (λ e. IsFirstFault inputs.now lines.now e.line) }
    ensures refuted { OnOk result (IsRefuted inputs.now) }
{
    proof_refutes();
    first_fault(inputs, lines)
}

/// The law that lines that are a proof refute the input clauses, over all lists of clauses and lines.
pub fn proof_refutes()
    ensures { (inputs : AList AClause) (lines : AList ALine) → IsProof inputs lines → IsRefuted inputs }
{}

/// Ok exactly where the lines are a derivation from the clauses (`IsDerivation`): there is a line, and every line is a
/// step. Else the first line that isn't a step, or line 1 where there is none (`IsFirstFaultOfDerivation`). There have
/// to be fewer than 4,294,967,295 lines.
pub fn check_derivation(inputs: &List<Clause>, lines: &List<Line>) -> Result<(), BadLine>
    requires { length lines.now < 2 ^ 32 - 1 }
    ensures ok { OnOk result (IsDerivation inputs.now lines.now) }
    ensures bad { IfErr result (λ e. IsFirstFaultOfDerivation inputs.now lines.now e.line) }
{
    all_steps(inputs, lines)?;
    if lines.is_empty() {
        return Err(BadLine { line: 1 });
    }
    Ok(())
}
