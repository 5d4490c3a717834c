//! How derivations are put together, line by line.

ghost use Rattle.std.specs.Prelude.{◌≡◌, ◌↔◌, ◌<◌, ◌≤◌, ◌+◌, ◌^◌, ◌∷◌, [], ◌++◌, ℕ, Some, length, IfOk, OnOk, IsTrue, MatchOption};
ghost use Rattle.sc_term.specs.declared.Step.TheVariants.{Input};
ghost use Rattle.sc_term.specs.Proof.{clause_of};
ghost use Rattle.sc_steps.specs.Derivation.{IsInputAt};
ghost use Rattle.sc_core_rules.specs.Derivation.{AreTermsTo, IsFirstInput};
ghost use Rattle.sc_resolve.specs.Lines.{IsAdded, HasInput, HasPart, IsKnown};

use sc_term::{Clause, Line, List, Mem, Numbered, Step, Term, copy, same};
use std::alloc::Global;

fn is_input(step: &Step, n: u32) -> bool
    ensures { IsTrue result ↔ (step.now ≡ Input n) }
{
    match step {
        Step::Input(m) => *m == n,
        Step::Instance { .. } => false,
        Step::Resolve { .. } => false,
        Step::Merge { .. } => false,
        Step::Para { .. } => false,
        Step::Flip { .. } => false,
    }
}

/// The first line, from 1, that is `input n`.
fn input_line(lines: &[Line], n: u32) -> Option<u32>
    requires { length lines.now < 2 ^ 32 }
    ensures { MatchOption result ((j : ℕ) → ¬ IsInputAt lines.now n j) (λ k. IsFirstInput lines.now n k) }
{
    for at in 0..lines.len() {
        if is_input(&lines[at].step, n) {
            return Some(at as u32 + 1);
        }
    }
    None
}

/// Adds the line. The answer is its number.
pub fn add_line(lines: &mut List<Line>, step: Step, clause: Clause) -> Mem<u32>
    requires { length lines.old + 1 < 2 ^ 32 }
    ensures { IfOk result (λ k. IsAdded lines.old step clause lines.new k) }
{
    lines.push(Line { step, clause })?;
    Ok(lines.len() as u32)
}

/// The line that has the clause by its number. It is added where there is none.
fn add_input(alloc: Global, lines: &mut List<Line>, parent: &Numbered) -> Mem<u32>
    requires few { length lines.old + 1 < 2 ^ 32 }
    requires known { IsKnown lines.old parent.now }
    ensures { IfOk result (λ k. HasInput lines.old parent.now lines.new k) }
{
    match input_line(lines.as_slice(), parent.number) {
        Some(k) => Ok(k),
        None => {
            let clause = copy(alloc, &parent.clause)?;
            add_line(lines, Step::Input(parent.number), clause)
        }
    }
}

/// The line that has the parent's part, which the terms make of it. Lines are added for it, as far as they are needed.
pub fn add_part(
    alloc: Global,
    lines: &mut List<Line>,
    parent: &Numbered,
    terms: List<Term>,
    part: &Clause,
) -> Mem<u32>
    requires few { length lines.old + 2 < 2 ^ 32 }
    requires known { IsKnown lines.old parent.now }
    requires terms { AreTermsTo parent.now.clause part.now terms }
    ensures { IfOk result (λ k. HasPart lines.old parent.now part.now lines.new k) }
{
    let of = add_input(alloc, lines, parent)?;
    if same(part, &parent.clause) {
        return Ok(of);
    }
    let clause = copy(alloc, part)?;
    add_line(lines, Step::Instance { of, terms }, clause)
}
