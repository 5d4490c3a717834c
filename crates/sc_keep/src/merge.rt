//! Literals that equal an earlier one are removed, with the lines of it.

ghost use Rattle.std.specs.Prelude.{◌≡◌, ◌↔◌, ◌<◌, ◌≤◌, ◌+◌, ◌++◌, ◌∷◌, ◌^◌, [], ℕ, List as AList, Contains, IsTrue, IfOk, OnOk, MatchOption, IsSomeAnd, length};
ghost use Rattle.sc_term.specs.declared.Line.{Line as ALine};
ghost use Rattle.sc_term.specs.Numbering.{without};
ghost use Rattle.sc_steps.specs.Derivation.{last_clause};
ghost use Rattle.sc_core_rules.specs.Order.{Exhausts};
ghost use Rattle.sc_core_rules.specs.Simplification.{IsRepeated, MergesOnce};
ghost use Rattle.sc_keep.specs.Repeated.{IsFirstRepeated};

use sc_term::{Clause, Line, List, Literal, Mem, Step, copy, same_literal};
use std::alloc::Global;

/// Whether one of the literals is the literal.
fn is_among(literals: &[Literal], l: &Literal) -> bool
    ensures { IsTrue result ↔ Contains literals.now l.now }
{
    for m in literals {
        if same_literal(m, l) {
            return true;
        }
    }
    false
}

/// The number of the first literal that equals an earlier one.
fn first_repeated(literals: &[Literal]) -> Option<u32>
    requires { length literals.now < 2 ^ 32 }
    ensures { MatchOption result ((b : ℕ) → ¬ IsRepeated (record { literals = literals.now }) b)
        (λ a. IsFirstRepeated literals.now a) }
{
    for at in 0..literals.len() {
        if is_among(&literals[..at], &literals[at]) {
            return Some(at as u32 + 1);
        }
    }
    None
}

/// The clause without literal `lit`.
fn copy_without(alloc: Global, c: &Clause, lit: u32) -> Mem<Clause>
    requires there { 0 < lit }
    requires within { lit ≤ length c.now.literals }
    ensures { IfOk result (λ d. d.literals ≡ without c.now.literals lit) }
{
    let mut made = copy(alloc, c)?;
    made.literals.remove(lit as usize - 1);
    Ok(made)
}

/// The line by which the last clause loses the first literal that equals an earlier one.
fn next_merge(alloc: Global, lines: &[Line]) -> Mem<Option<Line>>
    requires { IsSomeAnd (last_clause lines.now) (λ c. length lines.now + length c.literals < 2 ^ 32) }
    ensures { IfOk result (λ found. MatchOption found ((after : AList ALine) → ¬ MergesOnce lines.now after)
        (λ line. MergesOnce lines.now (lines.now ++ line ∷ []))) }
{
    let c = &lines[lines.len() - 1].clause;
    match first_repeated(c.literals.as_slice()) {
        Some(lit) => {
            let clause = copy_without(alloc, c, lit)?;
            let of = lines.len() as u32;
            Ok(Some(Line {
                step: Step::Merge { of, lit },
                clause,
            }))
        }
        None => Ok(None),
    }
}

/// Removes literals of the last clause that equal an earlier one, the first of them first, with a line for each.
pub fn merge_all(alloc: Global, lines: &mut List<Line>) -> Mem<()>
    requires { IsSomeAnd (last_clause lines.old) (λ c. length lines.old + length c.literals < 2 ^ 32) }
    ensures merges { OnOk result (Exhausts MergesOnce lines.old lines.new) }
    ensures short { OnOk result (IsSomeAnd (last_clause lines.new) (λ c. length lines.new + length c.literals < 2 ^ 32)) }
{
    while let Some(line) = next_merge(alloc, lines.as_slice())? {
        lines.push(line)?;
    }
    Ok(())
}
