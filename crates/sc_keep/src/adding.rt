//! The lines of a clause's part in a joint instance.

ghost use Rattle.std.specs.Prelude.{◌≡◌, ◌≢◌, ◌<◌, ◌+◌, ◌^◌, ℕ, length, IfOk, MatchOption};
ghost use Rattle.sc_term.specs.Clause as spec;
ghost use Rattle.sc_steps.specs.Derivation.{IsInputAt};
ghost use Rattle.sc_keep.specs.Adding.{AddedPart, IsPartLine};

use sc_term::{Line, List, Mem, Numbered, Step, Term, copy, instance, same};
use std::alloc::Global;

/// The line by which the clause of line `of` becomes its instance by the terms, where that is another clause.
fn part_line(alloc: Global, p: &Numbered, terms: List<Term>, of: u32) -> Mem<Option<Line>>
    requires width { length terms ≡ spec.width p.now.clause }
    requires within { spec.IsWithinLimits (spec.instance terms p.now.clause) }
    ensures { IfOk result (λ found. MatchOption found (spec.instance terms p.now.clause ≡ p.now.clause)
        (λ line. IsPartLine p.now.clause terms of line)) }
{
    match instance(alloc, &p.clause, &terms)? {
        Some(part) => {
            if same(&part, &p.clause) {
                return Ok(None);
            }
            Ok(Some(Line {
                step: Step::Instance { of, terms },
                clause: part,
            }))
        }
        // The instance is within the limits, so there is one.
        None => Ok(None),
    }
}

/// Adds the lines of the clause's part, which the terms give. The number of the part's line.
pub fn add_part(alloc: Global, lines: &mut List<Line>, p: &Numbered, terms: List<Term>) -> Mem<u32>
    requires few { length lines.old + 2 < 2 ^ 32 }
    requires width { length terms ≡ spec.width p.now.clause }
    requires within { spec.IsWithinLimits (spec.instance terms p.now.clause) }
    requires canonical { spec.IsCanonical p.now.clause }
    requires fresh { (j : ℕ) → ¬ IsInputAt lines.old p.now.number j }
    ensures { IfOk result (λ k. AddedPart lines.old p.now (spec.instance terms p.now.clause) lines.new k) }
{
    lines.push(Line {
        step: Step::Input(p.number),
        clause: copy(alloc, &p.clause)?,
    })?;
    let of = lines.len() as u32;
    match part_line(alloc, p, terms, of)? {
        Some(line) => {
            lines.push(line)?;
            Ok(of + 1)
        }
        None => Ok(of),
    }
}
