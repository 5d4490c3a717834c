//! Orientation of equations.

ghost use Rattle.std.specs.Prelude.{◌≡◌, ◌<◌, ◌≤◌, ◌∷◌, [], List, true, IfOk, MatchOption};
ghost use Rattle.sc_term.specs.Clause as of;
ghost use Rattle.sc_term.specs.Proof.{AreSteps};
ghost use Rattle.sc_term.specs.Refuted.{equation};
ghost use Rattle.sc_term.specs.declared.Clause.{Clause as AClause};
ghost use Rattle.sc_core_rules.specs.Simplification.{IsUphill, Orients};
ghost use Rattle.sc_demod.specs.Orienting.{IsTurned};

use crate::equation::{equation, sides};
use crate::extend::{count_lines, extend};
use sc_steps::Made;
use sc_term::{Clause, Mem, Step, term_weight};
use std::alloc::Global;

/// The equation with its sides exchanged, where the clause is a positive unit equation whose right side weighs more.
fn turned(alloc: Global, c: &Clause) -> Mem<Option<Clause>>
    requires { of.weight c.now ≤ 10000 }
    ensures { IfOk result (λ o. MatchOption o (¬ IsUphill c.now) (λ d. IsTurned c.now d)) }
{
    match sides(c) {
        Some((left, right)) => {
            if term_weight(left) < term_weight(right) {
                Ok(Some(equation(alloc, right, left)?))
            } else {
                Ok(None)
            }
        }
        None => Ok(None),
    }
}

fn oriented(alloc: Global, made: Made) -> Mem<Made>
    ensures { IfOk result (λ after. Orients made.lines after.lines) }
{
    match turned(alloc, &made.clause)? {
        Some(clause) => {
            let of = count_lines(&made.lines)?;
            let lines = made.lines;
            extend(alloc, lines, Step::Flip { of, lit: 1 }, clause)
        }
        None => Ok(made),
    }
}

/// A positive unit equation whose right side weighs more is flipped, with a `flip` line, and any other clause left as
/// it is (`Orients`). Over clauses over which the lines check, the answer's lines check too. No line is
/// added to 4,294,967,292 or more, as their numbers are of u32: that is answered as want of memory.
pub fn orient(alloc: Global, made: Made) -> Mem<Made>
    ensures orients { IfOk result (λ after. Orients made.lines after.lines) }
    ensures checks { IfOk result (λ after. (clauses : List AClause) → AreSteps clauses made.lines → AreSteps clauses after.lines) }
{
    oriented(alloc, made)
}
