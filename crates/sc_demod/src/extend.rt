//! One more line.

ghost use Rattle.std.specs.Prelude.{◌≡◌, ◌<◌, ◌≤◌, ◌+◌, ◌-◌, ◌^◌, ◌∷◌, [], ◌++◌, length, IfOk, OnErr};
ghost use Rattle.sc_term.specs.Clause.{weight, depth};

use sc_steps::Made;
use sc_term::{Clause, Line, List, Mem, OutOfMemory, Step, copy};
use std::alloc::Global;

/// How many lines there are, which is the number of the last one. Where three more would make 4,294,967,295 or more,
/// that is answered as want of memory, by design: a line's number is a u32.
pub fn count_lines(lines: &List<Line>) -> Mem<u32>
    ensures value { IfOk result (λ count. (count ≡ length lines.now) × (length lines.now + 3 < 2 ^ 32 - 1)) }
    ensures refused { OnErr result (2 ^ 32 - 1 ≤ length lines.now + 3) }
{
    if lines.len() >= u32::MAX as usize - 3 {
        return Err(OutOfMemory);
    }
    Ok(lines.len() as u32)
}

/// The clause with the lines, and the line that has it by the step.
pub fn extend(alloc: Global, lines: List<Line>, step: Step, clause: Clause) -> Mem<Made>
    requires light { weight clause ≤ 10000 }
    requires shallow { depth clause ≤ 256 }
    ensures clause { IfOk result (λ made. made.clause ≡ clause) }
    ensures lines { IfOk result (λ made. made.lines ≡ lines ++ record { step = step; clause = clause } ∷ []) }
{
    let mut lines = lines;
    let copied = copy(alloc, &clause)?;
    lines.push(Line {
        step,
        clause: copied,
    })?;
    Ok(Made { clause, lines })
}
