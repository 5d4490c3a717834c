//! The derivations of some clauses, put together to one list of lines.

ghost use Rattle.std.specs.Prelude.{◌≡◌, ◌<◌, ◌+◌, ◌-◌, ◌^◌, ◌∷◌, [], ◌++◌, length, IfOk, OnOk};
ghost use Rattle.sc_steps.specs.Splice as spec;
ghost use Rattle.sc_steps.specs.Splice.{joined, spliced};
ghost use Rattle.sc_steps.specs.Walk.{last_in};

use crate::derivations::derivation::Derived;
use crate::derivations::named::{derived_at, named_by};
use crate::lists::numbered;
use sc_term::{Clause, Line, List, Mem, OutOfMemory, Step, copy, copy_terms};
use std::alloc::Global;
use std::collections::BTreeMap;

/// The most lines of a list, so that the line after the last has a number.
const MAX_LINES: usize = 4_294_967_294;

/// What line k of a derivation has become.
fn line_of(became: &[u32], k: usize) -> u32
    ensures { result ≡ spec.line_of became.now k }
{
    match became.get(k.saturating_sub(1)) {
        Some(line) => *line,
        None => 0,
    }
}

/// The step, with the lines that it names as they have become.
fn moved(alloc: Global, became: &[u32], step: &Step) -> Mem<Step>
    ensures { IfOk result (λ s. s ≡ spec.moved became.now step.now) }
{
    match step {
        Step::Input(n) => Ok(Step::Input(*n)),
        Step::Instance { of, terms } => {
            let terms = copy_terms(alloc, terms.as_slice())?;
            Ok(Step::Instance {
                of: line_of(became, *of as usize),
                terms,
            })
        }
        Step::Resolve {
            left,
            left_lit,
            right,
            right_lit,
        } => Ok(Step::Resolve {
            left: line_of(became, *left as usize),
            left_lit: *left_lit,
            right: line_of(became, *right as usize),
            right_lit: *right_lit,
        }),
        Step::Merge { of, lit } => Ok(Step::Merge {
            of: line_of(became, *of as usize),
            lit: *lit,
        }),
        Step::Para {
            from,
            from_lit,
            side,
            into,
            into_lit,
            path,
        } => {
            let path = List::from_slice(alloc, path.as_slice())?;
            Ok(Step::Para {
                from: line_of(became, *from as usize),
                from_lit: *from_lit,
                side: *side,
                into: line_of(became, *into as usize),
                into_lit: *into_lit,
                path,
            })
        }
        Step::Flip { of, lit } => Ok(Step::Flip {
            of: line_of(became, *of as usize),
            lit: *lit,
        }),
    }
}

/// The line joins the proof. The answer is its number.
fn push_line(lines: &mut List<Line>, line: Line) -> Mem<u32>
    ensures number { IfOk result (λ k. k ≡ length lines.old + 1) }
    ensures list { OnOk result (lines.new ≡ lines.old ++ line ∷ []) }
    ensures few { OnOk result (length lines.old + 1 < 2 ^ 32 - 1) }
{
    if lines.len() >= MAX_LINES {
        return Err(OutOfMemory);
    }
    lines.push(line)?;
    Ok(lines.len() as u32)
}

/// The last line of clause n in the proof, 0 where it has none.
fn last_line(last: &BTreeMap<u32, u32>, n: u32) -> u32
    ensures { result ≡ last_in last.now n }
{
    match last.get(&n) {
        Some(line) => *line,
        None => 0,
    }
}

/// A line of a derivation becomes one of the proof, or the last line of the clause that it names.
fn join_line(
    alloc: Global,
    last: &BTreeMap<u32, u32>,
    lines: &mut List<Line>,
    became: &mut List<u32>,
    line: &Line,
) -> Mem<()>
    requires few { length lines.old < 2 ^ 32 - 1 }
    ensures joins { OnOk result (joined lines.new became.new ≡ spec.join_line (last_in last.now) (joined lines.old became.old) line.now) }
    ensures few { OnOk result (length lines.new < 2 ^ 32 - 1) }
{
    let k = match named_by(&line.step) {
        Some(n) => last_line(last, n),
        None => {
            let step = moved(alloc, became.as_slice(), &line.step)?;
            let clause = copy(alloc, &line.clause)?;
            push_line(lines, Line { step, clause })?
        }
    };
    became.push(k)?;
    Ok(())
}

/// The lines of a derivation join the proof. The answer is what they have become.
fn join_lines(
    alloc: Global,
    last: &BTreeMap<u32, u32>,
    lines: &mut List<Line>,
    derivation: &[Line],
) -> Mem<List<u32>>
    requires few { length lines.old < 2 ^ 32 - 1 }
    ensures joins { IfOk result (λ became. joined lines.new became ≡ spec.join_lines (last_in last.now) lines.old derivation.now) }
    ensures few { OnOk result (length lines.new < 2 ^ 32 - 1) }
{
    let mut became = List::new(alloc);
    for line in derivation {
        join_line(alloc, last, lines, &mut became, line)?;
    }
    Ok(became)
}

/// A derived clause gives the lines of its derivation.
fn join_derived(
    alloc: Global,
    n: u32,
    derivation: &[Line],
    lines: &mut List<Line>,
    last: &mut BTreeMap<u32, u32>,
) -> Mem<()>
    requires few { length lines.old < 2 ^ 32 - 1 }
    ensures joins { OnOk result (spliced lines.new (last_in last.new) ≡ spec.join_derived (spliced lines.old (last_in last.old)) n derivation.now) }
    ensures few { OnOk result (length lines.new < 2 ^ 32 - 1) }
{
    let became = join_lines(alloc, last, lines, derivation)?;
    let k = line_of(became.as_slice(), derivation.len());
    last.insert(n, k)?;
    Ok(())
}

/// An input clause gives its line.
fn join_input(
    alloc: Global,
    n: u32,
    c: &Clause,
    lines: &mut List<Line>,
    last: &mut BTreeMap<u32, u32>,
) -> Mem<()>
    requires few { length lines.old < 2 ^ 32 - 1 }
    ensures joins { OnOk result (spliced lines.new (last_in last.new) ≡ spec.join_input (spliced lines.old (last_in last.old)) n c.now) }
    ensures few { OnOk result (length lines.new < 2 ^ 32 - 1) }
{
    let clause = copy(alloc, c)?;
    let line = Line {
        step: Step::Input(n),
        clause,
    };
    let k = push_line(lines, line)?;
    last.insert(n, k)?;
    Ok(())
}

/// A clause gives its lines.
fn join_clause(
    alloc: Global,
    inputs: &[Clause],
    derived: &[Derived],
    n: u32,
    lines: &mut List<Line>,
    last: &mut BTreeMap<u32, u32>,
) -> Mem<()>
    requires few { length lines.old < 2 ^ 32 - 1 }
    ensures joins { OnOk result (spliced lines.new (last_in last.new) ≡ spec.join_clause inputs.now derived.now (spliced lines.old (last_in last.old)) n) }
    ensures few { OnOk result (length lines.new < 2 ^ 32 - 1) }
{
    match numbered(inputs, n) {
        Some(c) => join_input(alloc, n, c, lines, last),
        None => match derived_at(inputs, derived, n) {
            Some(d) => join_derived(alloc, n, d.lines.as_slice(), lines, last),
            None => Ok(()),
        },
    }
}

/// The lines of these clauses, in this order (`join_clauses`).
pub fn join_clauses(
    alloc: Global,
    inputs: &[Clause],
    derived: &[Derived],
    ns: &[u32],
) -> Mem<List<Line>>
    ensures joins { IfOk result (λ lines. lines ≡ (spec.join_clauses inputs.now derived.now ns.now).lines) }
    ensures few { IfOk result (λ lines. length lines < 2 ^ 32 - 1) }
{
    let mut lines = List::new(alloc);
    let mut last = BTreeMap::new(alloc);
    for n in ns {
        join_clause(alloc, inputs, derived, *n, &mut lines, &mut last)?;
    }
    Ok(lines)
}
