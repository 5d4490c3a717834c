//! Every fate of a conclusion.

ghost use Rattle.std.specs.Prelude.{◌≡◌, ◌++◌, ◌<◌, ◌≤◌, ◌+◌, ◌^◌, IfOk, OnOk};
ghost use Rattle.sc_input_rules.specs.Problem.{Stated};
ghost use Rattle.sc_core_rules.specs.Book.{IsSound, live, next_number, with_derived};
ghost use Rattle.sc_core_rules.specs.Processing.{MeetsFate, Processes, only_fate};
ghost use Rattle.sc_core_rules.specs.Simplification.{Simplifies};
ghost use Rattle.sc_core_rules.specs.declared.fate.Fate.TheVariants.{Empty};
ghost use Rattle.sc_demod.specs.Standing.{ChecksWith};
ghost use Rattle.sc_keep.specs.Dropping.{IsDropped};
ghost use Rattle.sc_keep.specs.Lists.{AreReady, book_of};
ghost use Rattle.sc_keep.specs.Rivals.{IsFit};
ghost use Rattle.sc_keep.specs.State.{AreAllWithin};
ghost use Rattle.sc_keep.specs.Sweep.{HaveDistinctNumbers};

use crate::dropping::dropped;
use crate::keeping::{fate_alone, keep};
use crate::lists::{Lists, join};
use crate::live::Live;
use crate::simplify::simplify;
use sc_core_rules::{Fate, Processed};
use sc_input_rules::{Flags, Params};
use sc_steps::{Derived, Made};
use sc_term::{Line, List, Mem, Numbered};
use std::alloc::Global;

/// The conclusion, simplified by the demodulators and the live clauses (`Simplifies`).
fn simplified(alloc: Global, flags: Flags, params: Params, lists: &Lists, made: Made) -> Mem<Made>
    requires distinct { HaveDistinctNumbers (live (book_of lists.now)) }
    requires checks { ChecksWith (live (book_of lists.now) ++ lists.now.demods) made.lines }
    ensures { IfOk result (λ after. Simplifies flags params.demod_limit lists.now.demods (live (book_of lists.now)) made.lines after.lines) }
{
    let live = Live {
        usable: lists.usable.as_slice(),
        sos: lists.sos.as_slice(),
        passive: lists.passive.as_slice(),
    };
    let after = simplify(alloc, flags, params.demod_limit, &lists.demods, live, made)?;
    Ok(after)
}

/// The clause with its lines takes the number, and ends the run.
fn end_with(alloc: Global, lists: &mut Lists, n: Numbered, lines: List<Line>) -> Mem<Processed>
    ensures { IfOk result (λ out. (book_of lists.new ≡ with_derived (book_of lists.old) n.clause lines) × (out ≡ only_fate (Empty n.number))) }
{
    let Numbered { number, clause } = n;
    lists.derived.push(Derived { clause, lines })?;
    Ok(fate_alone(alloc, Fate::Empty(number)))
}

/// The fate of a simplified conclusion that isn't empty, where it is dropped.
fn dropped_from(
    alloc: Global,
    flags: Flags,
    params: Params,
    lists: &Lists,
    n: &Numbered,
) -> Mem<Option<Fate>>
    requires { params.max_weight ≤ 1000 }
    ensures { IfOk result (λ fate. IsDropped flags params (lists.now.usable ++ lists.now.sos ++ lists.now.passive) n.now.clause fate) }
{
    let live = Live {
        usable: lists.usable.as_slice(),
        sos: lists.sos.as_slice(),
        passive: lists.passive.as_slice(),
    };
    let fate = dropped(alloc, flags, params, live, &n.clause)?;
    Ok(fate)
}

/// The simplified conclusion `n` with its lines meets its fate.
fn meet_fate(
    alloc: Global,
    flags: Flags,
    params: Params,
    lists: &mut Lists,
    n: Numbered,
    lines: List<Line>,
    turn: u32,
) -> Mem<Processed>
    requires light { params.max_weight ≤ 1000 }
    requires ready { AreReady lists.old n.number }
    requires fit { IsFit n }
    requires few { n.number + 1 < 2 ^ 32 }
    ensures { IfOk result (λ out. (problem : Stated) → n.number ≡ next_number problem (book_of lists.old) → problem.flags ≡ flags → problem.params ≡ params
        → MeetsFate problem (book_of lists.old) n.clause lines turn (book_of lists.new) out) }
{
    if n.clause.literals.is_empty() {
        let out = end_with(alloc, lists, n, lines)?;
        return Ok(out);
    }
    match dropped_from(alloc, flags, params, lists, &n)? {
        Some(fate) => Ok(fate_alone(alloc, fate)),
        None => {
            join(alloc, lists, &n, lines, turn)?;
            let out = keep(alloc, flags, lists, &n)?;
            Ok(out)
        }
    }
}

/// Simplifies the conclusion and gives it its fate (`Processes`). `number` is the number that it takes if it is kept, and
/// `turn` the turn of the search. Its lines have to check over clauses of which those of the lists are some, by their
/// numbers. The lists are ready for a conclusion again then, and clauses that have a number are within the limits as
/// before. The answer is `OutOfMemory` too where its lines, those of its simplification and its literals together would be
/// 4,294,967,292 or more. After that answer a list may lack clauses that another has.
pub fn process_lines(
    alloc: Global,
    flags: Flags,
    params: Params,
    number: u32,
    lists: &mut Lists,
    made: Made,
    turn: u32,
) -> Mem<Processed>
    requires light { params.max_weight ≤ 1000 }
    requires checks { ChecksWith (live (book_of lists.old) ++ lists.old.demods) made.lines }
    requires ready { AreReady lists.old number }
    requires few { number + 1 < 2 ^ 32 }
    ensures processes { IfOk result (λ out. (problem : Stated) → number ≡ next_number problem (book_of lists.old) → problem.flags ≡ flags → problem.params ≡ params
        → Processes problem (book_of lists.old) made.lines turn (book_of lists.new) out) }
    ensures ready { OnOk result ((problem : Stated) → number ≡ next_number problem (book_of lists.old) → problem.flags ≡ flags → problem.params ≡ params
        → AreReady lists.new (next_number problem (book_of lists.new))) }
    ensures within { OnOk result ((problem : Stated) → number ≡ next_number problem (book_of lists.old) → problem.flags ≡ flags → problem.params ≡ params
        → IsSound problem (book_of lists.old) → AreAllWithin problem (book_of lists.old) → AreAllWithin problem (book_of lists.new)) }
{
    let made = simplified(alloc, flags, params, lists, made)?;
    let n = Numbered {
        number,
        clause: made.clause,
    };
    let out = meet_fate(alloc, flags, params, lists, n, made.lines, turn)?;
    Ok(out)
}
