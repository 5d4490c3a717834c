//! The ladder of so many rungs, and the answer to a run of it.

ghost use Rattle.std.specs.Prelude.{◌≡◌, ◌≢◌, ◌≤◌, ◌<◌, ◌⊎◌, ◌++◌, Ok, IfOk, OnOk, length, get_or, []};
ghost use Rattle.sc_top.specs.declared.answer.Answer.TheVariants.{OutOfMemory};
ghost use Rattle.sc_top.specs.Answers.{status_of};
ghost use Rattle.sc_top.specs.Runs.{spelled_problem};
ghost use Rattle.sc_top.specs.Ladder.{rung, end_of, ladder, IsBenchAnswer};
ghost use Rattle.sc_text_run_rules.specs.RunValue.{run_value};

use crate::answer::{Answer, BenchRun, refusal};
use sc_input::{InputKind, Place, Problem, read_problem};
use sc_term::{MAX_INPUT_BYTES, Mem};
use sc_worker::Plan;
use sc_world::{Ended, prove_alone};
use std::alloc::Global;

/// What the words `prove --finders 0` ask for.
const PLAN: Plan = Plan {
    finders: 0,
    first_size: 2,
    nodes: 100_000,
    candidates: 128,
};

/// Adds the rung from predicate i to the next one.
fn add_rung(alloc: Global, i: u32, text: &mut Vec<u8>) -> Mem<()>
    requires { i < 1000 }
    ensures { OnOk result (text.new.items ≡ text.old.items ++ rung i) }
{
    let next = i + 1;
    let rung = format!(in alloc; "-p{i}(x) | p{next}(x).\n")?;
    text.extend_from_slice(rung.as_bytes())?;
    Ok(())
}

/// Adds the clause against the last predicate, and the set of support.
fn add_end(alloc: Global, rungs: u32, text: &mut Vec<u8>) -> Mem<()>
    ensures { OnOk result (text.new.items ≡ text.old.items ++ end_of rungs) }
{
    let end = format!(in alloc; "-p{rungs}(a).\nend_of_list.\nlist(sos).\np0(a).\nend_of_list.\n")?;
    text.extend_from_slice(end.as_bytes())?;
    Ok(())
}

/// The text of the ladder.
fn ladder(alloc: Global, rungs: u32) -> Mem<Vec<u8>>
    requires { rungs ≤ 1000 }
    ensures { IfOk result (λ text. text.items ≡ ladder rungs) }
{
    let mut text = Vec::new(alloc);
    text.extend_from_slice(b"set(binary_res).\nlist(usable).\n")?;
    for i in 0..rungs {
        add_rung(alloc, i, &mut text)?;
    }
    add_end(alloc, rungs, &mut text)?;
    Ok(text)
}

/// What is told of the run of the ladder that has ended.
fn told(rungs: u32, ended: &Ended) -> BenchRun
    ensures rungs { result.rungs ≡ rungs }
    ensures outcome { result.outcome ≡ ended.now.run.outcome }
    ensures given { result.given ≡ length ended.now.run.given }
    ensures kept { result.kept ≡ length ended.now.run.kept }
    ensures versions { result.versions ≡ length (get_or ended.now.shelves 0 []) }
    ensures lines { result.lines ≡ length ended.now.run.proof }
{
    let published = match ended.shelves.as_slice().first() {
        Some(list) => list.len(),
        None => 0,
    };
    BenchRun {
        rungs,
        outcome: ended.run.outcome,
        given: ended.run.given.len() as u64,
        kept: ended.run.kept.len() as u64,
        versions: published as u64,
        lines: ended.run.proof.len() as u64,
    }
}

/// What is told of the run of the problem that the ladder spells.
fn bench_problem(alloc: Global, rungs: u32, problem: &Problem) -> Answer
    ensures decided { spelled_problem (ladder rungs) ≡ Ok problem.now → IsBenchAnswer rungs result ⊎ (result ≡ OutOfMemory) }
    ensures words { status_of result ≢ 4 }
{
    match prove_alone(alloc, problem, &PLAN) {
        Ok(ended) => Answer::Benched(told(rungs, &ended)),
        Err(_) => Answer::OutOfMemory,
    }
}

/// What is told of the run of the problem that the text spells, which is the ladder's.
fn bench_text(alloc: Global, rungs: u32, text: &[u8]) -> Answer
    requires { text.now ≡ ladder rungs }
    ensures decided { IsBenchAnswer rungs result ⊎ (result ≡ OutOfMemory) }
    ensures words { status_of result ≢ 4 }
{
    if MAX_INPUT_BYTES < text.len() as u64 {
        return Answer::InputRefused(Place {
            at: MAX_INPUT_BYTES,
            kind: InputKind::TooLong,
        });
    }
    match read_problem(alloc, text) {
        Ok(problem) => bench_problem(alloc, rungs, &problem),
        Err(error) => refusal(error),
    }
}

/// What is told of the run of the ladder with so many rungs.
pub fn bench(alloc: Global, rungs: u32) -> Answer
    requires { rungs ≤ 1000 }
    ensures decided { IsBenchAnswer rungs result ⊎ (result ≡ OutOfMemory) }
    ensures words { status_of result ≢ 4 }
{
    match ladder(alloc, rungs) {
        Ok(text) => bench_text(alloc, rungs, &text),
        Err(_) => Answer::OutOfMemory,
    }
}
