//! The answer to a problem that is to be proved.

ghost use Rattle.std.specs.Prelude.{◌≡◌, ◌≢◌, ◌≤◌, ◌⊎◌, ℕ, List as AList, Ok, IfOk, length};
ghost use Rattle.sc_top.specs.declared.answer.Answer.TheVariants.{OutOfMemory};
ghost use Rattle.sc_top.specs.Answers.{status_of};
ghost use Rattle.sc_text_run_rules.specs.RunValue.{run_value};
ghost use Rattle.sc_worker.specs.declared.plan.Plan.{Plan as APlan};
ghost use Rattle.sc_worker.specs.Plans.{IsPlan};
ghost use Rattle.sc_world.specs.Beside.{IsRecorded};
ghost use Rattle.sc_top.specs.Runs.{spelled_problem, IsProveAnswer};

use crate::answer::{Answer, refusal};
use sc_input::{Problem, read_problem};
use sc_term::{List, Mem};
use sc_text_print::print_run;
use sc_worker::{Gate, Plan};
use sc_world::{Ended, prove_alone, prove_with_finders};
use std::alloc::Global;
use std::sync::Wait;
use std::thread::Threads;

/// The text of the run that has ended, whatever the plan is by which it went.
fn ran(alloc: Global, problem: &Problem, ended: &Ended) -> Mem<Answer>
    ensures decided { IfOk result (λ answer. (plan : APlan) (bytes : AList ℕ) → IsRecorded problem.now plan ended.now.shelves (run_value ended.now.run) → spelled_problem bytes ≡ Ok problem.now → IsProveAnswer plan bytes answer) }
    ensures words { IfOk result (λ answer. status_of answer ≢ 4) }
{
    let text = print_run(alloc, problem.sig(), &ended.run)?;
    Ok(Answer::Ran {
        outcome: ended.run.outcome,
        text: List::from_vec(text),
    })
}

/// The text of the run of the problem by the plan, with a finder that works between the turns.
fn run(alloc: Global, plan: &Plan, problem: &Problem) -> Mem<Answer>
    requires plan { IsPlan plan.now }
    requires alone { plan.now.finders ≡ 0 }
    ensures decided { IfOk result (λ answer. (bytes : AList ℕ) → spelled_problem bytes ≡ Ok problem.now → IsProveAnswer plan.now bytes answer) }
    ensures words { IfOk result (λ answer. status_of answer ≢ 4) }
{
    let ended = prove_alone(alloc, problem, plan)?;
    let answer = ran(alloc, problem, &ended)?;
    Ok(answer)
}

/// The text of the run of the problem beside the plan's finders.
fn run_beside<R: Threads + Wait + Sync, G: Gate>(
    rt: &R,
    alloc: Global,
    plan: &Plan,
    problem: &Problem,
    gate: &G,
) -> Mem<Answer>
    requires plan { IsPlan plan.now }
    requires some { 1 ≤ plan.now.finders }
    ensures decided { IfOk result (λ answer. (bytes : AList ℕ) → spelled_problem bytes ≡ Ok problem.now → IsProveAnswer plan.now bytes answer) }
    ensures words { IfOk result (λ answer. status_of answer ≢ 4) }
{
    let beside = prove_with_finders(rt, alloc, problem, plan, gate)?;
    let answer = ran(alloc, problem, &beside.ended)?;
    Ok(answer)
}

/// The answer to a problem that was read.
fn prove_problem(alloc: Global, plan: &Plan, problem: &Problem) -> Answer
    requires plan { IsPlan plan.now }
    requires alone { plan.now.finders ≡ 0 }
    ensures decided { (bytes : AList ℕ) → spelled_problem bytes ≡ Ok problem.now → IsProveAnswer plan.now bytes result ⊎ (result ≡ OutOfMemory) }
    ensures words { status_of result ≢ 4 }
{
    match run(alloc, plan, problem) {
        Ok(answer) => answer,
        Err(_) => Answer::OutOfMemory,
    }
}

/// The same beside the plan's finders.
fn prove_problem_beside<R: Threads + Wait + Sync, G: Gate>(
    rt: &R,
    alloc: Global,
    plan: &Plan,
    problem: &Problem,
    gate: &G,
) -> Answer
    requires plan { IsPlan plan.now }
    requires some { 1 ≤ plan.now.finders }
    ensures decided { (bytes : AList ℕ) → spelled_problem bytes ≡ Ok problem.now → IsProveAnswer plan.now bytes result ⊎ (result ≡ OutOfMemory) }
    ensures words { status_of result ≢ 4 }
{
    match run_beside(rt, alloc, plan, problem, gate) {
        Ok(answer) => answer,
        Err(_) => Answer::OutOfMemory,
    }
}

/// The answer to the bytes, whose problem is to be proved by the plan, which asks for no finder beside the prover.
pub fn prove_bytes(alloc: Global, plan: &Plan, bytes: &[u8]) -> Answer
    requires plan { IsPlan plan.now }
    requires alone { plan.now.finders ≡ 0 }
    requires short { length bytes.now ≤ 4194304 }
    ensures decided { IsProveAnswer plan.now bytes.now result ⊎ (result ≡ OutOfMemory) }
    ensures words { status_of result ≢ 4 }
{
    match read_problem(alloc, bytes) {
        Ok(problem) => prove_problem(alloc, plan, &problem),
        Err(error) => refusal(error),
    }
}

/// The answer to the bytes, whose problem is to be proved beside the plan's finders.
pub fn prove_bytes_beside<R: Threads + Wait + Sync, G: Gate>(
    rt: &R,
    alloc: Global,
    plan: &Plan,
    bytes: &[u8],
    gate: &G,
) -> Answer
    requires plan { IsPlan plan.now }
    requires some { 1 ≤ plan.now.finders }
    requires short { length bytes.now ≤ 4194304 }
    ensures decided { IsProveAnswer plan.now bytes.now result ⊎ (result ≡ OutOfMemory) }
    ensures words { status_of result ≢ 4 }
{
    match read_problem(alloc, bytes) {
        Ok(problem) => prove_problem_beside(rt, alloc, plan, &problem, gate),
        Err(error) => refusal(error),
    }
}
