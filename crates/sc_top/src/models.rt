//! The answer to a problem of whose clauses a model is sought.

ghost use Rattle.std.specs.Prelude.{◌≡◌, ◌≢◌, ◌≤◌, ◌⊎◌, ℕ, List as AList, Ok, IfOk, IfSome, length};
ghost use Rattle.sc_top.specs.declared.answer.Answer.TheVariants as answer;
ghost use Rattle.sc_top.specs.Answers.{status_of};
ghost use Rattle.sc_top.specs.Runs.{spelled_problem};
ghost use Rattle.sc_find_laws.specs.Meaning.{task_of};
ghost use Rattle.sc_smallest.specs.Smallest.{IsSmallest};
ghost use Rattle.sc_top.specs.Models.{IsModelled, MayBeSearched, IsWithin};
ghost use Rattle.sc_top.specs.Smallest.{sought_of, IsSmallestFound};
ghost use Rattle.sc_top.specs.Sought.{IsFoundIn, IsModelAnswer};

use crate::answer::{Answer, Modelled, refusal};
use sc_find::{FoundAll, Job, JobError};
use sc_input::{Problem, read_problem};
use sc_smallest::{Searchers, Smallest, SmallestError, find_smallest_by};
use sc_term::{List, Mem, OutOfMemory};
use sc_text_print::print_model;
use std::alloc::Global;

/// What becomes of the search over the pieces of the job, which is that of the problem's clauses.
#[tactic(auto, using(crate::proofs::ModelAnswers::has_text, crate::proofs::ModelAnswers::has_none))]
fn search<W: Searchers>(
    searchers: &W,
    alloc: Global,
    problem: &Problem,
    job: &Job,
    size: u8,
    nodes: u64,
) -> Mem<Modelled>
    requires ready { W.ready searchers.now }
    requires task { job.now ≡ task_of problem.now size }
    requires within { MayBeSearched problem.now size }
    ensures modelled { IfOk result (IsModelled problem.now size nodes) }
    ensures within { IfOk result (IsWithin problem.now size) }
{
    problem.keeps();
    match searchers.search(alloc, job, nodes)? {
        FoundAll::Model(tables) => {
            // It tells what tables keep: an entry in range for each place.
            let _ = tables.size();
            let text = print_model(alloc, problem.sig(), &tables)?;
            Ok(Modelled::Found {
                text: List::from_vec(text),
            })
        }
        FoundAll::None => Ok(Modelled::NoModel { size }),
        FoundAll::Spent { piece } => Ok(Modelled::Spent { piece }),
    }
}

/// What becomes of the search for a model of the problem's clauses.
fn modelled<W: Searchers>(
    searchers: &W,
    alloc: Global,
    problem: &Problem,
    size: u8,
    nodes: u64,
) -> Mem<Modelled>
    requires ready { W.ready searchers.now }
    requires some { 1 ≤ size }
    requires few { size ≤ 8 }
    ensures modelled { IfOk result (IsModelled problem.now size nodes) }
    ensures within { IfOk result (IsWithin problem.now size) }
{
    problem.keeps();
    match Job::new(alloc, problem.sig(), problem.inputs(), size) {
        Ok(job) => search(searchers, alloc, problem, &job, size, nodes),
        Err(JobError::Cells { count }) => Ok(Modelled::TooManyCells { count }),
        Err(JobError::Instances { count }) => Ok(Modelled::TooManyInstances { count }),
        Err(JobError::OutOfMemory) => Err(OutOfMemory),
    }
}

/// What is told of what the searches at the sizes found.
#[tactic(auto, using(crate::proofs::ModelAnswers::smallest_text, crate::proofs::ModelAnswers::smallest_none))]
fn told_of(alloc: Global, problem: &Problem, from: u8, to: u8, found: Smallest) -> Mem<Modelled>
    ensures { (nodes : ℕ) → IsSmallest (sought_of problem.now) from to nodes found → IfOk result (IsSmallestFound problem.now from to nodes) }
{
    problem.keeps();
    match found {
        Smallest::Model(tables) => {
            // It tells what tables keep: an entry in range for each place.
            let _ = tables.size();
            let text = print_model(alloc, problem.sig(), &tables)?;
            Ok(Modelled::Found {
                text: List::from_vec(text),
            })
        }
        Smallest::None => Ok(Modelled::NoModelOfSizes { from, to }),
        Smallest::Spent { size, piece } => Ok(Modelled::SpentSize { size, piece }),
    }
}

/// What becomes of the search for the smallest model of the problem's clauses among these sizes.
fn smallest<W: Searchers>(
    searchers: &W,
    alloc: Global,
    problem: &Problem,
    from: u8,
    to: u8,
    nodes: u64,
) -> Mem<Modelled>
    requires ready { W.ready searchers.now }
    requires some { 1 ≤ from }
    requires ordered { from ≤ to }
    requires few { to ≤ 8 }
    ensures { IfOk result (IsSmallestFound problem.now from to nodes) }
{
    problem.keeps();
    match find_smallest_by(
        searchers,
        alloc,
        problem.sig(),
        problem.inputs(),
        from,
        to,
        nodes,
    ) {
        Ok(found) => told_of(alloc, problem, from, to, found),
        Err(SmallestError::Cells { count }) => Ok(Modelled::TooManyCells { count }),
        Err(SmallestError::Instances { count }) => Ok(Modelled::TooManyInstances { count }),
        Err(SmallestError::OutOfMemory) => Err(OutOfMemory),
    }
}

/// What becomes of the search at the size, or at the sizes from it up to the last one, where that is given.
fn sought<W: Searchers>(
    searchers: &W,
    alloc: Global,
    problem: &Problem,
    size: u8,
    upto: Option<u8>,
    nodes: u64,
) -> Mem<Modelled>
    requires ready { W.ready searchers.now }
    requires some { 1 ≤ size }
    requires few { size ≤ 8 }
    requires not_below { IfSome upto (λ to. size ≤ to) }
    requires greatest_few { IfSome upto (λ to. to ≤ 8) }
    ensures { IfOk result (IsFoundIn problem.now size upto nodes) }
{
    match upto {
        Some(to) => smallest(searchers, alloc, problem, size, to, nodes),
        None => modelled(searchers, alloc, problem, size, nodes),
    }
}

/// The answer to a problem that was read.
fn model_problem<W: Searchers>(
    searchers: &W,
    alloc: Global,
    size: u8,
    upto: Option<u8>,
    nodes: u64,
    problem: &Problem,
) -> Answer
    requires ready { W.ready searchers.now }
    requires some { 1 ≤ size }
    requires few { size ≤ 8 }
    requires not_below { IfSome upto (λ to. size ≤ to) }
    requires greatest_few { IfSome upto (λ to. to ≤ 8) }
    ensures decided { (bytes : AList ℕ) → spelled_problem bytes ≡ Ok problem.now → IsModelAnswer size upto nodes bytes result ⊎ (result ≡ answer.OutOfMemory) }
    ensures words { status_of result ≢ 4 }
{
    match sought(searchers, alloc, problem, size, upto, nodes) {
        Ok(modelled) => Answer::Model(modelled),
        Err(_) => Answer::OutOfMemory,
    }
}

/// The answer to the bytes, of whose clauses a model of that size is sought with that budget for each piece, or the
/// smallest model of the sizes up to the last one, where that is given.
pub fn model_bytes<W: Searchers>(
    searchers: &W,
    alloc: Global,
    size: u8,
    upto: Option<u8>,
    nodes: u64,
    bytes: &[u8],
) -> Answer
    requires ready { W.ready searchers.now }
    requires some { 1 ≤ size }
    requires few { size ≤ 8 }
    requires not_below { IfSome upto (λ to. size ≤ to) }
    requires greatest_few { IfSome upto (λ to. to ≤ 8) }
    requires short { length bytes.now ≤ 4194304 }
    ensures decided { IsModelAnswer size upto nodes bytes.now result ⊎ (result ≡ answer.OutOfMemory) }
    ensures words { status_of result ≢ 4 }
{
    match read_problem(alloc, bytes) {
        Ok(problem) => model_problem(searchers, alloc, size, upto, nodes, &problem),
        Err(error) => refusal(error),
    }
}
