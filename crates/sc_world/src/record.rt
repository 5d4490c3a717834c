//! The record of a run.

ghost use Rattle.std.specs.Prelude.{◌≡◌, ◌≤◌, [], ◌∷◌, Some, true, IfOk, length, map};
ghost use Rattle.sc_interp.specs.declared.plain.VersionName.{VersionName as AName};
ghost use Rattle.sc_interp.specs.Versions.{ClaimedStructure as AVersion};
ghost use Rattle.sc_core_rules.specs.Selection as selection;
ghost use Rattle.sc_core_rules.specs.Selection.{IsGuide};
ghost use Rattle.sc_text_run_rules.specs.RunValue.{version_value, run_value};
ghost use Rattle.sc_text_run_rules.specs.declared.run.FinderEnd.{FinderEnd as AnEnd};
ghost use Rattle.sc_worker.specs.declared.plan.Plan.{Plan as APlan};
ghost use Rattle.sc_worker.specs.Choosing.{at_first};
ghost use Rattle.sc_worker.specs.Plans.{IsPlan};
ghost use Rattle.sc_world.specs.Printed.{all_printed};
ghost use Rattle.sc_world.specs.Recorded.{AreMarks, IsRecord, TellsEnd};
ghost use Rattle.sc_world.specs.Steps.{IsEnd};
ghost use Rattle.sc_world.specs.Underway.{IsUnderway, HasStarted};

use crate::copies::{copy_given_rows, copy_kept_rows};
use crate::lines::mark_rows;
use crate::printed::lists_text;
use crate::running::{end_of, run_to_its_end};
use sc_core::Prover;
use sc_core_rules::Outcome;
use sc_input_rules::Problem;
use sc_interp::Version;
use sc_term::{Line, List, Mem};
use sc_text_run_rules::{FinderEnd, MarkRow, RunText};
use sc_worker::{Chooser, Plan};
use std::alloc::Global;

/// A run that has ended: the versions that each finder published, and the run as it is written.
#[derive(Debug, Drop)]
pub struct Ended {
    pub shelves: List<List<Version>>,
    pub run: RunText,
}

/// In every how many turns the oldest clause is given.
fn ratio(problem: &Problem) -> u32
    ensures { result ≡ selection.ratio problem.now }
{
    problem.keeps();
    problem.params().pick_given_ratio + 1
}

/// The end of the one finder.
fn one_end(alloc: Global, chooser: &Chooser<'_>) -> Mem<List<FinderEnd>>
    ensures { IfOk result (λ all. (end : AnEnd) × IsEnd chooser.now end × (all ≡ end ∷ [])) }
{
    let end = end_of(chooser);
    let mut all = List::new(alloc);
    all.push(end)?;
    Ok(all)
}

/// The marks of the lines in the guide of what the prover sees.
fn marks_in_guide(alloc: Global, prover: &Prover, lines: &[Line]) -> Mem<List<MarkRow>>
    ensures { IfOk result (λ rows. (name : AName) × (version : AVersion) × IsGuide prover.now.problem prover.now.seen name version × AreMarks name version lines.now rows) }
{
    let rows = mark_rows(alloc, prover.guide_name(), prover.guide(), lines)?;
    Ok(rows)
}

/// The proof of the run with the marks of its lines in the guide, where the outcome is a proof, and otherwise nothing.
pub fn proof_and_marks(
    alloc: Global,
    prover: &Prover,
    outcome: Outcome,
) -> Mem<(List<Line>, List<MarkRow>)>
    requires whole { prover.now.whole ≡ true }
    requires ended { prover.now.run.ended ≡ Some outcome }
    ensures { IfOk result (λ told. TellsEnd prover.now.problem prover.now.seen prover.now.run outcome told.0 told.1) }
{
    match outcome {
        Outcome::Proof => {
            let lines = prover.proof()?;
            let marks = marks_in_guide(alloc, prover, lines.as_slice())?;
            Ok((lines, marks))
        }
        Outcome::SosEmpty => Ok((List::new(alloc), List::new(alloc))),
        Outcome::GivenLimit(_) => Ok((List::new(alloc), List::new(alloc))),
        Outcome::KeptLimit(_) => Ok((List::new(alloc), List::new(alloc))),
        Outcome::WorkLimit(_) => Ok((List::new(alloc), List::new(alloc))),
    }
}

/// The rows of a run that ended so, with these ends of the finders, these lines and marks.
pub fn rows(
    alloc: Global,
    problem: &Problem,
    prover: &Prover,
    ends: List<FinderEnd>,
    outcome: Outcome,
    told: (List<Line>, List<MarkRow>),
) -> Mem<RunText>
    ensures ratio { IfOk result (λ run. run.ratio ≡ selection.ratio problem.now) }
    ensures lists { IfOk result (λ run. map (map version_value) run.lists ≡ all_printed prover.now.seen) }
    ensures given { IfOk result (λ run. run.given ≡ prover.now.run.given) }
    ensures kept { IfOk result (λ run. run.kept ≡ prover.now.run.book.kept) }
    ensures ends { IfOk result (λ run. run.ends ≡ ends) }
    ensures outcome { IfOk result (λ run. run.outcome ≡ outcome) }
    ensures proof { IfOk result (λ run. run.proof ≡ told.0) }
    ensures marks { IfOk result (λ run. run.marks ≡ told.1) }
{
    let (proof, marks) = told;
    Ok(RunText {
        ratio: ratio(problem),
        lists: lists_text(alloc, prover.seen())?,
        given: copy_given_rows(alloc, prover.given().as_slice())?,
        kept: copy_kept_rows(alloc, prover.kept().as_slice())?,
        ends,
        outcome,
        proof,
        marks,
    })
}

/// The record of a run that has ended, whatever the plan is by which its chooser began.
fn record(
    alloc: Global,
    problem: &Problem,
    prover: &Prover,
    chooser: &Chooser<'_>,
    outcome: Outcome,
) -> Mem<RunText>
    requires whole { prover.now.whole ≡ true }
    requires ended { prover.now.run.ended ≡ Some outcome }
    ensures { IfOk result (λ run. (plan : APlan) → IsUnderway (at_first problem.now plan 1) prover.now chooser.now → IsRecord problem.now plan prover.now.seen (run_value run)) }
{
    prover.keeps();
    let told = proof_and_marks(alloc, prover, outcome)?;
    let ends = one_end(alloc, chooser)?;
    let run = rows(alloc, problem, prover, ends, outcome, told)?;
    Ok(run)
}

/// The record of the run that the prover and the chooser go on to its end, whatever the plan is by which the chooser began.
fn finish(
    alloc: Global,
    problem: &Problem,
    prover: &mut Prover,
    chooser: &mut Chooser<'_>,
) -> Mem<RunText>
    requires few { length chooser.old.left ≤ 128 }
    requires underway { IsUnderway chooser.old prover.old chooser.old }
    ensures { IfOk result (λ run. (plan : APlan) → chooser.old ≡ at_first problem.now plan 1 → IsRecord problem.now plan prover.new.seen (run_value run)) }
{
    let outcome = run_to_its_end(alloc, prover, chooser)?;
    let run = record(alloc, problem, prover, chooser, outcome)?;
    Ok(run)
}

/// The record of the run of a prover that has started, with a finder of this plan.
fn with_finder(alloc: Global, problem: &Problem, plan: &Plan, prover: &mut Prover) -> Mem<RunText>
    requires plan { IsPlan plan.now }
    requires started { HasStarted problem.now prover.old }
    ensures { IfOk result (λ run. IsRecord problem.now plan.now prover.new.seen (run_value run)) }
{
    let mut chooser = Chooser::new(alloc, problem, plan, 1)?;
    let run = finish(alloc, problem, prover, &mut chooser)?;
    Ok(run)
}

/// The run with the versions that the prover saw.
pub fn with_shelves(prover: Prover, run: RunText) -> Ended
    ensures shelves { result.shelves ≡ prover.seen }
    ensures run { result.run ≡ run }
{
    Ended {
        shelves: prover.into_seen(),
        run,
    }
}

/// The run of the problem with one finder that works between the turns, and what the finder published. After each turn
/// after which the run goes on, the finder works its next candidate, if it has one and there are at most 4,096 cells, and
/// the next turn sees all that it published (`IsRecord`). The budget, the size and the number of candidates are those of
/// the plan; its number of finders plays no part.
pub fn prove_alone(alloc: Global, problem: &Problem, plan: &Plan) -> Mem<Ended>
    requires plan { IsPlan plan.now }
    ensures { IfOk result (λ ended. IsRecord problem.now plan.now ended.shelves (run_value ended.run)) }
{
    let mut prover = Prover::new(alloc, problem, 1)?;
    let run = with_finder(alloc, problem, plan, &mut prover)?;
    Ok(with_shelves(prover, run))
}
