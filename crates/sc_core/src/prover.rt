//! The prover.

ghost use Rattle.std.specs.Prelude.{◌≡◌, ◌≢◌, ◌≤◌, ◌<◌, ◌^◌, ℕ, true, false, None, Some, Option as AnOption, IfOk, OnOk, OnErr, IfSome, IfNone, IsSomeAnd, option_map, length};
ghost use Rattle.sc_term.specs.Numbering.{numbered};
ghost use Rattle.sc_term.specs.Proof.{IsProof};
ghost use Rattle.sc_term.specs.Refuted.{IsRefuted};
ghost use Rattle.sc_steps.specs.Splice.{IsSplice};
ghost use Rattle.sc_interp.specs.Versions.{ClaimedStructure};
ghost use Rattle.sc_interp.specs.declared.plain.VersionName.{VersionName as AName};
ghost use Rattle.sc_guide.specs.Guided.{grown};
ghost use Rattle.sc_input_rules.specs.WellFormed.{IsProblem};
ghost use Rattle.sc_core_rules.specs.Book.{Book as ABook};
ghost use Rattle.sc_core_rules.specs.Start.{Starts};
ghost use Rattle.sc_core_rules.specs.Selection.{IsGuide};
ghost use Rattle.sc_core_rules.specs.Turn.{Turns};
ghost use Rattle.sc_core_rules.specs.declared.row.Outcome.TheVariants as outcome;
ghost use Rattle.sc_core.specs.Counts.{IsCounted};
ghost use Rattle.sc_core.specs.State.{at_start, IsReached, LeaveInTimeSoFar};
ghost use Rattle.sc_core.specs.State.{end_of as spec_end_of};

use crate::end::TurnEnd;
use crate::turning::{Running, turn};
use sc_core_laws::clauses_leave_in_time;
use sc_core_rules::{GivenRow, KeptRow, Outcome};
use sc_guide::Guide;
use sc_input_rules::Problem;
use sc_interp::{Version, VersionName};
use sc_keep::Book;
use sc_mark::Marks;
use sc_term::{Line, List, Mem};
use std::alloc::Global;
use std::marker::Model;

/// The prover of a problem. Contracts see the problem, the versions that it has seen of each finder, its run and whether
/// it is whole (`ProverState`). While it is whole, its run is that over the looks that its
/// rows tell (`IsReached`).
#[derive(Drop)]
pub struct Prover {
    alloc: Global,
    guide: Guide,
    marks: Marks,
    running: Running,
    whole: bool,
}

impl Model for Prover {
    ghost use Rattle.std.specs.Coded.{codes};
    ghost use Rattle.sc_term.specs.contracts.Term as term;
    ghost use Rattle.sc_core.specs.State.{ProverState};
    ghost use Rattle.sc_core.specs.Prover.{IsProver, state_of};

    ghost Value = { ProverState };

    ghost coded = { Prim.hlevel (codes, term.the_row.coded) };

    ghost view = { λ p. state_of p.running p.guide p.whole };

    ghost invariant = { λ p. IsProver p.guide p.marks p.running p.whole };
}

/// How the start ends the run, where it has the number of an empty clause.
fn ended_by(goal: Option<u32>) -> Option<Outcome>
    ensures { result ≡ option_map (λ n. outcome.Proof) goal }
{
    match goal {
        Some(_) => Some(Outcome::Proof),
        None => None,
    }
}

/// What the outcome tells of the end of a turn.
fn end_of(ended: Option<Outcome>) -> TurnEnd
    ensures { result ≡ spec_end_of ended }
{
    match ended {
        None => TurnEnd::Went,
        Some(Outcome::Proof) => TurnEnd::Proof,
        Some(Outcome::SosEmpty) => TurnEnd::SosEmpty,
        Some(Outcome::GivenLimit(_)) => TurnEnd::GivenLimit,
        Some(Outcome::KeptLimit(_)) => TurnEnd::KeptLimit,
        Some(Outcome::WorkLimit(_)) => TurnEnd::WorkLimit,
    }
}

impl Prover {
    /// The prover after the start of the problem's run, with so many lists of versions, 1 to 8, none of which has one.
    pub fn new(alloc: Global, problem: &Problem, lists: u32) -> Mem<Prover>
        requires some { 1 ≤ lists }
        requires few { lists ≤ 8 }
        ensures { IfOk result (λ prover. (book : ABook) × (goal : AnOption ℕ) × Starts problem.now book goal × (prover ≡ at_start problem.now lists book goal)) }
    {
        let symbols = problem.sig();
        let guide = Guide::new(alloc, symbols, lists)?;
        let marks = Marks::new(alloc, symbols)?;
        let mut book = Book::new(alloc, problem)?;
        let goal = book.start()?;
        let ended = ended_by(goal);
        Ok(Prover {
            alloc,
            guide,
            marks,
            running: Running {
                book,
                given: List::new(alloc),
                ended,
                goal,
            },
            whole: true,
        })
    }

    /// A copy of the version joins those of that finder, from 1, which are seen from the next turn on. It may come at any
    /// time, after the end too. Where memory is wanting, nothing changes.
    pub fn add(&mut self, finder: u32, version: &Version) -> Mem<()>
        requires some { 1 ≤ finder }
        requires there { finder ≤ length self.old.seen }
        requires few { IsSomeAnd (numbered self.old.seen finder) (λ versions. length versions < 2 ^ 31) }
        ensures added { OnOk result (self.new ≡ record self.old { seen = grown self.old.seen finder version.now }) }
        ensures refused { OnErr result (self.new ≡ self.old) }
    {
        self.guide.add(self.alloc, finder, version)?;
        Ok(())
    }

    /// The version itself joins those of that finder, as a copy does by `add`. Where memory is wanting, nothing changes.
    pub fn receive(&mut self, finder: u32, version: Version) -> Mem<()>
        requires some { 1 ≤ finder }
        requires there { finder ≤ length self.old.seen }
        requires few { IsSomeAnd (numbered self.old.seen finder) (λ versions. length versions < 2 ^ 31) }
        ensures added { OnOk result (self.new ≡ record self.old { seen = grown self.old.seen finder version }) }
        ensures refused { OnErr result (self.new ≡ self.old) }
    {
        self.guide.receive(finder, version)?;
        Ok(())
    }

    /// One turn with the versions that are seen (`Turns`). The prover has to be whole, and the run not ended.
    pub fn turn(&mut self) -> Mem<TurnEnd>
        requires whole { self.old.whole ≡ true }
        requires going { self.old.run.ended ≡ None }
        ensures turns { OnOk result (Turns self.old.problem self.old.run self.old.seen self.new.run) }
        ensures told { IfOk result (λ end. end ≡ spec_end_of self.new.run.ended) }
        ensures problem { self.new.problem ≡ self.old.problem }
        ensures seen { self.new.seen ≡ self.old.seen }
        ensures whole { OnOk result (self.new.whole ≡ true) }
        ensures halfway { OnErr result (self.new.whole ≡ false) }
    {
        match turn(self.alloc, &self.guide, &mut self.marks, &mut self.running) {
            Ok(()) => Ok(end_of(self.running.ended)),
            Err(error) => {
                self.whole = false;
                Err(error)
            }
        }
    }
}

impl Prover {
    /// How the run ended, None exactly while neither the start nor a turn has ended it.
    pub fn ended(&self) -> Option<TurnEnd>
        ensures some { IfSome result (λ end. (self.now.run.ended ≢ None) × (end ≡ spec_end_of self.now.run.ended)) }
        ensures none { IfNone result (self.now.run.ended ≡ None) }
    {
        match self.running.ended {
            Some(outcome) => Some(end_of(Some(outcome))),
            None => None,
        }
    }

    /// How the run ended, with the number of its limit.
    pub fn outcome(&self) -> Option<Outcome>
        ensures { result ≡ self.now.run.ended }
    {
        self.running.ended
    }

    /// Whether every turn had enough memory.
    pub fn is_whole(&self) -> bool
        ensures { result ≡ self.now.whole }
    {
        self.whole
    }

    /// What every prover keeps; while it is whole, also how many clauses its run has derived, kept and given
    /// (`IsCounted`).
    pub fn keeps(&self)
        ensures problem { IsProblem self.now.problem }
        ensures reached { self.now.whole ≡ true → IsReached self.now.problem self.now.seen self.now.run }
        ensures counted { self.now.whole ≡ true → IsCounted self.now.problem self.now.run }
    {
        self.running.book.keeps();
    }

    /// The law that each clause that was put in the set of support leaves it in time, whatever the problem is, while the
    /// prover is whole (`LeaveInTimeSoFar`).
    pub fn leaves_in_time(&self)
        ensures { self.now.whole ≡ true → LeaveInTimeSoFar self.now.problem self.now.seen self.now.run }
    {
        let _ = &self.whole;
        clauses_leave_in_time();
    }

    /// The rows of the given clauses, in order.
    pub fn given(&self) -> &List<GivenRow>
        ensures { result.now ≡ self.now.run.given }
    {
        &self.running.given
    }

    /// The rows of the kept clauses, in order.
    pub fn kept(&self) -> &List<KeptRow>
        ensures { result.now ≡ self.now.run.book.kept }
    {
        self.running.book.kept()
    }

    /// The versions of each finder that are seen, in order.
    pub fn seen(&self) -> &[List<Version>]
        ensures { result.now ≡ self.now.seen }
    {
        self.guide.seen()
    }

    /// The versions of each finder that are seen, in order, and nothing else.
    pub fn into_seen(self) -> List<List<Version>>
        ensures { result ≡ self.seen }
    {
        let Prover {
            alloc: _,
            guide,
            marks: _,
            running: _,
            whole: _,
        } = self;
        guide.into_seen()
    }

    /// The name of the guide of what is seen, under which the next turn chooses: (0, 0) where no version is seen. It is
    /// that of a guide, and of each.
    pub fn guide_name(&self) -> VersionName
        ensures guide { (version : ClaimedStructure) × IsGuide self.now.problem self.now.seen result version }
        ensures only { (name : AName) (version : ClaimedStructure) → IsGuide self.now.problem self.now.seen name version → name ≡ result }
    {
        self.guide.name()
    }

    /// The guide of what is seen: the opening version, where no version is. It is the guide of every name.
    pub fn guide(&self) -> &Version
        ensures guide { (name : AName) × IsGuide self.now.problem self.now.seen name result.now }
        ensures only { (name : AName) (version : ClaimedStructure) → IsGuide self.now.problem self.now.seen name version → version ≡ result.now }
    {
        self.guide.version()
    }

    /// The proof of a run that ended with one: the derivations of the empty clause and of all that it needs, put
    /// together (`IsSplice`).
    pub fn proof(&self) -> Mem<List<Line>>
        requires whole { self.now.whole ≡ true }
        requires ended { self.now.run.ended ≡ Some outcome.Proof }
        ensures splice { IfOk result (λ lines. (goal : ℕ) × (self.now.run.goal ≡ Some goal) × IsSplice self.now.problem.inputs self.now.run.book.derived goal lines) }
        ensures proof { IfOk result (λ lines. IsProof self.now.problem.inputs lines) }
        ensures refuted { OnOk result (IsRefuted self.now.problem.inputs) }
    {
        self.running.book.keeps();
        match self.running.goal {
            Some(goal) => {
                let lines = self.running.book.proof(goal)?;
                Ok(lines)
            }
            // There is one.
            None => Ok(List::new(self.alloc)),
        }
    }
}
