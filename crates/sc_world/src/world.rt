//! The machine over events, without threads.

ghost use Rattle.std.specs.Prelude.{◌≡◌, ◌≤◌, ◌<◌, ◌^◌, ℕ, [], None, Some, true, false, IfOk, IfErr, OnOk, OnErr, IsSomeAnd, length, replicate, take};
ghost use Rattle.sc_term.specs.Numbering.{numbered, with_element};
ghost use Rattle.sc_input_rules.specs.WellFormed.{IsProblem};
ghost use Rattle.sc_core_laws.specs.TrueRows.{IsFrontOf};
ghost use Rattle.sc_core.specs.State.{end_of};
ghost use Rattle.sc_guide.specs.Guided.{grown};
ghost use Rattle.sc_world.specs.Events.{Publish, Look, Turn, Happens, IsAtStart, EventsAreOne};
ghost use Rattle.sc_world.specs.Kept.{Holds, EventsKeep};
ghost use Rattle.sc_world.specs.World.{machine_of, prover_of, SeesMore, SeesUpTo};

use sc_core::{Prover, TurnEnd};
use sc_core_laws::{clauses_leave_in_time, rows_are_true, run_refutes};
use sc_input_rules::Problem;
use sc_interp::Version;
use sc_term::{List, Mem, OutOfMemory};
use std::alloc::Global;
use std::marker::Model;

/// The versions that each finder published, and a prover that sees those that it looked at. Contracts see the problem, the
/// published and the seen lists, the run and whether the prover is whole (`WorldState`); `IsWorld` says what each keeps.
#[derive(Drop)]
pub struct World {
    alloc: Global,
    lists: Vec<List<Version>>,
    prover: Prover,
}

impl Model for World {
    ghost use Rattle.std.specs.Coded.{codes};
    ghost use Rattle.sc_term.specs.contracts.Term as term;
    ghost use Rattle.sc_world.specs.World.{WorldState, IsWorld, world_of};

    ghost Value = { WorldState };

    ghost coded = { Prim.hlevel (codes, term.the_row.coded) };

    ghost view = { λ w. world_of w.lists.items w.prover };

    ghost invariant = { λ w. IsWorld w.lists.items w.prover };
}

/// So many empty lists.
fn empty_lists(alloc: Global, count: u32) -> Mem<Vec<List<Version>>>
    ensures { IfOk result (λ lists. lists.items ≡ replicate count []) }
{
    let mut lists = Vec::new(alloc);
    for _finder in 0..count {
        lists.push(List::new(alloc))?;
    }
    Ok(lists)
}

/// A copy of the version joins the end of the list of that finder. Where memory is wanting, nothing changes.
fn push_copy(alloc: Global, lists: &mut [List<Version>], finder: u32, version: &Version) -> Mem<()>
    requires some { 1 ≤ finder }
    requires there { finder ≤ length lists.old }
    ensures joined { OnOk result (lists.new ≡ grown lists.old finder version.now) }
    ensures refused { OnErr result (lists.new ≡ lists.old) }
{
    let copied = version.copy(alloc)?;
    let versions = &mut lists[finder as usize - 1];
    versions.push(copied)?;
    Ok(())
}

/// The prover, which sees the first versions of the finder's list up to this place, sees the others too, one after
/// another. Where memory is wanting, it sees some of them.
pub fn see_from(prover: &mut Prover, finder: u32, versions: &[Version], from: usize) -> Mem<()>
    requires some { 1 ≤ finder }
    requires there { finder ≤ length prover.old.seen }
    requires within { from ≤ length versions.now }
    requires few { length versions.now ≤ 2 ^ 31 }
    requires seen { numbered prover.old.seen finder ≡ Some (take from versions.now) }
    ensures all { OnOk result (SeesUpTo finder versions.now (length versions.now) prover.old prover.new) }
    ensures some { OnErr result ((n : ℕ) × (from ≤ n) × (n ≤ length versions.now) × SeesUpTo finder versions.now n prover.old prover.new) }
{
    for place in from..versions.len() {
        prover.add(finder, &versions[place])?;
    }
    Ok(())
}

impl World {
    /// So many finders, 1 to 8, none of which has published, and a prover after the start of the problem's run.
    pub fn new(alloc: Global, problem: &Problem, lists: u32) -> Mem<World>
        requires some { 1 ≤ lists }
        requires few { lists ≤ 8 }
        ensures start { IfOk result (λ world. IsAtStart problem.now lists (machine_of world)) }
        ensures problem { IfOk result (λ world. world.problem ≡ problem.now) }
        ensures whole { IfOk result (λ world. world.whole ≡ true) }
    {
        let prover = Prover::new(alloc, problem, lists)?;
        let lists = empty_lists(alloc, lists)?;
        Ok(World {
            alloc,
            lists,
            prover,
        })
    }

    /// The finder, from 1, publishes the version, whose place in its list is answered, from 0. Where memory is wanting,
    /// nothing changes, and the version comes back.
    pub fn publish(&mut self, finder: u32, version: Version) -> Result<u32, (Version, OutOfMemory)>
        requires some { 1 ≤ finder }
        requires there { finder ≤ length self.old.published }
        requires few { IsSomeAnd (numbered self.old.published finder) (λ versions. length versions < 2 ^ 31) }
        ensures happens { OnOk result (Happens self.old.problem (machine_of self.old) (Publish finder version) (machine_of self.new)) }
        ensures place { IfOk result (λ place. IsSomeAnd (numbered self.old.published finder) (λ versions. place ≡ length versions)) }
        ensures grows { IsFrontOf self.new.published self.old.published }
        ensures problem { self.new.problem ≡ self.old.problem }
        ensures whole { self.new.whole ≡ self.old.whole }
        ensures refused { OnErr result (self.new ≡ self.old) }
        ensures back { IfErr result (λ back. back.0 ≡ version) }
    {
        let place = self.lists[finder as usize - 1].len() as u32;
        match push_copy(self.alloc, self.lists.as_mut_slice(), finder, &version) {
            Ok(()) => Ok(place),
            Err(error) => Err((version, error)),
        }
    }

    /// The prover looks at the finder's list: it sees all that was published. Where memory is wanting, it sees no less than
    /// before and no more than that, in order (`SeesMore`).
    pub fn look(&mut self, finder: u32) -> Mem<()>
        requires some { 1 ≤ finder }
        requires there { finder ≤ length self.old.published }
        ensures happens { OnOk result (Happens self.old.problem (machine_of self.old) (Look finder) (machine_of self.new)) }
        ensures published { self.new.published ≡ self.old.published }
        ensures problem { self.new.problem ≡ self.old.problem }
        ensures whole { self.new.whole ≡ self.old.whole }
        ensures refused { OnErr result (SeesMore finder self.old self.new) }
    {
        let index = finder as usize - 1;
        let from = self.prover.seen()[index].len();
        let versions = self.lists[index].as_slice();
        see_from(&mut self.prover, finder, versions, from)
    }

    /// The prover makes a turn with what it sees. It has to be whole, and the run not ended.
    pub fn turn(&mut self) -> Mem<TurnEnd>
        requires whole { self.old.whole ≡ true }
        requires going { self.old.run.ended ≡ None }
        ensures happens { OnOk result (Happens self.old.problem (machine_of self.old) Turn (machine_of self.new)) }
        ensures told { IfOk result (λ end. end ≡ end_of self.new.run.ended) }
        ensures published { self.new.published ≡ self.old.published }
        ensures seen { self.new.seen ≡ self.old.seen }
        ensures problem { self.new.problem ≡ self.old.problem }
        ensures whole { OnOk result (self.new.whole ≡ true) }
        ensures halfway { OnErr result (self.new.whole ≡ false) }
    {
        self.prover.turn()
    }
}

impl World {
    /// What every world keeps, whatever calls were made (`Holds`).
    pub fn keeps(&self)
        ensures problem { IsProblem self.now.problem }
        ensures prefixes { IsFrontOf self.now.published self.now.seen }
        ensures holds { self.now.whole ≡ true → Holds self.now.problem (machine_of self.now) }
    {
        self.prover.keeps();
        rows_are_true();
        clauses_leave_in_time();
        run_refutes();
    }

    /// What the finder, from 1, has published, in order.
    pub fn published(&self, finder: u32) -> &List<Version>
        requires some { 1 ≤ finder }
        requires there { finder ≤ length self.now.published }
        ensures { numbered self.now.published finder ≡ Some result.now }
    {
        &self.lists[finder as usize - 1]
    }

    /// What the prover sees of the finder's list, in order.
    pub fn seen(&self, finder: u32) -> &List<Version>
        requires some { 1 ≤ finder }
        requires there { finder ≤ length self.now.published }
        ensures { numbered self.now.seen finder ≡ Some result.now }
    {
        &self.prover.seen()[finder as usize - 1]
    }

    /// The prover.
    pub fn prover(&self) -> &Prover
        ensures { result.now ≡ prover_of self.now }
    {
        &self.prover
    }
}

/// The law that so many finders and a list of events lead to one machine, whatever the problem is (`EventsAreOne`).
pub fn events_are_one()
    ensures { EventsAreOne }
{}

/// The law that after every list of events all that `keeps` tells of a world holds of the machine (`EventsKeep`).
pub fn events_keep()
    ensures { EventsKeep }
{
    rows_are_true();
    clauses_leave_in_time();
    run_refutes();
}
