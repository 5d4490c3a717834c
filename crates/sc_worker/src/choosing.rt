//! The candidates, one after another.

ghost use Rattle.std.specs.Prelude.{◌≡◌, ◌≢◌, ◌≤◌, ◌<◌, ◌++◌, List as AList, [], ◌∷◌, IfOk, OnOk, OnErr, IsTrue, ◌↔◌, length};
ghost use Rattle.sc_interp.specs.declared.plain.Claim.{Claim as AClaim};
ghost use Rattle.sc_input_rules.specs.WellFormed.{IsOver};
ghost use Rattle.sc_cells.specs.Cells.{cell_count};
ghost use Rattle.sc_worker.specs.Plans.{IsPlan, size_of_finder};
ghost use Rattle.sc_worker.specs.Choosing.{at_first, IsWorked, IsTooWide};
ghost use Rattle.sc_worker.specs.Trying.{IsStep};
ghost use Rattle.sc_worker.specs.Keeping.{AreClaimsOver};
ghost use Rattle.sc_worker.specs.Present.{IsPresent};

use crate::light::next_light;
use crate::plan::Plan;
use crate::trying::{Tried, try_next};
use crate::worked::Worked;
use sc_cells::{CellsError, cells_of};
use sc_input_rules::Problem;
use sc_interp::{Claim, Tables};
use sc_term::{Clause, List, Mem, OutOfMemory, Signature, copy};
use std::alloc::Global;
use std::marker::Model;

/// What a finder works through: the candidates that are left, and the claims so far (`Choice`). The next candidate is the
/// input clause at the place, and `room` are left at most. The tables of the last version are kept for the next candidate.
#[derive(Drop)]
pub struct Chooser<'a> {
    problem: &'a Problem,
    size: u8,
    budget: u64,
    claims: List<Claim>,
    present: Option<Tables>,
    place: usize,
    room: u32,
    wide: bool,
}

impl<'a> Model for Chooser<'a> {
    ghost use Rattle.std.specs.Coded.{codes};
    ghost use Rattle.sc_term.specs.contracts.Term as term;
    ghost use Rattle.sc_worker.specs.Choosing.{Choice};
    ghost use Rattle.sc_worker.specs.Keeping.{choice_of, IsChooser};

    ghost Value = { Choice };

    ghost coded = { Prim.hlevel (codes, term.the_row.coded) };

    ghost view = { λ c. choice_of c.problem.now c.size c.budget c.claims c.place c.room };

    ghost invariant = { λ c. IsChooser c.problem.now c.size c.claims c.present c.place c.room c.wide };
}

/// The size at which that finder works.
fn size_of(plan: &Plan, finder: u32) -> u8
    requires plan { IsPlan plan.now }
    requires some { 1 ≤ finder }
    requires few { finder ≤ 8 }
    ensures value { result ≡ size_of_finder plan.now finder }
    ensures some { 1 ≤ result }
    ensures small { result ≤ 8 }
{
    (u32::from(plan.first_size) + finder - 1).min(8) as u8
}

/// Whether there are more than 4,096 cells.
fn has_many_cells(alloc: Global, sig: &Signature, size: u8) -> Mem<bool>
    requires some { 1 ≤ size }
    requires small { size ≤ 8 }
    ensures { IfOk result (λ wide. IsTrue wide ↔ (4096 < cell_count sig.now size)) }
{
    match cells_of(alloc, sig, size) {
        Ok(_) => Ok(false),
        Err(CellsError::TooWide { .. }) => Ok(true),
        Err(CellsError::OutOfMemory) => Err(OutOfMemory),
    }
}

/// Whether a clause stands at the place and there is room for a candidate.
fn is_left(clauses: &[Clause], place: usize, room: u32) -> bool
    ensures { IsTrue result ↔ ((0 < room) × (place < length clauses.now)) }
{
    room > 0 && place < clauses.len()
}

/// The clause is claimed too. Where memory is wanting, nothing changes.
fn push_claim(alloc: Global, claims: &mut List<Claim>, number: u32, clause: &Clause) -> Mem<()>
    ensures ok { OnOk result (claims.new ≡ claims.old ++ record { number = number; clause = clause.now } ∷ []) }
    ensures err { OnErr result (claims.new ≡ claims.old) }
{
    let clause = copy(alloc, clause)?;
    claims.push(Claim { number, clause })?;
    Ok(())
}

/// The last clause isn't claimed any more.
fn pop_claim(claims: &mut List<Claim>)
    ensures { (before : AList AClaim) (last : AClaim) → claims.old ≡ before ++ last ∷ [] → claims.new ≡ before }
{
    let _ = claims.pop();
}

/// Works the clause as a candidate: it joins the claims, or is skipped. Where memory is wanting, nothing changes.
fn work(
    alloc: Global,
    problem: &Problem,
    size: u8,
    budget: u64,
    claims: &mut List<Claim>,
    present: &mut Option<Tables>,
    number: u32,
    clause: &Clause,
) -> Mem<Worked>
    requires some { 1 ≤ size }
    requires small { size ≤ 8 }
    requires fits { cell_count problem.now.symbols size ≤ 4096 }
    requires claims { AreClaimsOver problem.now.symbols claims.old }
    requires clause { IsOver problem.now.symbols clause.now }
    requires few { length claims.old < 128 }
    requires kept { IsPresent problem.now size claims.old present.old }
    ensures worked { IfOk result (IsStep problem.now size budget (record { number = number; clause = clause.now }) claims.old claims.new) }
    ensures kept { IsPresent problem.now size claims.new present.new }
    ensures refused { OnErr result (claims.new ≡ claims.old) }
{
    problem.keeps();
    push_claim(alloc, claims, number, clause)?;
    match try_next(
        alloc,
        problem,
        size,
        budget,
        claims.as_slice(),
        clause,
        present,
    ) {
        Ok(Tried::Found(version)) => Ok(Worked::Joined(version)),
        Ok(Tried::GivenUp(skip)) => {
            pop_claim(claims);
            Ok(Worked::Skipped(skip))
        }
        Err(error) => {
            pop_claim(claims);
            Err(error)
        }
    }
}

impl<'a> Chooser<'a> {
    /// Finder number `finder`, from 1, before its first candidate.
    pub fn new(alloc: Global, problem: &'a Problem, plan: &Plan, finder: u32) -> Mem<Chooser<'a>>
        requires plan { IsPlan plan.now }
        requires some { 1 ≤ finder }
        requires few { finder ≤ 8 }
        ensures { IfOk result (λ chooser. chooser ≡ at_first problem.now plan.now finder) }
    {
        let size = size_of(plan, finder);
        let wide = has_many_cells(alloc, problem.sig(), size)?;
        Ok(Chooser {
            problem,
            size,
            budget: plan.nodes,
            claims: List::new(alloc),
            present: None,
            place: next_light(problem.inputs().as_slice(), 0),
            room: plan.candidates,
            wide,
        })
    }
}

impl Chooser<'_> {
    /// Works the next candidate (`IsWorked`): Done exactly where none is left, Wide exactly where one is and there are more
    /// than 4,096 cells. Where memory is wanting, nothing changes.
    pub fn next(&mut self, alloc: Global) -> Mem<Worked>
        ensures worked { IfOk result (λ worked. IsWorked self.old self.new worked) }
        ensures refused { OnErr result (self.new ≡ self.old) }
    {
        let problem = self.problem;
        let inputs = problem.inputs().as_slice();
        if !is_left(inputs, self.place, self.room) {
            return Ok(Worked::Done);
        }
        if self.wide {
            return Ok(Worked::Wide);
        }
        problem.keeps();
        let worked = work(
            alloc,
            problem,
            self.size,
            self.budget,
            &mut self.claims,
            &mut self.present,
            self.place as u32 + 1,
            &inputs[self.place],
        )?;
        self.place = next_light(inputs, self.place + 1);
        self.room -= 1;
        Ok(worked)
    }

    /// Whether candidates are left.
    pub fn has_more(&self) -> bool
        ensures { IsTrue result ↔ (self.now.left ≢ []) }
    {
        is_left(self.problem.inputs().as_slice(), self.place, self.room)
    }

    /// Whether there are more than 4,096 cells.
    pub fn is_wide(&self) -> bool
        ensures { IsTrue result ↔ IsTooWide self.now }
    {
        self.wide
    }
}
