//! A job: what is asked for, made ready for searches.

ghost use Rattle.std.specs.Prelude.{◌≡◌, ◌<◌, ◌≤◌, ◌↔◌, ℕ, List as AList, Option as AnOption, All, [], ◌∷◌, ◌++◌, IfOk, IfErr, OnOk, IsTrue, Some, false, true, length, slice_get, map};
ghost use Rattle.sc_input_rules.specs.WellFormed.{IsOver};
ghost use Rattle.sc_cells.specs.Cells.{Entry, Prefix, AreCells, AreValues, IsConsistent, cell_at, below_of, cell_count, values_below};
ghost use Rattle.sc_cells.specs.declared.cells.Cell.{Cell as ACell};
ghost use Rattle.sc_cells.specs.Ground.{AreInstances, instance_count};
ghost use Rattle.sc_least.specs.Bound.{least_number};
ghost use Rattle.sc_find.specs.Answers.{IsCauseOfJob};
ghost use Rattle.sc_find.specs.Models.{AreTablesWith, IsPiece};
ghost use Rattle.sc_find.specs.Watching.{IsWatching};

use crate::answer::JobError;
use crate::tables::{empty_tables, fill};
use crate::waking::{take_back, wake, watch_all};
use crate::watches::Watches;
use sc_cells::{Cell, CellsError, Ground, GroundError, cells_of, ground};
use sc_find_given::Given;
use sc_interp::Tables;
use sc_least::least_bound;
use sc_term::{Clause, List, Mem, Role, Signature};
use std::alloc::Global;
use std::marker::Model;

/// A signature, clauses and a size, with what their searches need. Contracts see a `Task`.
#[derive(Drop)]
pub struct Job<'a> {
    sig: &'a Signature,
    clauses: &'a List<Clause>,
    size: u8,
    cells: List<Cell>,
    ground: Ground,
}

impl<'a> Model for Job<'a> {
    ghost use Rattle.std.specs.Coded.{codes};
    ghost use Rattle.sc_term.specs.contracts.Term as term;
    ghost use Rattle.sc_find.specs.Models.{Task};
    ghost use Rattle.sc_find.specs.Prepared.{IsPrepared};

    ghost Value = { Task };

    ghost coded = { Prim.hlevel (codes, term.the_row.coded) };

    ghost view = { λ j. record { sig = j.sig.now; clauses = j.clauses.now; size = j.size } };

    ghost invariant = { λ j. IsPrepared (record { sig = j.sig.now; clauses = j.clauses.now; size = j.size }) j.cells j.ground };
}

fn list_cells(alloc: Global, sig: &Signature, size: u8) -> Result<List<Cell>, JobError>
    requires not_empty { 1 ≤ size }
    requires small { size ≤ 8 }
    ensures value { IfOk result (λ cells. (entries : AList Entry) × AreCells sig.now size entries × (cells ≡ map (cell_at size) entries)) }
    ensures within { OnOk result (cell_count sig.now size ≤ 4096) }
    ensures refused { (instances : ℕ) → IfErr result (IsCauseOfJob (cell_count sig.now size) instances) }
{
    match cells_of(alloc, sig, size) {
        Ok(cells) => Ok(cells),
        Err(CellsError::TooWide { count }) => Err(JobError::Cells { count }),
        Err(CellsError::OutOfMemory) => Err(JobError::OutOfMemory),
    }
}

fn list_instances(alloc: Global, clauses: &List<Clause>, size: u8) -> Result<Ground, JobError>
    requires not_empty { 1 ≤ size }
    requires small { size ≤ 8 }
    ensures value { IfOk result (λ instances. AreInstances clauses.now size instances) }
    ensures within { OnOk result (instance_count clauses.now size ≤ 200000) }
    ensures refused { (cells : ℕ) → cells ≤ 4096 → IfErr result (IsCauseOfJob cells (instance_count clauses.now size)) }
{
    match ground(alloc, clauses, size) {
        Ok(instances) => Ok(instances),
        Err(GroundError::TooWide { count }) => Err(JobError::Instances { count }),
        Err(GroundError::OutOfMemory) => Err(JobError::OutOfMemory),
    }
}

/// The number of values that a cell may have.
fn count_values(sig: &Signature, size: u8, cell: Cell) -> u8
    requires there { cell.sym.0 < length sig.now }
    requires small { size ≤ 8 }
    ensures value { result ≡ below_of size (slice_get sig.now cell.sym.0) }
    ensures few { result ≤ 8 }
{
    match sig.symbol(cell.sym).role {
        Role::Function => size,
        Role::Predicate => 2,
    }
}

/// The number of values that the cell of that number may have.
fn count_values_of(sig: &Signature, size: u8, cells: &[Cell], number: usize) -> u8
    requires within { number < length cells.now }
    requires there { All (λ cell. cell.sym.0 < length sig.now) cells.now }
    requires small { size ≤ 8 }
    ensures value { (cell : ACell) → slice_get cells.now number ≡ Some cell → result ≡ below_of size (slice_get sig.now cell.sym.0) }
    ensures few { result ≤ 8 }
{
    count_values(sig, size, cells[number])
}

impl<'a> Job<'a> {
    /// The job of a size of 1 to 8, of clauses over the signature. `Cells` comes exactly where there are more than 4,096 cells, and otherwise
    /// `Instances` exactly where there are more than 200,000 instances of the clauses; they tell how many.
    pub fn new(
        alloc: Global,
        sig: &'a Signature,
        clauses: &'a List<Clause>,
        size: u8,
    ) -> Result<Job<'a>, JobError>
        requires not_empty { 1 ≤ size }
        requires small { size ≤ 8 }
        requires over { All (IsOver sig.now) clauses.now }
        ensures value { IfOk result (λ job. job ≡ record { sig = sig.now; clauses = clauses.now; size = size }) }
        ensures within { OnOk result (cell_count sig.now size ≤ 4096) }
        ensures few { OnOk result (instance_count clauses.now size ≤ 200000) }
        ensures refused { IfErr result (IsCauseOfJob (cell_count sig.now size) (instance_count clauses.now size)) }
    {
        let cells = list_cells(alloc, sig, size)?;
        let ground = list_instances(alloc, clauses, size)?;
        Ok(Job {
            sig,
            clauses,
            size,
            cells,
            ground,
        })
    }
}

impl Job<'_> {
    /// How many pieces there are: as many as cell 0 has values, or one where there are no cells.
    pub fn pieces(&self) -> u32
        ensures each { (p : ℕ) → 1 ≤ p → p ≤ result → (value : AnOption ℕ) × IsPiece self.now p value }
        ensures none { (p : ℕ) (value : AnOption ℕ) → IsPiece self.now p value → (1 ≤ p) × (p ≤ result) }
        ensures few { result ≤ 8 }
    {
        if self.cells.is_empty() {
            1
        } else {
            u32::from(self.count_values_at(0))
        }
    }

    /// Tells what a job keeps: clauses over the signature, and a size of at most 8.
    pub(crate) fn keeps(&self)
        ensures over { All (IsOver self.now.sig) self.now.clauses }
        ensures small { self.now.size ≤ 8 }
    {
        let _ = &self.sig;
    }

    /// The bound of the value of the cell behind those that have these values.
    pub(crate) fn bound_behind(&self, values: &[u8]) -> u8
        requires { (cells : AList Entry) × AreCells self.now.sig self.now.size cells × (length values.now < length cells) }
        ensures { (cells : AList Entry) → AreCells self.now.sig self.now.size cells → result ≡ least_number self.now.sig self.now.size cells values.now }
    {
        least_bound(self.sig, values, &self.cells, self.size)
    }

    /// How many values the cell of that number may have.
    pub(crate) fn count_values_at(&self, number: usize) -> u8
        requires { (cells : AList Entry) × AreCells self.now.sig self.now.size cells × (number < length cells) }
        ensures value { (cells : AList Entry) (cell : Entry) → AreCells self.now.sig self.now.size cells → slice_get cells number ≡ Some cell
            → result ≡ values_below self.now.sig self.now.size cell }
        ensures few { result ≤ 8 }
        ensures small { self.now.size ≤ 8 }
    {
        count_values_of(self.sig, self.size, self.cells.as_slice(), number)
    }

    /// No values yet.
    pub(crate) fn no_values(&self, alloc: Global) -> Mem<Given>
        ensures cells { IfOk result (λ given. AreCells self.now.sig self.now.size given.cells) }
        ensures values { IfOk result (λ given. given.values ≡ []) }
    {
        Ok(Given::new(alloc, self.sig, self.size, &self.cells)?)
    }

    /// Watches for the instances where no cell has a value, unless one of them is false.
    pub(crate) fn watch(&self, given: &Given, watches: &mut Watches) -> Mem<bool>
        requires empty { given.now.values ≡ [] }
        requires none { watches.old ≡ record { cells = length given.now.cells; watches = [] } }
        ensures watched { IfOk result (λ all. all ≡ true → IsWatching self.now given.now watches.new) }
        ensures consistent { IfOk result (λ all. all ≡ true → IsConsistent self.now.clauses self.now.size given.now) }
        ensures refused { IfOk result (λ all. all ≡ false → ¬ IsConsistent self.now.clauses self.now.size given.now) }
    {
        Ok(watch_all(
            given,
            watches,
            self.clauses.as_slice(),
            self.ground.instances().as_slice(),
        )?)
    }

    /// Looks again at the instances that waited for the last cell with a value.
    fn wake(&self, given: &Given, watches: &mut Watches) -> Mem<bool>
        requires few { length given.now.values ≤ length given.now.cells }
        requires last { (before : AList ℕ) × (v : ℕ) × (given.now.values ≡ before ++ v ∷ []) × IsWatching self.now (record { cells = given.now.cells; values = before }) watches.old }
        ensures watched { IfOk result (λ all. all ≡ true → IsWatching self.now given.now watches.new) }
        ensures consistent { IfOk result (λ all. all ≡ true → IsConsistent self.now.clauses self.now.size given.now) }
        ensures refused { IfOk result (λ all. all ≡ false → ¬ IsConsistent self.now.clauses self.now.size given.now) }
        ensures kept { OnOk result ((p : Prefix) → IsWatching self.now p watches.old → IsWatching self.now p watches.new) }
    {
        Ok(wake(
            given,
            watches,
            self.clauses.as_slice(),
            self.ground.instances().as_slice(),
        )?)
    }

    /// Gives the next cell the value, if no instance is then false: none is before. Otherwise nothing changes.
    pub(crate) fn enters(&self, given: &mut Given, watches: &mut Watches, value: u8) -> Mem<bool>
        requires room { length given.old.values < length given.old.cells }
        requires before { IsWatching self.now given.old watches.old }
        ensures entered { IfOk result (λ enters. enters ≡ true → given.new ≡ record given.old { values = given.old.values ++ value ∷ [] }) }
        ensures consistent { IfOk result (λ enters. enters ≡ true → IsConsistent self.now.clauses self.now.size (record given.old { values = given.old.values ++ value ∷ [] })) }
        ensures kept { IfOk result (λ enters. enters ≡ false → given.new ≡ given.old) }
        ensures refused { IfOk result (λ enters. enters ≡ false → ¬ IsConsistent self.now.clauses self.now.size (record given.old { values = given.old.values ++ value ∷ [] })) }
        ensures watched { OnOk result (IsWatching self.now given.new watches.new) }
    {
        given.push(value);
        let stays = self.wake(given, watches)?;
        if !stays {
            let _ = take_back(given, watches);
        }
        Ok(stays)
    }

    /// The tables that have the values, which are those of a model.
    pub(crate) fn tables_with(&self, alloc: Global, values: &[u8]) -> Mem<Tables>
        requires { (cells : AList Entry) × AreCells self.now.sig self.now.size cells × (length values.now ≡ length cells) × AreValues self.now.sig self.now.size cells values.now }
        ensures { IfOk result (λ t. (cells : AList Entry) → AreCells self.now.sig self.now.size cells → AreTablesWith self.now cells values.now t) }
    {
        let mut tables = empty_tables(alloc, self.sig, self.size)?;
        fill(&mut tables, self.cells.as_slice(), values);
        Ok(tables)
    }
}
