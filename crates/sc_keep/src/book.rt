//! The book: the clauses that the prover keeps.

ghost use Rattle.std.specs.Prelude.{◌≡◌, ◌≢◌, ◌<◌, ◌≤◌, ◌+◌, ◌-◌, ◌++◌, ◌^◌, ℕ, [], true, false, min, All, AllPairs, IfOk, OnOk, OnErr, IsSomeAnd, Contains, Some, length};
ghost use Rattle.sc_term.specs.Clause.{IsCanonical, IsWithinLimits};
ghost use Rattle.sc_term.specs.Numbering.{numbered};
ghost use Rattle.sc_term.specs.Proof.{AreSteps, IsProof};
ghost use Rattle.sc_term.specs.declared.Clause.{Clause as AClause};
ghost use Rattle.sc_term.specs.declared.Numbered.{Numbered as ANumbered};
ghost use Rattle.sc_steps.specs.Derivation.{all_clauses};
ghost use Rattle.sc_steps.specs.Splice.{IsSplice};
ghost use Rattle.sc_input_rules.specs.WellFormed.{IsProblem};
ghost use Rattle.sc_core_rules.specs.Book.{IsDerived, IsSound, next_number, numbered_clauses};
ghost use Rattle.sc_core_rules.specs.Processing.{Processes};
ghost use Rattle.sc_core_rules.specs.Turn.{with_given};
ghost use Rattle.sc_core_rules.specs.Start.{Starts};
ghost use Rattle.sc_keep.specs.State.{empty_book};
ghost use Rattle.sc_keep.specs.Sweep.{HaveDistinctNumbers};

use crate::copies::{copy_clauses, copy_symbols};
use crate::fate::process_lines;
use crate::given::give;
use crate::lists::Lists;
use crate::start::start_lists;
use sc_core_rules::{KeptRow, Processed};
use sc_demod::Demods;
use sc_input_rules::{Flags, Home, Params, Problem};
use sc_steps::{Derived, Made, splice};
use sc_term::{Clause, Line, List, Mem, Numbered, Symbol};
use std::alloc::Global;
use std::marker::Model;

/// The clause of that number: the derived clauses have the numbers after those of the input clauses.
fn clause_at<'a>(inputs: &'a [Clause], derived: &'a [Derived], n: u32) -> &'a Clause
    requires there { 0 < n }
    requires within { n ≤ length inputs.now + length derived.now }
    ensures { numbered (all_clauses inputs.now derived.now) n ≡ Some result.now }
{
    let at = n as usize - 1;
    if at < inputs.len() {
        &inputs[at]
    } else {
        &derived[at - inputs.len()].clause
    }
}

/// A problem and the clauses that the prover keeps for it. Contracts see the problem, the definition's book and whether it
/// is whole (`State`); `IsState` says what each keeps. After a call that answered want of memory the book isn't whole, and
/// nothing is known of its clauses.
#[derive(Drop)]
pub struct Book {
    alloc: Global,
    symbols: List<Symbol>,
    inputs: List<Clause>,
    homes: List<Home>,
    flags: Flags,
    params: Params,
    lists: Lists,
    whole: bool,
}

impl Model for Book {
    ghost use Rattle.std.specs.Coded.{codes};
    ghost use Rattle.sc_term.specs.contracts.Term as term;
    ghost use Rattle.sc_keep.specs.State.{State, IsState, state_of};

    ghost Value = { State };

    ghost coded = { Prim.hlevel (codes, term.the_row.coded) };

    ghost view = { λ b. state_of b.symbols b.inputs b.homes b.flags b.params b.lists b.whole };

    ghost invariant = { λ b. IsState b.lists (state_of b.symbols b.inputs b.homes b.flags b.params b.lists b.whole) };
}

impl Book {
    /// The book of the problem before the start.
    pub fn new(alloc: Global, problem: &Problem) -> Mem<Book>
        ensures { IfOk result (λ book. book ≡ record { problem = problem.now; book = empty_book; whole = true }) }
    {
        problem.keeps();
        let symbols = copy_symbols(alloc, problem.sig())?;
        let inputs = copy_clauses(alloc, problem.inputs().as_slice())?;
        let homes = List::from_slice(alloc, problem.homes().as_slice())?;
        Ok(Book {
            alloc,
            symbols,
            inputs,
            homes,
            flags: problem.flags(),
            params: problem.params(),
            lists: Lists {
                derived: List::new(alloc),
                usable: List::new(alloc),
                sos: List::new(alloc),
                passive: List::new(alloc),
                demods: Demods::new(alloc),
                kept: List::new(alloc),
            },
            whole: true,
        })
    }

    /// What every book keeps. While it is whole, its derived clauses follow, each clause of a list is the one that has
    /// its number, those of usable and sos have numbers of their own, below the next one, every live clause is canonical,
    /// and every clause that has a number is within the limits.
    pub fn keeps(&self)
        ensures problem { IsProblem self.now.problem }
        ensures derived { self.now.whole ≡ true → IsDerived self.now.problem self.now.book }
        ensures sound { self.now.whole ≡ true → IsSound self.now.problem self.now.book }
        ensures distinct { self.now.whole ≡ true → HaveDistinctNumbers (self.now.book.usable ++ self.now.book.sos) }
        ensures apart { self.now.whole ≡ true → AllPairs (λ p q. p.number ≢ q.number) (self.now.book.usable ++ self.now.book.sos) }
        ensures below { self.now.whole ≡ true → All (λ p. p.number < next_number self.now.problem self.now.book) (self.now.book.usable ++ self.now.book.sos) }
        ensures usable_canonical { self.now.whole ≡ true → All (λ p. IsCanonical p.clause) self.now.book.usable }
        ensures usable_within { self.now.whole ≡ true → All (λ p. IsWithinLimits p.clause) self.now.book.usable }
        ensures sos_canonical { self.now.whole ≡ true → All (λ p. IsCanonical p.clause) self.now.book.sos }
        ensures sos_within { self.now.whole ≡ true → All (λ p. IsWithinLimits p.clause) self.now.book.sos }
        ensures passive_canonical { self.now.whole ≡ true → All (λ p. IsCanonical p.clause) self.now.book.passive }
        ensures passive_within { self.now.whole ≡ true → All (λ p. IsWithinLimits p.clause) self.now.book.passive }
        ensures all_within { self.now.whole ≡ true → All (λ c. IsWithinLimits c) (numbered_clauses self.now.problem self.now.book) }
    {
        let _ = &self.whole;
    }

    /// Whether the last call that changes the book, if any, had enough memory.
    pub fn is_whole(&self) -> bool
        ensures { result ≡ self.now.whole }
    {
        self.whole
    }
}

impl Book {
    /// The start of a run (`Starts`): the lists of the input, and the number of the empty clause where that ends the run.
    pub fn start(&mut self) -> Mem<Option<u32>>
        ensures starts { IfOk result (λ goal. Starts self.old.problem self.new.book goal) }
        ensures problem { self.new.problem ≡ self.old.problem }
        ensures whole { OnOk result (self.new.whole ≡ true) }
        ensures halfway { OnErr result (self.new.whole ≡ false) }
    {
        match start_lists(self.alloc, self.inputs.as_slice(), self.homes.as_slice()) {
            Ok(started) => {
                self.lists = started.lists;
                self.whole = true;
                Ok(started.goal)
            }
            Err(error) => {
                self.whole = false;
                Err(error)
            }
        }
    }

    /// Processes a conclusion in this turn (`Processes`): it is simplified, and dropped, or kept with what follows. Its
    /// lines have to be steps from the clauses of the book, which has to be whole. Each of the numbers that come again is
    /// that of a clause that has a number. The answer is `OutOfMemory` too where its lines, those of its simplification and
    /// its literals together would be 4,294,967,292 or more; the book isn't whole then.
    pub fn process(&mut self, made: Made, turn: u32) -> Mem<Processed>
        requires whole { self.old.whole ≡ true }
        requires steps { AreSteps (numbered_clauses self.old.problem self.old.book) made.lines }
        requires few { length self.old.problem.inputs + length self.old.book.derived + 2 < 2 ^ 32 }
        ensures processes { IfOk result (λ out. Processes self.old.problem self.old.book made.lines turn self.new.book out) }
        ensures again { IfOk result (λ out. (n : ℕ) → Contains out.again n
            → (c : AClause) × (numbered (numbered_clauses self.new.problem self.new.book) n ≡ Some c)) }
        ensures problem { self.new.problem ≡ self.old.problem }
        ensures whole { OnOk result (self.new.whole ≡ true) }
        ensures halfway { OnErr result (self.new.whole ≡ false) }
    {
        let number = (self.inputs.len() + self.lists.derived.len()) as u32 + 1;
        match process_lines(
            self.alloc,
            self.flags,
            self.params,
            number,
            &mut self.lists,
            made,
            turn,
        ) {
            Ok(out) => Ok(out),
            Err(error) => {
                self.whole = false;
                Err(error)
            }
        }
    }

    /// The clause of that number, which has to be in sos, goes to the end of usable (`with_given`).
    pub fn give(&mut self, n: u32) -> Mem<()>
        requires { (p : ANumbered) × Contains self.old.book.sos p × (p.number ≡ n) }
        ensures given { OnOk result ((p : ANumbered) × Contains self.old.book.sos p × (p.number ≡ n) × (self.new.book ≡ with_given self.old.book p)) }
        ensures problem { self.new.problem ≡ self.old.problem }
        ensures whole { OnOk result (self.new.whole ≡ self.old.whole) }
        ensures halfway { OnErr result (self.new.whole ≡ false) }
    {
        match give(&mut self.lists, n) {
            Ok(()) => Ok(()),
            Err(error) => {
                self.whole = false;
                Err(error)
            }
        }
    }
}

impl Book {
    /// The clause of that number, which has to be that of an input clause or of a derived one, whose numbers follow.
    pub fn clause(&self, n: u32) -> &Clause
        requires there { 0 < n }
        requires within { n ≤ length self.now.problem.inputs + length self.now.book.derived }
        ensures { numbered (numbered_clauses self.now.problem self.now.book) n ≡ Some result.now }
    {
        clause_at(self.inputs.as_slice(), self.lists.derived.as_slice(), n)
    }

    /// How many clauses have a number, those of the input and the derived ones, or 2^64 - 1 where they are more.
    pub fn clause_count(&self) -> u64
        ensures { result ≡ min (length self.now.problem.inputs + length self.now.book.derived) (2 ^ 64 - 1) }
    {
        let inputs = self.inputs.len() as u64;
        inputs.saturating_add(self.lists.derived.len() as u64)
    }

    /// The flags of its problem.
    pub fn flags(&self) -> Flags
        ensures { result ≡ self.now.problem.flags }
    {
        self.flags
    }

    /// The parameters of its problem.
    pub fn params(&self) -> Params
        ensures { result ≡ self.now.problem.params }
    {
        self.params
    }

    /// The usable clauses.
    pub fn usable(&self) -> &List<Numbered>
        ensures { result.now ≡ self.now.book.usable }
    {
        &self.lists.usable
    }

    /// The clauses of the set of support, in order of age.
    pub fn sos(&self) -> &List<Numbered>
        ensures { result.now ≡ self.now.book.sos }
    {
        &self.lists.sos
    }

    /// The passive clauses.
    pub fn passive(&self) -> &List<Numbered>
        ensures { result.now ≡ self.now.book.passive }
    {
        &self.lists.passive
    }

    /// The demodulators, in rising order of their numbers.
    pub fn demods(&self) -> &[Numbered]
        ensures { result.now ≡ self.now.book.demods }
    {
        self.lists.demods.as_slice()
    }

    /// The rows of kept clauses, in the order in which they were kept.
    pub fn kept(&self) -> &List<KeptRow>
        ensures { result.now ≡ self.now.book.kept }
    {
        &self.lists.kept
    }

    /// The lines of the clauses that clause number `goal` needs (`IsSplice`): where it is empty, a proof of the input
    /// clauses (`IsProof`). The book has to be whole. The answer is `OutOfMemory` too where there would be 4,294,967,295 lines or
    /// more.
    pub fn proof(&self, goal: u32) -> Mem<List<Line>>
        requires whole { self.now.whole ≡ true }
        requires there { 0 < goal }
        requires within { goal ≤ length self.now.problem.inputs + length self.now.book.derived }
        ensures splice { IfOk result (λ lines. IsSplice self.now.problem.inputs self.now.book.derived goal lines) }
        ensures proof { IfOk result (λ lines. IsSomeAnd (numbered (numbered_clauses self.now.problem self.now.book) goal) (λ c. c.literals ≡ [])
            → IsProof self.now.problem.inputs lines) }
    {
        let lines = splice(self.alloc, &self.inputs, &self.lists.derived, goal)?;
        Ok(lines)
    }
}
