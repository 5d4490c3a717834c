//! The set of support by number and weight.

ghost use Rattle.std.specs.Prelude.{◌≡◌, ◌≤◌, ◌<◌, ◌+◌, ◌-◌, [], All, IfOk, OnOk, OnErr, IfSome, IfNone, vec_len, vec_capacity};
ghost use Rattle.sc_sos.specs.Waiting.{Waiting, age_of, weight_of, IsAny, Waits, ComesFirst, IsFalseIn, with_clause, without_clause};

use crate::looking::{Order, first, first_false};
use sc_mark::Marks;
use sc_term::Mem;
use std::alloc::Global;
use std::marker::Model;

/// The number of a clause and its weight.
#[derive(Clone, Copy, Debug, PartialEq, Eq)]
pub struct Weighed {
    pub number: u32,
    pub weight: u32,
}

/// The clauses that wait to be given. Contracts see their numbers with their weights, and for how many more memory is there
/// (`Waiting`).
#[derive(Drop)]
pub struct Sos {
    clauses: Vec<Weighed>,
}

impl Model for Sos {
    ghost Value = { Waiting };

    ghost view = { λ s. record { clauses = s.clauses.items; spare = vec_capacity s.clauses - vec_len s.clauses } };
}

impl Sos {
    /// None waits.
    pub fn new(alloc: Global) -> Mem<Sos>
        ensures { IfOk result (λ sos. sos.clauses ≡ []) }
    {
        Ok(Sos {
            clauses: Vec::new(alloc),
        })
    }

    /// Makes room for so many more.
    pub fn reserve(&mut self, alloc: Global, more: u32) -> Mem<()>
        ensures room { OnOk result (more ≤ self.new.spare) }
        ensures kept { OnOk result (self.new.clauses ≡ self.old.clauses) }
        ensures refused { OnErr result (self.new ≡ self.old) }
    {
        self.clauses.reserve(more as usize)?;
        Ok(())
    }

    /// Clause n, which doesn't wait yet, waits with this weight. There has to be room. It takes no memory.
    pub fn push(&mut self, n: u32, weight: u32)
        requires fresh { ¬ Waits self.old.clauses n }
        requires room { 0 < self.old.spare }
        ensures clauses { self.new.clauses ≡ with_clause self.old.clauses n weight }
        ensures spare { self.new.spare + 1 ≡ self.old.spare }
    {
        self.clauses.push_reserved(Weighed { number: n, weight });
    }

    /// Clause n doesn't wait any more, if it did.
    pub fn remove(&mut self, n: u32)
        ensures clauses { self.new.clauses ≡ without_clause self.old.clauses n }
        ensures spare { self.old.spare ≤ self.new.spare }
    {
        self.clauses.retain(|w| w.number != n);
    }

    /// The least number, None exactly where none waits.
    pub fn oldest(&self) -> Option<u32>
        ensures some { IfSome result (λ n. ComesFirst age_of IsAny self.now.clauses n) }
        ensures none { IfNone result (self.now.clauses ≡ []) }
    {
        match first(Order::Age, &self.clauses) {
            Some(w) => Some(w.number),
            None => None,
        }
    }

    /// The number of the lightest, ties to the lesser number; None exactly where none waits.
    pub fn lightest(&self) -> Option<u32>
        ensures some { IfSome result (λ n. ComesFirst weight_of IsAny self.now.clauses n) }
        ensures none { IfNone result (self.now.clauses ≡ []) }
    {
        match first(Order::Weight, &self.clauses) {
            Some(w) => Some(w.number),
            None => None,
        }
    }

    /// The number of the lightest of those that are marked False, ties to the lesser number; None exactly where none is.
    pub fn lightest_false(&self, marks: &Marks) -> Option<u32>
        ensures some { IfSome result (λ n. ComesFirst weight_of (IsFalseIn marks.now) self.now.clauses n) }
        ensures none { IfNone result (All (λ w. ¬ IsFalseIn marks.now w) self.now.clauses) }
    {
        match first_false(marks, &self.clauses) {
            Some(w) => Some(w.number),
            None => None,
        }
    }
}
