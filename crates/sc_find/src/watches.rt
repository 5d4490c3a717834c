//! Which instances wait for each cell.

ghost use Rattle.std.specs.Prelude.{◌≡◌, ◌<◌, ◌≤◌, ◌-◌, ◌++◌, ◌∷◌, [], ℕ, List as AList, Some, true, IfOk, OnOk, length, slice_get};
ghost use Rattle.sc_find.specs.declared.watch.Watch.{Watch as AWatch};
ghost use Rattle.sc_find.specs.Linked.{IsLatest};
ghost use Rattle.sc_find.specs.Watching.{IsTakenBack};

use crate::watch::Watch;
use sc_term::Mem;
use std::alloc::Global;
use std::marker::Model;

/// Watches, the latest last, and for each cell the number, from 1, of its latest one. Contracts see how many cells there
/// are, and the watches.
#[derive(Drop)]
pub struct Watches {
    latest: Vec<usize>,
    watches: Vec<Watch>,
}

impl Model for Watches {
    ghost use Rattle.std.specs.Prelude.{length};
    ghost use Rattle.sc_find.specs.Linked.{Board, AreLinked};

    ghost Value = { Board };

    ghost view = { λ w. record { cells = length w.latest.items; watches = w.watches.items } };

    ghost invariant = { λ w. AreLinked w.latest.items w.watches.items };
}

impl Watches {
    /// None yet, for so many cells.
    pub fn new(alloc: Global, cells: usize) -> Mem<Watches>
        ensures { IfOk result (λ w. w ≡ record { cells = cells; watches = [] }) }
    {
        let latest = vec![in alloc; 0usize; cells]?;
        Ok(Watches {
            latest,
            watches: Vec::new(alloc),
        })
    }

    /// The number, from 1, of the latest watch at the cell, or 0.
    pub fn latest(&self, cell: usize) -> usize
        requires { cell < self.now.cells }
        ensures { IsLatest self.now.watches (length self.now.watches) cell result }
    {
        self.latest[cell]
    }

    /// The watch of that number, from 1.
    pub fn get(&self, at: usize) -> Watch
        requires least { 1 ≤ at }
        requires most { at ≤ length self.now.watches }
        ensures value { slice_get self.now.watches (at - 1) ≡ Some result }
        ensures next { IsLatest self.now.watches (at - 1) result.cell result.next }
    {
        self.watches[at - 1]
    }

    /// One more.
    pub fn add(&mut self, instance: usize, cell: usize, depth: usize) -> Mem<()>
        requires { cell < self.old.cells }
        ensures { OnOk result ((next : ℕ) × (self.new ≡ record self.old { watches = self.old.watches ++ (record { instance = instance; cell = cell; depth = depth; next = next }) ∷ [] })) }
    {
        self.watches.push(Watch {
            instance,
            cell,
            depth,
            next: self.latest[cell],
        })?;
        self.latest[cell] = self.watches.len();
        Ok(())
    }

    /// Takes those away, from the last on, that were found when more cells had values.
    pub fn take_back(&mut self, depth: usize)
        ensures { IsTakenBack depth self.old self.new }
    {
        while self.is_deeper(depth) {
            self.drop_last();
        }
    }

    /// Whether there is a last watch, and it was found when more cells had values.
    fn is_deeper(&self, depth: usize) -> bool
        ensures { result ≡ true → (front : AList AWatch) × (last : AWatch) × (self.now.watches ≡ front ++ last ∷ []) × (depth < last.depth) }
    {
        match self.watches.last() {
            Some(watch) => watch.depth > depth,
            None => false,
        }
    }

    /// Takes the last one away, where there is one.
    fn drop_last(&mut self)
        ensures { (front : AList AWatch) (last : AWatch) → self.old.watches ≡ front ++ last ∷ [] → self.new ≡ record self.old { watches = front } }
    {
        match self.watches.pop() {
            Some(watch) => {
                self.latest[watch.cell] = watch.next;
            }
            None => {}
        }
    }
}
