//! The index: literals with the numbers of their clauses.

ghost use Rattle.std.specs.Prelude.{◌≡◌, ◌++◌, ◌∷◌, [], IfOk, OnOk, OnErr};
ghost use Rattle.std.specs.List.Sorted.{IsStrictlyIncreasing};
ghost use Rattle.sc_index.specs.Entries.{IsGeneral, IsInstance, IsWithout, AreNumbers};

use crate::asking::ask;
use crate::entries::{Entry, Wanted, add_slot};
use crate::flat::flatten;
use crate::removal::empty_each;
use crate::tree::{Node, empty_node, hold, make_path};
use sc_term::{List, Literal, Mem, copy_literal};
use std::alloc::Global;
use std::marker::Model;

/// Literals with the numbers of their clauses, which contracts see as the list of them, in the order in which they were
/// inserted.
#[derive(Drop)]
pub struct Index {
    /// A tree over the rows of the literals.
    nodes: Vec<Node>,
    /// A slot for each literal that was ever inserted, which is empty once it is removed.
    slots: List<Option<Entry>>,
}

impl Model for Index {
    ghost use Rattle.std.specs.Prelude.{List};
    ghost use Rattle.std.specs.Coded.{codes};
    ghost use Rattle.sc_term.specs.contracts.Term as term;
    ghost use Rattle.sc_index.specs.declared.entries.Entry.{Entry};
    ghost use Rattle.sc_index.specs.Entries.{present, IsIndexed};

    ghost Value = { List Entry };

    ghost coded = { Prim.hlevel (codes, term.the_row.coded) };

    ghost view = { λ d. present d.slots };

    ghost invariant = { λ d. IsIndexed d.nodes.items d.slots };
}

impl Index {
    /// The index of nothing.
    pub fn new(alloc: Global) -> Mem<Index>
        ensures { IfOk result (λ index. index ≡ []) }
    {
        let mut nodes = Vec::new(alloc);
        nodes.push(empty_node(alloc))?;
        Ok(Index {
            nodes,
            slots: List::new(alloc),
        })
    }

    /// Adds the literal with the number, also where they are there already.
    pub fn insert(&mut self, alloc: Global, lit: &Literal, number: u32) -> Mem<()>
        ensures ok { OnOk result (self.new ≡ self.old ++ record { literal = lit.now; number = number } ∷ []) }
        ensures err { OnErr result (self.new ≡ self.old) }
    {
        let cells = flatten(alloc, lit)?;
        let literal = copy_literal(alloc, lit)?;
        let end = make_path(alloc, &mut self.nodes, cells.as_slice())?;
        hold(&mut self.nodes, end, self.slots.len())?;
        add_slot(&mut self.slots, literal, number)?;
        Ok(())
    }

    /// Drops each entry that is this literal with this number (`IsWithout`). Takes no memory, and looks at each slot.
    pub fn remove(&mut self, lit: &Literal, number: u32)
        ensures { IsWithout (record { literal = lit.now; number = number }) self.old self.new }
    {
        empty_each(&mut self.slots, lit, number);
    }

    /// The numbers, rising and once each, of the literals of its sign that have it as an instance (`IsGeneral`).
    pub fn general(&self, alloc: Global, lit: &Literal) -> Mem<List<u32>>
        ensures rising { IfOk result (λ numbers. IsStrictlyIncreasing numbers) }
        ensures exact { IfOk result (λ numbers. AreNumbers (IsGeneral lit.now) self.now numbers) }
    {
        let numbers = ask(
            alloc,
            self.nodes.as_slice(),
            self.slots.as_slice(),
            Wanted::General,
            lit,
        )?;
        Ok(numbers)
    }

    /// The numbers, rising and once each, of the literals of its sign that are instances of it (`IsInstance`).
    pub fn instances(&self, alloc: Global, lit: &Literal) -> Mem<List<u32>>
        ensures rising { IfOk result (λ numbers. IsStrictlyIncreasing numbers) }
        ensures exact { IfOk result (λ numbers. AreNumbers (IsInstance lit.now) self.now numbers) }
    {
        let numbers = ask(
            alloc,
            self.nodes.as_slice(),
            self.slots.as_slice(),
            Wanted::Instances,
            lit,
        )?;
        Ok(numbers)
    }
}
