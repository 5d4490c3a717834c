//! Demodulators in the order of their numbers.

ghost use Rattle.std.specs.Prelude.{◌≡◌, ◌<◌, [], ◌∷◌, ◌++◌, All, OnOk, OnErr};
ghost use Rattle.sc_core_rules.specs.Rewriting.{IsDemodulator};
ghost use Rattle.sc_demod.specs.Rewriting.{AreDemods};

use sc_term::{List, Mem, Numbered};
use std::alloc::Global;
use std::marker::Model;

/// Demodulators with their numbers, which rise. Contracts see the list of them; `AreDemods` says what every such list
/// keeps.
#[derive(Drop)]
pub struct Demods {
    items: List<Numbered>,
}

impl Model for Demods {
    ghost use Rattle.std.specs.Prelude.{List as AList};
    ghost use Rattle.std.specs.Coded.{codes};
    ghost use Rattle.sc_term.specs.contracts.Term as term;
    ghost use Rattle.sc_term.specs.declared.Numbered.{Numbered};
    ghost use Rattle.sc_demod.specs.Rewriting.{AreDemods};

    ghost Value = { AList Numbered };

    ghost coded = { Prim.hlevel (codes, term.the_row.coded) };

    ghost view = { λ d. d.items };

    ghost invariant = { λ d. AreDemods d.items };
}

impl Demods {
    /// No demodulators.
    pub fn new(alloc: Global) -> Demods
        ensures { result ≡ [] }
    {
        Demods {
            items: List::new(alloc),
        }
    }

    /// Adds a demodulator, whose number has to be greater than all.
    pub fn push(&mut self, d: Numbered) -> Mem<()>
        requires demodulator { IsDemodulator d.clause }
        requires greatest { All (λ p. p.number < d.number) self.old }
        ensures ok { OnOk result (self.new ≡ self.old ++ d ∷ []) }
        ensures err { OnErr result (self.new ≡ self.old) }
    {
        self.items.push(d)?;
        Ok(())
    }

    /// The demodulators in order.
    pub fn as_slice(&self) -> &[Numbered]
        ensures value { result.now ≡ self.now }
        ensures kept { AreDemods self.now }
    {
        self.items.as_slice()
    }
}
