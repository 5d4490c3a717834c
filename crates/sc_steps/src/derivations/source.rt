//! The clause whose proof stands for that of a goal.

ghost use Rattle.std.specs.Prelude.{◌≡◌, ℕ, List, Some, length};
ghost use Rattle.sc_term.specs.declared.Clause.{Clause as AClause};
ghost use Rattle.sc_term.specs.declared.Line.{Line as ALine};
ghost use Rattle.sc_term.specs.Numbering.{numbered};
ghost use Rattle.sc_steps.specs.declared.derivations.derivation.Derived.{Derived as ADerived};
ghost use Rattle.sc_steps.specs.Derivation.{all_clauses, derived_at, AreDerived, IsInputAt};
ghost use Rattle.sc_steps.specs.Splice.{IsSplice};

use crate::derivations::derivation::Derived;
use crate::derivations::named::named_last_of;
use sc_term::Clause;

/// The goal, or else the first clause back from it, by `input` lines that end derivations, whose own derivation
/// doesn't end so. Its proof is the goal's.
pub fn source(inputs: &[Clause], derived: &[Derived], goal: u32) -> u32
    requires goal { (c : AClause) × (numbered (all_clauses inputs.now derived.now) goal ≡ Some c) }
    requires derivations { AreDerived inputs.now derived.now }
    ensures goal { (c : AClause) × (numbered (all_clauses inputs.now derived.now) result ≡ Some c) }
    ensures ends { (d : ADerived) (m : ℕ) → derived_at inputs.now derived.now result ≡ Some d → ¬ IsInputAt d.lines m (length d.lines) }
    ensures proof { (lines : List ALine) → IsSplice inputs.now derived.now result lines → IsSplice inputs.now derived.now goal lines }
{
    let mut n = goal;
    while let Some(m) = named_last_of(inputs, derived, n) {
        n = m;
    }
    n
}
