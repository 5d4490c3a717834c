//! The proof of a clause, put together from the derivations.

ghost use Rattle.std.specs.Prelude.{◌≡◌, ℕ, ◌<◌, ◌≤◌, ◌+◌, ◌-◌, ◌^◌, [], Some, IsSomeAnd, IfOk, length};
ghost use Rattle.sc_term.specs.declared.Clause.{Clause as AClause};
ghost use Rattle.sc_term.specs.Numbering.{numbered};
ghost use Rattle.sc_term.specs.Proof.{IsProof};
ghost use Rattle.sc_steps.specs.declared.derivations.derivation.Derived.{Derived as ADerived};
ghost use Rattle.sc_steps.specs.Derivation.{all_clauses, derived_at, AreDerived, IsInputAt};
ghost use Rattle.sc_steps.specs.Splice.{IsSplice};

use crate::derivations::derivation::Derived;
use crate::derivations::join::join_clauses;
use crate::derivations::needed::needed;
use crate::derivations::source::source;
use crate::lists::numbered;
use sc_term::{Clause, Line, List, Mem};
use std::alloc::Global;

/// The proof of a clause whose derivation doesn't end with an `input` line.
fn splice_source(
    alloc: Global,
    inputs: &[Clause],
    derived: &[Derived],
    goal: u32,
) -> Mem<List<Line>>
    requires goal { (c : AClause) × (numbered (all_clauses inputs.now derived.now) goal ≡ Some c) }
    requires derivations { AreDerived inputs.now derived.now }
    requires ends { (d : ADerived) (m : ℕ) → derived_at inputs.now derived.now goal ≡ Some d → ¬ IsInputAt d.lines m (length d.lines) }
    ensures splice { IfOk result (λ lines. IsSplice inputs.now derived.now goal lines) }
    ensures few { IfOk result (λ lines. length lines < 2 ^ 32 - 1) }
{
    match numbered(inputs, goal) {
        Some(_) => join_clauses(alloc, inputs, derived, &[goal]),
        None => {
            let numbers = needed(alloc, inputs, derived, goal)?;
            join_clauses(alloc, inputs, derived, numbers.as_slice())
        }
    }
}

/// The proof of clause number `goal` (`IsSplice`): the lines of the clauses that it needs, in rising number, with
/// their references renumbered. Where the clause is empty they are a proof of the input clauses (`IsProof`).
///
/// `goal` has to be the number of an input clause or of a derived one, which have the numbers after those; each
/// derivation has to be one over the clauses of smaller number that ends with its clause (`AreDerived`). The answer is
/// `OutOfMemory` too where there would be 4,294,967,295 lines or more. The time is in proportion to the derivations of
/// the needed clauses, times the logarithm of their number.
pub fn splice(
    alloc: Global,
    inputs: &List<Clause>,
    derived: &List<Derived>,
    goal: u32,
) -> Mem<List<Line>>
    requires there { 0 < goal }
    requires within { goal ≤ length inputs.now + length derived.now }
    requires derivations { AreDerived inputs.now derived.now }
    ensures splice { IfOk result (λ lines. IsSplice inputs.now derived.now goal lines) }
    ensures proof { IfOk result (λ lines. IsSomeAnd (numbered (all_clauses inputs.now derived.now) goal) (λ c. c.literals ≡ []) → IsProof inputs.now lines) }
    ensures few { IfOk result (λ lines. length lines < 2 ^ 32 - 1) }
{
    let (inputs, derived) = (inputs.as_slice(), derived.as_slice());
    let last = source(inputs, derived, goal);
    splice_source(alloc, inputs, derived, last)
}
