//! The empty clause of two units that conflict.

ghost use Rattle.std.specs.Prelude.{◌≡◌, ◌≢◌, ◌∷◌, [], ◌↔◌, ◌<◌, ◌+◌, ◌^◌, not, length, IsTrue, IfOk, MatchOption};
ghost use Rattle.std.specs.List.{All};
ghost use Rattle.sc_term.specs.Clause as spec;
ghost use Rattle.sc_steps.specs.declared.derivations.derivation.Derived.{Derived as ADerived};
ghost use Rattle.sc_core_rules.specs.Conflict.{Conflicts};
ghost use Rattle.sc_core_rules.specs.Pairing.{HaveOppositeSigns};
ghost use Rattle.sc_keep.specs.Parts.{HasParts, unit_pairs};

use crate::adding::add_part;
use crate::parts::{only_literal, parts_terms};
use sc_steps::Derived;
use sc_term::{Clause, Line, List, Literal, Mem, Numbered, Step, Term, copy_terms};
use std::alloc::Global;

/// Whether the two have opposite signs and one predicate.
fn may_conflict(l: &Literal, r: &Literal) -> bool
    ensures { IsTrue result ↔ ((l.now.positive ≢ r.now.positive) × (l.now.pred ≡ r.now.pred)) }
{
    l.positive != r.positive && l.pred == r.pred
}

/// The empty clause with the derivation from the parts of the two units.
fn derivation(alloc: Global, n: &Numbered, m: &Numbered, terms: &[List<Term>]) -> Mem<Derived>
    requires differ { n.now.number ≢ m.now.number }
    requires canonical_n { spec.IsCanonical n.now.clause }
    requires canonical_m { spec.IsCanonical m.now.clause }
    requires unit_n { length n.now.clause.literals ≡ 1 }
    requires unit_m { length m.now.clause.literals ≡ 1 }
    requires opposite { HaveOppositeSigns (unit_pairs n.now.clause m.now.clause) }
    requires parts { HasParts (n.now.clause ∷ m.now.clause ∷ []) (unit_pairs n.now.clause m.now.clause) terms.now }
    ensures { IfOk result (λ made. Conflicts n.now m.now made) }
{
    let mut lines = List::new(alloc);
    let first = copy_terms(alloc, terms[0].as_slice())?;
    let second = copy_terms(alloc, terms[1].as_slice())?;
    let left = add_part(alloc, &mut lines, n, first)?;
    let right = add_part(alloc, &mut lines, m, second)?;
    lines.push(Line {
        step: Step::Resolve {
            left,
            left_lit: 1,
            right,
            right_lit: 1,
        },
        clause: Clause {
            literals: List::new(alloc),
        },
    })?;
    Ok(Derived {
        clause: Clause {
            literals: List::new(alloc),
        },
        lines,
    })
}

/// The empty clause with its derivation, where the two units of opposite signs conflict.
fn units_conflict(alloc: Global, n: &Numbered, m: &Numbered) -> Mem<Option<Derived>>
    requires differ { n.now.number ≢ m.now.number }
    requires canonical_n { spec.IsCanonical n.now.clause }
    requires canonical_m { spec.IsCanonical m.now.clause }
    requires few { spec.width n.now.clause + spec.width m.now.clause < 2 ^ 31 }
    requires unit_n { length n.now.clause.literals ≡ 1 }
    requires unit_m { length m.now.clause.literals ≡ 1 }
    requires opposite { HaveOppositeSigns (unit_pairs n.now.clause m.now.clause) }
    ensures { IfOk result (λ found. MatchOption found ((made : ADerived) → ¬ Conflicts n.now m.now made) (λ made. Conflicts n.now m.now made)) }
{
    match parts_terms(alloc, &n.clause, &m.clause)? {
        Some(terms) => {
            let made = derivation(alloc, n, m, terms.as_slice())?;
            Ok(Some(made))
        }
        None => Ok(None),
    }
}

/// The empty clause with its derivation, where the two clauses, which are canonical and have different numbers,
/// conflict (`Conflicts`).
pub fn conflict(alloc: Global, n: &Numbered, m: &Numbered) -> Mem<Option<Derived>>
    requires differ { n.now.number ≢ m.now.number }
    requires canonical_n { spec.IsCanonical n.now.clause }
    requires canonical_m { spec.IsCanonical m.now.clause }
    requires few { spec.width n.now.clause + spec.width m.now.clause < 2 ^ 31 }
    ensures { IfOk result (λ found. MatchOption found ((made : ADerived) → ¬ Conflicts n.now m.now made) (λ made. Conflicts n.now m.now made)) }
{
    match (only_literal(&n.clause), only_literal(&m.clause)) {
        (Some(l), Some(r)) => {
            if !may_conflict(l, r) {
                return Ok(None);
            }
            let found = units_conflict(alloc, n, m)?;
            Ok(found)
        }
        _ => Ok(None),
    }
}
