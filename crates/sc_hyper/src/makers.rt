//! Conclusions of hyperresolution and UR-resolution.

ghost use Rattle.std.specs.Prelude.{◌≡◌, ◌≢◌, length, map, All, AllPairs, IfOk};
ghost use Rattle.sc_term.specs.declared.Numbered.{Numbered as ANumbered};
ghost use Rattle.sc_core_rules.specs.declared.site.Pick.{Pick as APick};
ghost use Rattle.sc_core_rules.specs.Inference.{Inference};
ghost use Rattle.sc_core_rules.specs.Hyperresolution.{IsHyper, IsUr};
ghost use Rattle.sc_resolve.specs.Kept.{IsKept};
ghost use Rattle.sc_resolve.specs.Made.{Makes};

use crate::named::parents_of;
use crate::negatives::{negative_literals, other_literals};
use crate::steps::conclusion;
use crate::ur::numbers;
use sc_core_rules::{HyperSite, Pick, UrSite};
use sc_steps::Made;
use sc_term::{List, Mem, Numbered};
use std::alloc::Global;

/// The literals of the electrons.
fn literals(alloc: Global, picks: &[Pick]) -> Mem<List<u32>>
    ensures { IfOk result (λ ns. ns ≡ map (λ (p : APick). p.lit) picks.now) }
{
    let mut literals = List::new(alloc);
    for pick in picks {
        literals.push(pick.lit)?;
    }
    Ok(literals)
}

/// Literal 1 for each unit.
fn firsts(alloc: Global, units: &[u32]) -> Mem<List<u32>>
    ensures { IfOk result (λ ns. ns ≡ map (λ n. 1) units.now) }
{
    let mut firsts = List::new(alloc);
    for _unit in units {
        firsts.push(1)?;
    }
    Ok(firsts)
}

/// The conclusion of hyperresolution at the site, with its derivation, or None exactly where the joint instance or the
/// conclusion is outside the limits (`Concludes`). The numbers of the usable clauses have to differ.
pub fn make_hyper(alloc: Global, usable: &List<Numbered>, site: &HyperSite) -> Mem<Option<Made>>
    requires kept { All (λ p. IsKept p.clause) usable.now }
    requires differ { AllPairs (λ p q. p.number ≢ q.number) usable.now }
    requires site { (given : ANumbered) × (i : Inference) × IsHyper given usable.now site.now i }
    ensures { (given : ANumbered) (i : Inference) → IsHyper given usable.now site.now i → IfOk result (λ made. Makes i made) }
{
    let picks = site.electrons.as_slice();
    let electrons = numbers(alloc, picks)?;
    let parents = match parents_of(alloc, usable.as_slice(), site.nucleus, electrons)? {
        Some(parents) => parents,
        None => return Ok(None),
    };
    let nucleus = match parents.get(0) {
        Some(nucleus) => nucleus,
        None => return Ok(None),
    };
    let negative = negative_literals(alloc, &nucleus.clause)?;
    let others = literals(alloc, picks)?;
    conclusion(
        alloc,
        parents.as_slice(),
        negative.numbers.as_slice(),
        others.as_slice(),
    )
}

/// The conclusion of UR-resolution at the site, with its derivation, or None exactly where the joint instance or the
/// conclusion is outside the limits (`Concludes`). The numbers of the usable clauses have to differ.
pub fn make_ur(alloc: Global, usable: &List<Numbered>, site: &UrSite) -> Mem<Option<Made>>
    requires kept { All (λ p. IsKept p.clause) usable.now }
    requires differ { AllPairs (λ p q. p.number ≢ q.number) usable.now }
    requires site { (given : ANumbered) × (i : Inference) × IsUr given usable.now site.now i }
    ensures { (given : ANumbered) (i : Inference) → IsUr given usable.now site.now i → IfOk result (λ made. Makes i made) }
{
    let units = List::from_slice(alloc, site.units.as_slice())?;
    let parents = match parents_of(alloc, usable.as_slice(), site.nucleus, units)? {
        Some(parents) => parents,
        None => return Ok(None),
    };
    let nucleus = match parents.get(0) {
        Some(nucleus) => nucleus,
        None => return Ok(None),
    };
    let lits = other_literals(alloc, &nucleus.clause, site.target)?;
    let others = firsts(alloc, site.units.as_slice())?;
    conclusion(
        alloc,
        parents.as_slice(),
        lits.numbers.as_slice(),
        others.as_slice(),
    )
}
