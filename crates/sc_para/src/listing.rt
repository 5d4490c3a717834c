//! The sites of paramodulation from and into the given clause.

ghost use Rattle.std.specs.Prelude.{◌≢◌, ◌<◌, IfOk, All, AllPairs};
ghost use Rattle.sc_core_rules.specs.Paramodulation.{AreParaFromSites, AreParaIntoSites};
ghost use Rattle.sc_resolve.specs.ByNumber.{seen};
ghost use Rattle.sc_resolve.specs.Kept.{IsKept};

use crate::pairs::add_with_pair;
use sc_core_rules::ParaSite;
use sc_resolve::by_number;
use sc_term::{List, Mem, Numbered};
use std::alloc::Global;

/// `para_from_sites` into partners in rising order of their numbers.
fn from_sites_in_order(
    alloc: Global,
    given: &Numbered,
    partners: &[&Numbered],
    limit: u32,
) -> Mem<List<ParaSite>>
    requires rising { AllPairs (λ p q. p.number < q.number) (seen partners.now) }
    requires given { IsKept given.now.clause }
    requires kept { All (λ p. IsKept p.clause) (seen partners.now) }
    ensures { IfOk result (λ sites. AreParaFromSites given.now (seen partners.now) limit sites) }
{
    let mut sites = List::new(alloc);
    for into in partners {
        if sites.len() >= limit as usize {
            return Ok(sites);
        }
        add_with_pair(alloc, given, into, limit as usize, &mut sites)?;
    }
    Ok(sites)
}

/// The sites of paramodulation from the given clause into the usable clauses, in rising order of the partner's number,
/// of the equation, with the left side before the right, of the literal and of the path, a path before those that
/// extend it (`AreParaFromSites`): the first ones, at most as many as the limit. The usable clauses may stand in any
/// order, but their numbers have to differ. Where the given clause is among them it is its own partner too.
pub fn para_from_sites(
    alloc: Global,
    given: &Numbered,
    usable: &List<Numbered>,
    limit: u32,
) -> Mem<List<ParaSite>>
    requires differ { AllPairs (λ p q. p.number ≢ q.number) usable.now }
    requires given { IsKept given.now.clause }
    requires kept { All (λ p. IsKept p.clause) usable.now }
    ensures { IfOk result (λ sites. AreParaFromSites given.now usable.now limit sites) }
{
    let ordered = by_number(alloc, usable.as_slice())?;
    from_sites_in_order(alloc, given, ordered.as_slice(), limit)
}

/// `para_into_sites` from partners in rising order of their numbers.
fn into_sites_in_order(
    alloc: Global,
    given: &Numbered,
    partners: &[&Numbered],
    limit: u32,
) -> Mem<List<ParaSite>>
    requires rising { AllPairs (λ p q. p.number < q.number) (seen partners.now) }
    requires given { IsKept given.now.clause }
    requires kept { All (λ p. IsKept p.clause) (seen partners.now) }
    ensures { IfOk result (λ sites. AreParaIntoSites given.now (seen partners.now) limit sites) }
{
    let mut sites = List::new(alloc);
    for from in partners {
        if sites.len() >= limit as usize {
            return Ok(sites);
        }
        add_with_pair(alloc, from, given, limit as usize, &mut sites)?;
    }
    Ok(sites)
}

/// The sites of paramodulation into the given clause from the usable clauses, in rising order of the partner's number,
/// of the equation, with the left side before the right, of the literal and of the path, a path before those that
/// extend it (`AreParaIntoSites`): the first ones, at most as many as the limit. The usable clauses may stand in any
/// order, but their numbers have to differ. Where the given clause is among them it is its own partner too.
pub fn para_into_sites(
    alloc: Global,
    given: &Numbered,
    usable: &List<Numbered>,
    limit: u32,
) -> Mem<List<ParaSite>>
    requires differ { AllPairs (λ p q. p.number ≢ q.number) usable.now }
    requires given { IsKept given.now.clause }
    requires kept { All (λ p. IsKept p.clause) usable.now }
    ensures { IfOk result (λ sites. AreParaIntoSites given.now usable.now limit sites) }
{
    let ordered = by_number(alloc, usable.as_slice())?;
    into_sites_in_order(alloc, given, ordered.as_slice(), limit)
}
