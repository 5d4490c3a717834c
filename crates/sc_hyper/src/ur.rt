//! The sites of UR-resolution.

ghost use Rattle.std.specs.Prelude.{◌≡◌, ◌≢◌, ◌<◌, ◌≤◌, ◌++◌, map, [], length, IfOk, OnOk, All, AllPairs};
ghost use Rattle.sc_core_rules.specs.declared.site.Pick.{Pick as APick};
ghost use Rattle.sc_core_rules.specs.Hyperresolution.{AreUrSites, ur_numbers};
ghost use Rattle.sc_resolve.specs.ByNumber.{seen};
ghost use Rattle.sc_resolve.specs.Kept.{IsKept};
ghost use Rattle.sc_resolve.specs.Extending.{Extends, Below};
ghost use Rattle.sc_hyper.specs.Candidates.{IsNarrow, IsFirst, DoRise};
ghost use Rattle.sc_hyper.specs.Ur.{ur_of, IsWithTarget, IsWithTargets, IsWithUrUsable};

use crate::candidates::{Candidate, units};
use crate::choice::PartialSite;
use crate::choosing::choose;
use crate::negatives::other_literals;
use sc_core_rules::{HyperSite, Pick, UrSite};
use sc_resolve::by_number;
use sc_term::{List, Mem, Numbered, width};
use std::alloc::Global;

/// The numbers of the clauses.
pub fn numbers(alloc: Global, picks: &[Pick]) -> Mem<List<u32>>
    ensures { IfOk result (λ ns. ns ≡ map (λ (p : APick). p.number) picks.now) }
{
    let mut numbers = List::new(alloc);
    for pick in picks {
        numbers.push(pick.number)?;
    }
    Ok(numbers)
}

/// The site of a whole choice.
fn ur_site(alloc: Global, target: u32, whole: &HyperSite) -> Mem<UrSite>
    ensures { IfOk result (λ site. site ≡ ur_of target whole.now) }
{
    let units = numbers(alloc, whole.electrons.as_slice())?;
    Ok(UrSite {
        nucleus: whole.nucleus,
        target,
        units,
    })
}

/// The sites of whole choices.
fn ur_sites_of(alloc: Global, target: u32, whole: &[HyperSite]) -> Mem<List<UrSite>>
    ensures { IfOk result (λ sites. sites ≡ map (ur_of target) whole.now) }
{
    let mut sites = List::new(alloc);
    for site in whole {
        sites.push(ur_site(alloc, target, site)?)?;
    }
    Ok(sites)
}

/// Adds the sites with the nucleus and its literal that is left, while there is room.
fn add_with_target(
    alloc: Global,
    nucleus: &Numbered,
    target: u32,
    given: u32,
    units: &[Candidate],
    limit: usize,
    sites: &mut List<UrSite>,
) -> Mem<()>
    requires kept { IsKept nucleus.now.clause }
    requires narrow { All IsNarrow units.now }
    requires first { All IsFirst units.now }
    requires rising { DoRise units.now }
    requires room { length sites.old < limit }
    ensures { OnOk result (Extends ur_numbers (IsWithTarget given units.now nucleus.now target) limit sites.old sites.new) }
{
    let found = other_literals(alloc, &nucleus.clause, target)?;
    let choice = PartialSite {
        picks: List::new(alloc),
        pairs: List::new(alloc),
        low: width(&nucleus.clause),
    };
    let mut whole = List::new(alloc);
    choose(
        alloc,
        nucleus.number,
        given,
        found.literals.as_slice(),
        units,
        &choice,
        limit - sites.len(),
        &mut whole,
    )?;
    let more = ur_sites_of(alloc, target, whole.as_slice())?;
    sites.append(more)?;
    Ok(())
}

/// Adds the sites with the nucleus, while there is room.
fn add_with_targets(
    alloc: Global,
    nucleus: &Numbered,
    given: u32,
    units: &[Candidate],
    limit: usize,
    sites: &mut List<UrSite>,
) -> Mem<()>
    requires kept { IsKept nucleus.now.clause }
    requires few { length nucleus.now.clause.literals ≤ 10000 }
    requires narrow { All IsNarrow units.now }
    requires first { All IsFirst units.now }
    requires rising { DoRise units.now }
    ensures { OnOk result (Extends ur_numbers (IsWithTargets given units.now nucleus.now) limit sites.old sites.new) }
{
    let many = nucleus.clause.literals.len();
    if many < 2 {
        return Ok(());
    }
    for at in 0..many {
        if sites.len() >= limit {
            return Ok(());
        }
        let target = at as u32 + 1;
        add_with_target(alloc, nucleus, target, given, units, limit, sites)?;
    }
    Ok(())
}

/// The first sites of all nuclei, at most as many as the limit.
fn ur_sites_with(
    alloc: Global,
    usable: &[&Numbered],
    given: u32,
    units: &[Candidate],
    limit: usize,
) -> Mem<List<UrSite>>
    requires numbers { AllPairs (λ p q. p.number < q.number) (seen usable.now) }
    requires kept { All (λ p. IsKept p.clause) (seen usable.now) }
    requires narrow { All IsNarrow units.now }
    requires first { All IsFirst units.now }
    requires rising { DoRise units.now }
    ensures { IfOk result (λ sites. Extends ur_numbers (Below (IsWithUrUsable given units.now (seen usable.now)) (length (seen usable.now))) limit [] sites) }
{
    let mut sites = List::new(alloc);
    for nucleus in usable {
        if sites.len() >= limit {
            return Ok(sites);
        }
        add_with_targets(alloc, nucleus, given, units, limit, &mut sites)?;
    }
    Ok(sites)
}

/// `ur_sites` with the usable clauses in rising order of their numbers.
fn ur_sites_in_order(
    alloc: Global,
    given: &Numbered,
    usable: &[&Numbered],
    limit: u32,
) -> Mem<List<UrSite>>
    requires rising { AllPairs (λ p q. p.number < q.number) (seen usable.now) }
    requires kept { All (λ p. IsKept p.clause) (seen usable.now) }
    ensures { IfOk result (λ sites. AreUrSites given.now (seen usable.now) limit sites) }
{
    let found = units(alloc, usable)?;
    ur_sites_with(
        alloc,
        usable,
        given.number,
        found.as_slice(),
        limit as usize,
    )
}

/// The sites of UR-resolution of the given clause with the usable clauses, in rising order of the numbers of the
/// nucleus, of the literal that is left, of the first unit, of the second, and so on (`AreUrSites`): the first ones, at
/// most as many as the limit. The usable clauses may stand in any order, but their numbers have to differ.
pub fn ur_sites(
    alloc: Global,
    given: &Numbered,
    usable: &List<Numbered>,
    limit: u32,
) -> Mem<List<UrSite>>
    requires differ { AllPairs (λ p q. p.number ≢ q.number) usable.now }
    requires kept { All (λ p. IsKept p.clause) usable.now }
    ensures { IfOk result (λ sites. AreUrSites given.now usable.now limit sites) }
{
    let ordered = by_number(alloc, usable.as_slice())?;
    ur_sites_in_order(alloc, given, ordered.as_slice(), limit)
}
