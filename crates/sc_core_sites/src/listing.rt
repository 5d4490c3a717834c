//! All sites of a turn.

ghost use Rattle.std.specs.Prelude.{◌≡◌, ◌≢◌, ◌-◌, IfOk, OnOk, All, AllPairs, Contains, List as AList, length, map};
ghost use Rattle.sc_term.specs.declared.Numbered.{Numbered as ANumbered};
ghost use Rattle.sc_resolve.specs.Kept.{IsKept};
ghost use Rattle.sc_resolve.specs.Extending.{Extends};
ghost use Rattle.sc_core_rules.specs.Sites.{AreSites, site_numbers};
ghost use Rattle.sc_core_sites.specs.Sites.{site_of};
ghost use Rattle.sc_core_sites.specs.ByRule.{IsByRule};

use crate::site::Site;
use crate::told::told;
use sc_hyper::{hyper_sites, ur_sites};
use sc_input_rules::Flags;
use sc_para::{para_from_sites, para_into_sites};
use sc_resolve::{binary_sites, factor_sites};
use sc_term::{List, Mem, Numbered};
use std::alloc::Global;

/// How many sites there is room for.
fn room(limit: u32, sites: &List<Site>) -> u32
    ensures { result ≡ limit - length sites.now }
{
    (limit as usize).saturating_sub(sites.len()) as u32
}

/// Adds the sites of binary resolution, while there is room and where its flag is set.
fn add_binary(
    alloc: Global,
    flags: Flags,
    given: &Numbered,
    usable: &List<Numbered>,
    limit: u32,
    sites: &mut List<Site>,
) -> Mem<()>
    requires differ { AllPairs (λ p q. p.number ≢ q.number) usable.now }
    requires given { IsKept given.now.clause }
    requires kept { All (λ p. IsKept p.clause) usable.now }
    ensures { OnOk result (Extends site_numbers (IsByRule flags given.now usable.now 0) limit (map site_of sites.old) (map site_of sites.new)) }
{
    if !flags.binary_res {
        return Ok(());
    }
    let found = binary_sites(alloc, given, usable, room(limit, sites))?;
    let more = told(alloc, found, |s| Site::Binary(s))?;
    sites.append(more)?;
    Ok(())
}

/// Adds the sites of factoring, while there is room and where its flag is set.
fn add_factor(
    alloc: Global,
    flags: Flags,
    given: &Numbered,
    limit: u32,
    sites: &mut List<Site>,
) -> Mem<()>
    requires { IsKept given.now.clause }
    ensures { OnOk result ((usable : AList ANumbered) → Extends site_numbers (IsByRule flags given.now usable 1) limit (map site_of sites.old) (map site_of sites.new)) }
{
    if !flags.factor {
        return Ok(());
    }
    let found = factor_sites(alloc, given, room(limit, sites))?;
    let more = told(alloc, found, |s| Site::Factor(s))?;
    sites.append(more)?;
    Ok(())
}

/// Adds the sites of hyperresolution, while there is room and where its flag is set.
fn add_hyper(
    alloc: Global,
    flags: Flags,
    given: &Numbered,
    usable: &List<Numbered>,
    limit: u32,
    sites: &mut List<Site>,
) -> Mem<()>
    requires differ { AllPairs (λ p q. p.number ≢ q.number) usable.now }
    requires kept { All (λ p. IsKept p.clause) usable.now }
    ensures { OnOk result (Extends site_numbers (IsByRule flags given.now usable.now 2) limit (map site_of sites.old) (map site_of sites.new)) }
{
    if !flags.hyper_res {
        return Ok(());
    }
    let found = hyper_sites(alloc, given, usable, room(limit, sites))?;
    let more = told(alloc, found, |s| Site::Hyper(s))?;
    sites.append(more)?;
    Ok(())
}

/// Adds the sites of UR-resolution, while there is room and where its flag is set.
fn add_ur(
    alloc: Global,
    flags: Flags,
    given: &Numbered,
    usable: &List<Numbered>,
    limit: u32,
    sites: &mut List<Site>,
) -> Mem<()>
    requires differ { AllPairs (λ p q. p.number ≢ q.number) usable.now }
    requires kept { All (λ p. IsKept p.clause) usable.now }
    ensures { OnOk result (Extends site_numbers (IsByRule flags given.now usable.now 3) limit (map site_of sites.old) (map site_of sites.new)) }
{
    if !flags.ur_res {
        return Ok(());
    }
    let found = ur_sites(alloc, given, usable, room(limit, sites))?;
    let more = told(alloc, found, |s| Site::Ur(s))?;
    sites.append(more)?;
    Ok(())
}

/// Adds the sites of paramodulation from the given clause, while there is room and where its flag is set.
fn add_para_from(
    alloc: Global,
    flags: Flags,
    given: &Numbered,
    usable: &List<Numbered>,
    limit: u32,
    sites: &mut List<Site>,
) -> Mem<()>
    requires differ { AllPairs (λ p q. p.number ≢ q.number) usable.now }
    requires given { IsKept given.now.clause }
    requires kept { All (λ p. IsKept p.clause) usable.now }
    ensures { OnOk result (Extends site_numbers (IsByRule flags given.now usable.now 4) limit (map site_of sites.old) (map site_of sites.new)) }
{
    if !flags.para_from {
        return Ok(());
    }
    let found = para_from_sites(alloc, given, usable, room(limit, sites))?;
    let more = told(alloc, found, |s| Site::ParaFrom(s))?;
    sites.append(more)?;
    Ok(())
}

/// Adds the sites of paramodulation into the given clause, while there is room and where its flag is set.
fn add_para_into(
    alloc: Global,
    flags: Flags,
    given: &Numbered,
    usable: &List<Numbered>,
    limit: u32,
    sites: &mut List<Site>,
) -> Mem<()>
    requires differ { AllPairs (λ p q. p.number ≢ q.number) usable.now }
    requires given { IsKept given.now.clause }
    requires kept { All (λ p. IsKept p.clause) usable.now }
    ensures { OnOk result (Extends site_numbers (IsByRule flags given.now usable.now 5) limit (map site_of sites.old) (map site_of sites.new)) }
{
    if !flags.para_into {
        return Ok(());
    }
    let found = para_into_sites(alloc, given, usable, room(limit, sites))?;
    let more = told(alloc, found, |s| Site::ParaInto(s))?;
    sites.append(more)?;
    Ok(())
}

/// The sites of the given clause, which is one of the usable clauses, by each rule whose flag is set, in the order of the
/// rules and of the sites of each (`AreSites`): the first ones, at most as many as the limit. The numbers of the usable
/// clauses have to differ.
pub fn sites(
    alloc: Global,
    flags: Flags,
    given: &Numbered,
    usable: &List<Numbered>,
    limit: u32,
) -> Mem<List<Site>>
    requires listed { Contains usable.now given.now }
    requires differ { AllPairs (λ p q. p.number ≢ q.number) usable.now }
    requires kept { All (λ p. IsKept p.clause) usable.now }
    ensures { IfOk result (λ sites. AreSites flags given.now usable.now limit (map site_of sites)) }
{
    let mut sites = List::new(alloc);
    add_binary(alloc, flags, given, usable, limit, &mut sites)?;
    add_factor(alloc, flags, given, limit, &mut sites)?;
    add_hyper(alloc, flags, given, usable, limit, &mut sites)?;
    add_ur(alloc, flags, given, usable, limit, &mut sites)?;
    add_para_from(alloc, flags, given, usable, limit, &mut sites)?;
    add_para_into(alloc, flags, given, usable, limit, &mut sites)?;
    Ok(sites)
}
