//! The clauses that a site names.

ghost use Rattle.std.specs.Prelude.{◌≡◌, ◌∷◌, [], IfOk};
ghost use Rattle.sc_core_rules.specs.Hyperresolution.{picked_numbers};
ghost use Rattle.sc_core_sites.specs.Sites.{site_of, named_numbers};

use crate::site::Site;
use sc_core_rules::{HyperSite, UrSite};
use sc_term::{List, Mem};
use std::alloc::Global;

fn one(alloc: Global, number: u32) -> Mem<List<u32>>
    ensures { IfOk result (λ numbers. numbers ≡ number ∷ []) }
{
    let mut numbers = List::new(alloc);
    numbers.push(number)?;
    Ok(numbers)
}

/// The numbers of the nucleus and of the electrons.
fn named_by_hyper(alloc: Global, site: &HyperSite) -> Mem<List<u32>>
    ensures { IfOk result (λ numbers. numbers ≡ site.now.nucleus ∷ picked_numbers site.now) }
{
    let mut numbers = one(alloc, site.nucleus)?;
    for pick in site.electrons.as_slice() {
        numbers.push(pick.number)?;
    }
    Ok(numbers)
}

/// The numbers of the nucleus and of the units.
fn named_by_ur(alloc: Global, site: &UrSite) -> Mem<List<u32>>
    ensures { IfOk result (λ numbers. numbers ≡ site.now.nucleus ∷ site.now.units) }
{
    let mut numbers = one(alloc, site.nucleus)?;
    numbers.append(List::from_slice(alloc, site.units.as_slice())?)?;
    Ok(numbers)
}

/// The numbers of the usable clauses that the site names, in the order of the parents. A clause may be named twice.
pub fn named(alloc: Global, site: &Site) -> Mem<List<u32>>
    ensures { IfOk result (λ numbers. numbers ≡ named_numbers (site_of site.now)) }
{
    match site {
        Site::Binary(binary) => one(alloc, binary.partner),
        Site::Factor(_) => Ok(List::new(alloc)),
        Site::Hyper(hyper) => named_by_hyper(alloc, hyper),
        Site::Ur(ur) => named_by_ur(alloc, ur),
        Site::ParaFrom(para) => one(alloc, para.into),
        Site::ParaInto(para) => one(alloc, para.from),
    }
}
