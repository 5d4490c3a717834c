//! The sites of factoring.

ghost use Rattle.std.specs.Prelude.{◌≡◌, ◌<◌, ◌≤◌, ◌+◌, length, IfOk, OnOk};
ghost use Rattle.sc_core_rules.specs.Resolution.{AreFactorSites, factor_numbers};
ghost use Rattle.sc_resolve.specs.Kept.{IsKept};
ghost use Rattle.sc_resolve.specs.Extending.{Extends, Below};
ghost use Rattle.sc_resolve.specs.Factor.{IsWithSecond, IsWithFirst};

use crate::literals::are_mergeable;
use sc_core_rules::FactorSite;
use sc_term::{List, Literal, Mem, Numbered};
use std::alloc::Global;

/// Adds the sites of the literal at `first` with those behind it, while there is room.
fn add_with_first(
    alloc: Global,
    literals: &[Literal],
    first: usize,
    limit: usize,
    sites: &mut List<FactorSite>,
) -> Mem<()>
    requires there { first < length literals.now }
    requires few { length literals.now ≤ 10000 }
    ensures { OnOk result (Extends factor_numbers (IsWithFirst literals.now first) limit sites.old sites.new) }
{
    for at in first + 1..literals.len() {
        if sites.len() >= limit {
            return Ok(());
        }
        if are_mergeable(alloc, &literals[first], &literals[at])? {
            sites.push(FactorSite {
                first: first as u32 + 1,
                second: at as u32 + 1,
            })?;
        }
    }
    Ok(())
}

/// The sites of factoring of the given clause, in rising order of the first and of the second literal
/// (`AreFactorSites`): the first ones, at most as many as the limit.
pub fn factor_sites(alloc: Global, given: &Numbered, limit: u32) -> Mem<List<FactorSite>>
    requires { IsKept given.now.clause }
    ensures { IfOk result (λ sites. AreFactorSites given.now limit sites) }
{
    let literals = given.clause.literals.as_slice();
    let mut sites = List::new(alloc);
    for first in 0..literals.len() {
        if sites.len() >= limit as usize {
            return Ok(sites);
        }
        add_with_first(alloc, literals, first, limit as usize, &mut sites)?;
    }
    Ok(sites)
}
