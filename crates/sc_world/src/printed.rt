//! Versions as they are printed.

ghost use Rattle.std.specs.Prelude.{◌≡◌, IfOk, map};
ghost use Rattle.sc_interp.specs.declared.plain.Claim.{Claim as AClaim};
ghost use Rattle.sc_text_run_rules.specs.RunValue.{version_value};
ghost use Rattle.sc_world.specs.Printed.{printed, all_printed};

use sc_interp::{Claim, Version};
use sc_term::{List, Mem};
use sc_text_run_rules::VersionText;
use std::alloc::Global;

/// The numbers of the claims, in order.
fn claim_numbers(alloc: Global, claims: &[Claim]) -> Mem<List<u32>>
    ensures { IfOk result (λ numbers. numbers ≡ map (λ (claim : AClaim). claim.number) claims.now) }
{
    let mut numbers = List::new(alloc);
    for claim in claims {
        numbers.push(claim.number)?;
    }
    Ok(numbers)
}

/// The version, with the numbers of its claims in place of the claims.
fn version_text(alloc: Global, version: &Version) -> Mem<VersionText>
    ensures { IfOk result (λ text. version_value text ≡ printed version.now) }
{
    let numbers = claim_numbers(alloc, version.claims().as_slice())?;
    let tables = version.tables();
    Ok(VersionText {
        size: tables.size(),
        tables: tables.copy(alloc)?,
        claims: numbers,
    })
}

fn list_text(alloc: Global, versions: &[Version]) -> Mem<List<VersionText>>
    ensures { IfOk result (λ texts. map version_value texts ≡ map printed versions.now) }
{
    let mut texts = List::new(alloc);
    for version in versions {
        texts.push(version_text(alloc, version)?)?;
    }
    Ok(texts)
}

/// The versions of each list, in order.
pub fn lists_text(alloc: Global, lists: &[List<Version>]) -> Mem<List<List<VersionText>>>
    ensures { IfOk result (λ texts. map (map version_value) texts ≡ all_printed lists.now) }
{
    let mut texts = List::new(alloc);
    for versions in lists {
        texts.push(list_text(alloc, versions.as_slice())?)?;
    }
    Ok(texts)
}
