//! The sites of hyperresolution.

ghost use Rattle.std.specs.Prelude.{◌≡◌, ◌≢◌, ◌<◌, ◌≤◌, [], length, IfOk, OnOk, All, AllPairs};
ghost use Rattle.sc_core_rules.specs.Hyperresolution.{AreHyperSites, hyper_numbers};
ghost use Rattle.sc_resolve.specs.ByNumber.{seen};
ghost use Rattle.sc_resolve.specs.Kept.{IsKept};
ghost use Rattle.sc_resolve.specs.Extending.{Extends, Below};
ghost use Rattle.sc_hyper.specs.Candidates.{IsNarrow, DoRise};
ghost use Rattle.sc_hyper.specs.Choosing.{IsWithNucleus, IsWithUsable};

use crate::candidates::{Candidate, candidates};
use crate::choice::PartialSite;
use crate::choosing::choose;
use crate::negatives::negative_literals;
use sc_core_rules::HyperSite;
use sc_resolve::by_number;
use sc_term::{List, Mem, Numbered, width};
use std::alloc::Global;

/// Adds the sites with the nucleus, while there is room.
fn add_with_nucleus(
    alloc: Global,
    nucleus: &Numbered,
    given: u32,
    candidates: &[Candidate],
    limit: usize,
    sites: &mut List<HyperSite>,
) -> Mem<()>
    requires kept { IsKept nucleus.now.clause }
    requires narrow { All IsNarrow candidates.now }
    requires rising { DoRise candidates.now }
    ensures { OnOk result (Extends hyper_numbers (IsWithNucleus given candidates.now nucleus.now) limit sites.old sites.new) }
{
    let found = negative_literals(alloc, &nucleus.clause)?;
    if found.literals.is_empty() {
        return Ok(());
    }
    let choice = PartialSite {
        picks: List::new(alloc),
        pairs: List::new(alloc),
        low: width(&nucleus.clause),
    };
    choose(
        alloc,
        nucleus.number,
        given,
        found.literals.as_slice(),
        candidates,
        &choice,
        limit,
        sites,
    )?;
    Ok(())
}

/// The first sites of all nuclei, at most as many as the limit.
fn sites_with(
    alloc: Global,
    usable: &[&Numbered],
    given: u32,
    candidates: &[Candidate],
    limit: usize,
) -> Mem<List<HyperSite>>
    requires numbers { AllPairs (λ p q. p.number < q.number) (seen usable.now) }
    requires kept { All (λ p. IsKept p.clause) (seen usable.now) }
    requires narrow { All IsNarrow candidates.now }
    requires rising { DoRise candidates.now }
    ensures { IfOk result (λ sites. Extends hyper_numbers (Below (IsWithUsable given candidates.now (seen usable.now)) (length (seen usable.now))) limit [] sites) }
{
    let mut sites = List::new(alloc);
    for nucleus in usable {
        if sites.len() >= limit {
            return Ok(sites);
        }
        add_with_nucleus(alloc, nucleus, given, candidates, limit, &mut sites)?;
    }
    Ok(sites)
}

/// `hyper_sites` with the usable clauses in rising order of their numbers.
fn sites_in_order(
    alloc: Global,
    given: &Numbered,
    usable: &[&Numbered],
    limit: u32,
) -> Mem<List<HyperSite>>
    requires rising { AllPairs (λ p q. p.number < q.number) (seen usable.now) }
    requires kept { All (λ p. IsKept p.clause) (seen usable.now) }
    ensures { IfOk result (λ sites. AreHyperSites given.now (seen usable.now) limit sites) }
{
    let found = candidates(alloc, usable)?;
    sites_with(
        alloc,
        usable,
        given.number,
        found.as_slice(),
        limit as usize,
    )
}

/// The sites of hyperresolution of the given clause with the usable clauses, in rising order of the numbers of the
/// nucleus, of the first electron, of its literal, of the second electron, and so on (`AreHyperSites`): the first ones,
/// at most as many as the limit. The usable clauses may stand in any order, but their numbers have to differ.
pub fn hyper_sites(
    alloc: Global,
    given: &Numbered,
    usable: &List<Numbered>,
    limit: u32,
) -> Mem<List<HyperSite>>
    requires differ { AllPairs (λ p q. p.number ≢ q.number) usable.now }
    requires kept { All (λ p. IsKept p.clause) usable.now }
    ensures { IfOk result (λ sites. AreHyperSites given.now usable.now limit sites) }
{
    let ordered = by_number(alloc, usable.as_slice())?;
    sites_in_order(alloc, given, ordered.as_slice(), limit)
}
