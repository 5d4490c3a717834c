//! The conclusion of a site.

ghost use Rattle.std.specs.Prelude.{◌≡◌, ◌≢◌, IfOk, MatchOption, All, AllPairs, Contains};
ghost use Rattle.sc_resolve.specs.Kept.{IsKept};
ghost use Rattle.sc_core_rules.specs.Inference.{Inference};
ghost use Rattle.sc_core_rules.specs.Resolution.{IsBinary};
ghost use Rattle.sc_core_rules.specs.Paramodulation.{IsParaFrom, IsParaInto};
ghost use Rattle.sc_core_rules.specs.Sites.{Binary as ABinary, ParaFrom as AParaFrom, ParaInto as AParaInto, Infers};
ghost use Rattle.sc_core_sites.specs.Sites.{site_of, IsConclusion};

use crate::site::Site;
use sc_core_rules::{BinarySite, ParaSite};
use sc_hyper::{make_hyper, make_ur};
use sc_para::make_para;
use sc_resolve::{make_binary, make_factor};
use sc_steps::Made;
use sc_term::{List, Mem, Numbered};
use std::alloc::Global;

/// The parent of this number.
fn parent(parents: &[Numbered], number: u32) -> Option<&Numbered>
    ensures { MatchOption result (All (λ p. p.number ≢ number) parents.now) (λ p. (p.now.number ≡ number) × Contains parents.now p.now) }
{
    for at in 0..parents.len() {
        if parents[at].number == number {
            return Some(&parents[at]);
        }
    }
    None
}

/// The conclusion of binary resolution of the given clause with the partner that the site names.
fn conclude_binary(
    alloc: Global,
    given: &Numbered,
    parents: &List<Numbered>,
    site: &BinarySite,
) -> Mem<Option<Made>>
    requires given { IsKept given.now.clause }
    requires kept { All (λ p. IsKept p.clause) parents.now }
    requires differ { AllPairs (λ p q. p.number ≢ q.number) parents.now }
    requires same { All (λ p. p.number ≡ given.now.number → p ≡ given.now) parents.now }
    requires site { (i : Inference) × IsBinary given.now parents.now site.now i }
    ensures { IfOk result (λ made. IsConclusion given.now parents.now (ABinary site.now) made) }
{
    match parent(parents.as_slice(), site.partner) {
        Some(partner) => make_binary(alloc, given, partner, site),
        None => Ok(None),
    }
}

/// The conclusion of paramodulation from the given clause into the one that the site names.
fn conclude_from(
    alloc: Global,
    given: &Numbered,
    parents: &List<Numbered>,
    site: &ParaSite,
) -> Mem<Option<Made>>
    requires given { IsKept given.now.clause }
    requires kept { All (λ p. IsKept p.clause) parents.now }
    requires differ { AllPairs (λ p q. p.number ≢ q.number) parents.now }
    requires same { All (λ p. p.number ≡ given.now.number → p ≡ given.now) parents.now }
    requires site { (i : Inference) × IsParaFrom given.now parents.now site.now i }
    ensures { IfOk result (λ made. IsConclusion given.now parents.now (AParaFrom site.now) made) }
{
    match parent(parents.as_slice(), site.into) {
        Some(into) => make_para(alloc, given, into, site),
        None => Ok(None),
    }
}

/// The conclusion of paramodulation into the given clause from the one that the site names.
fn conclude_into(
    alloc: Global,
    given: &Numbered,
    parents: &List<Numbered>,
    site: &ParaSite,
) -> Mem<Option<Made>>
    requires given { IsKept given.now.clause }
    requires kept { All (λ p. IsKept p.clause) parents.now }
    requires differ { AllPairs (λ p q. p.number ≢ q.number) parents.now }
    requires same { All (λ p. p.number ≡ given.now.number → p ≡ given.now) parents.now }
    requires site { (i : Inference) × IsParaInto given.now parents.now site.now i }
    ensures { IfOk result (λ made. IsConclusion given.now parents.now (AParaInto site.now) made) }
{
    match parent(parents.as_slice(), site.from) {
        Some(from) => make_para(alloc, from, given, site),
        None => Ok(None),
    }
}

/// The conclusion of the given clause at the site, where the site is one over `parents`, or None exactly where the joint
/// instance or the conclusion is outside the limits (`IsConclusion`). `parents` has the clauses that the site names.
pub fn conclude(
    alloc: Global,
    given: &Numbered,
    parents: &List<Numbered>,
    site: &Site,
) -> Mem<Option<Made>>
    requires given { IsKept given.now.clause }
    requires kept { All (λ p. IsKept p.clause) parents.now }
    requires differ { AllPairs (λ p q. p.number ≢ q.number) parents.now }
    requires same { All (λ p. p.number ≡ given.now.number → p ≡ given.now) parents.now }
    requires site { (i : Inference) × Infers given.now parents.now (site_of site.now) i }
    ensures { IfOk result (λ made. IsConclusion given.now parents.now (site_of site.now) made) }
{
    match site {
        Site::Binary(binary) => conclude_binary(alloc, given, parents, binary),
        Site::Factor(factor) => make_factor(alloc, given, factor),
        Site::Hyper(hyper) => make_hyper(alloc, parents, hyper),
        Site::Ur(ur) => make_ur(alloc, parents, ur),
        Site::ParaFrom(para) => conclude_from(alloc, given, parents, para),
        Site::ParaInto(para) => conclude_into(alloc, given, parents, para),
    }
}
