//! Choices of electrons, literal by literal.

ghost use Rattle.std.specs.Prelude.{◌≡◌, ◌≤◌, ◌<◌, ◌+◌, ◌*◌, ◌^◌, ℕ, List as AList, length, IfOk, OnOk, All, MatchOption, not, if◌then◌else◌};
ghost use Rattle.sc_term.specs.Clause.{literal_width};
ghost use Rattle.sc_term.specs.Substitution.{Unify};
ghost use Rattle.sc_core_rules.specs.Hyperresolution.{hyper_numbers};
ghost use Rattle.sc_resolve.specs.Extending.{Extends};
ghost use Rattle.sc_hyper.specs.declared.candidates.Candidate.{Candidate as ACandidate};
ghost use Rattle.sc_hyper.specs.Candidates.{IsNarrow, DoRise};
ghost use Rattle.sc_hyper.specs.Choosing.{IsChosen, IsNext, IsRefused, Completes};

use crate::candidates::Candidate;
use crate::choice::{PartialSite, copy_picks, extended, has_given};
use sc_core_rules::HyperSite;
use sc_term::{List, Literal, Mem};
use std::alloc::Global;

/// Adds the site of a whole choice, where it has the given clause and there is room.
fn add_site(
    alloc: Global,
    nucleus: u32,
    given: u32,
    negatives: &[Literal],
    candidates: &[Candidate],
    choice: &PartialSite,
    limit: usize,
    sites: &mut List<HyperSite>,
) -> Mem<()>
    requires unify { Unify choice.now.pairs }
    requires many { length choice.now.picks ≡ length negatives.now }
    ensures { (low : ℕ) (cs : AList ACandidate) → IsChosen candidates.now low negatives.now cs choice.now
        → OnOk result (Extends hyper_numbers (Completes nucleus given candidates.now low negatives.now cs) limit sites.old sites.new) }
{
    if sites.len() >= limit {
        return Ok(());
    }
    if !has_given(nucleus, given, choice.picks.as_slice()) {
        return Ok(());
    }
    let electrons = copy_picks(alloc, choice.picks.as_slice())?;
    sites.push(HyperSite { nucleus, electrons })?;
    Ok(())
}

/// Whether the signs are opposite.
fn are_opposed(l: &Literal, m: &Literal) -> bool
    ensures { result ≡ (if l.now.positive then not m.now.positive else m.now.positive) }
{
    if l.positive { !m.positive } else { m.positive }
}

/// The choice with the candidate for the next literal, or None where the signs are the same, where the
/// pairs don't unify then, or where this is the
/// last literal and the given clause isn't among them.
fn next_choice(
    alloc: Global,
    nucleus: u32,
    given: u32,
    choice: &PartialSite,
    l: &Literal,
    next: &Candidate,
    last: bool,
) -> Mem<Option<PartialSite>>
    requires low { choice.now.low < 2 ^ 30 }
    requires narrow { literal_width next.now.literal ≤ 10000 }
    requires wide { next.now.wide ≤ 10000 }
    ensures { IfOk result (λ found. MatchOption found (IsRefused nucleus given choice.now l.now next.now last) (λ longer. IsNext choice.now l.now next.now longer)) }
{
    if !are_opposed(l, &next.literal) {
        return Ok(None);
    }
    if last && next.number != given && !has_given(nucleus, given, choice.picks.as_slice()) {
        return Ok(None);
    }
    match extended(alloc, choice, l, next)? {
        Some(longer) => Ok(Some(longer)),
        None => Ok(None),
    }
}

/// Adds the sites that begin with the choice, while there is room.
pub fn choose(
    alloc: Global,
    nucleus: u32,
    given: u32,
    negatives: &[Literal],
    candidates: &[Candidate],
    choice: &PartialSite,
    limit: usize,
    sites: &mut List<HyperSite>,
) -> Mem<()>
    requires unify { Unify choice.now.pairs }
    requires few { length negatives.now ≤ 10000 }
    requires many { length choice.now.picks ≤ length negatives.now }
    requires low { choice.now.low ≤ 10000 * (length choice.now.picks + 1) }
    requires narrow { All IsNarrow candidates.now }
    requires rising { DoRise candidates.now }
    ensures { (low : ℕ) (cs : AList ACandidate) → IsChosen candidates.now low negatives.now cs choice.now
        → OnOk result (Extends hyper_numbers (Completes nucleus given candidates.now low negatives.now cs) limit sites.old sites.new) }
{
    let depth = choice.picks.len();
    if depth >= negatives.len() {
        return add_site(
            alloc, nucleus, given, negatives, candidates, choice, limit, sites,
        );
    }
    let last = depth + 1 == negatives.len();
    for at in 0..candidates.len() {
        if sites.len() >= limit {
            return Ok(());
        }
        let l = &negatives[depth];
        let next = &candidates[at];
        match next_choice(alloc, nucleus, given, choice, l, next, last)? {
            Some(longer) => choose(
                alloc, nucleus, given, negatives, candidates, &longer, limit, sites,
            )?,
            None => {}
        }
    }
    Ok(())
}
