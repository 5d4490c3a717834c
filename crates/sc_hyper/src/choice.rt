//! Choices of electrons for the first negative literals of a nucleus.

ghost use Rattle.std.specs.Prelude.{◌≡◌, ◌≤◌, ◌<◌, ◌+◌, ◌++◌, ◌∷◌, ◌^◌, ◌↔◌, ◌||◌, nat_eq, [], IfOk, IsTrue, MatchOption};
ghost use Rattle.std.specs.List.{list_any};
ghost use Rattle.sc_term.specs.declared.Term.{Var as AVar};
ghost use Rattle.sc_term.specs.Clause.{literal_width};
ghost use Rattle.sc_term.specs.Substitution.{literal_under, Unify};
ghost use Rattle.sc_hyper.specs.Choosing.{has, pair_with, IsExtended};

use crate::candidates::Candidate;
use sc_core_rules::Pick;
use sc_term::{Clause, List, Literal, Mem, Pair, copy_literal, shift};
use sc_unify::unify_all;
use std::alloc::Global;

/// A site in the making: electrons with their literals, the pairs that have to become equal, and the number of variables
/// up to here: those of the next electron become greater by it.
#[derive(Drop)]
pub struct PartialSite {
    pub picks: List<Pick>,
    pub pairs: List<Pair>,
    pub low: u32,
}

/// The literal with each variable greater by the number.
fn shifted(alloc: Global, l: &Literal, by: u32) -> Mem<Literal>
    requires { literal_width l.now + by < 2 ^ 31 }
    ensures { IfOk result (λ r. r ≡ literal_under (λ n. AVar (n + by)) l.now) }
{
    let mut literals = List::new(alloc);
    literals.push(copy_literal(alloc, l)?)?;
    let mut moved = shift(alloc, &Clause { literals }, by)?;
    Ok(moved.literals.remove(0))
}

/// The pairs again.
fn copy_pairs(alloc: Global, pairs: &[Pair]) -> Mem<List<Pair>>
    ensures { IfOk result (λ r. r ≡ pairs.now) }
{
    let mut copies = List::new(alloc);
    for pair in pairs {
        copies.push(Pair {
            left: copy_literal(alloc, &pair.left)?,
            right: copy_literal(alloc, &pair.right)?,
        })?;
    }
    Ok(copies)
}

/// The electrons with their literals again.
pub fn copy_picks(alloc: Global, picks: &[Pick]) -> Mem<List<Pick>>
    ensures { IfOk result (λ r. r ≡ picks.now) }
{
    let mut copies = List::new(alloc);
    for pick in picks {
        copies.push(Pick {
            number: pick.number,
            lit: pick.lit,
        })?;
    }
    Ok(copies)
}

/// Whether the clause of this number is among the electrons.
fn has_number(picks: &[Pick], n: u32) -> bool
    ensures { result ≡ list_any (has n) picks.now }
{
    for pick in picks {
        if pick.number == n {
            return true;
        }
    }
    false
}

/// Whether the given clause is the nucleus or an electron.
pub fn has_given(nucleus: u32, given: u32, picks: &[Pick]) -> bool
    ensures { result ≡ (nat_eq nucleus given || list_any (has given) picks.now) }
{
    nucleus == given || has_number(picks, given)
}

/// The pairs and one more: the literal against the candidate's, renamed apart.
fn with_pair(alloc: Global, choice: &PartialSite, l: &Literal, next: &Candidate) -> Mem<List<Pair>>
    requires low { choice.now.low < 2 ^ 30 }
    requires narrow { literal_width next.now.literal ≤ 10000 }
    ensures { IfOk result (λ r. r ≡ choice.now.pairs ++ pair_with choice.now.low l.now next.now ∷ []) }
{
    let mut pairs = copy_pairs(alloc, choice.pairs.as_slice())?;
    let left = copy_literal(alloc, l)?;
    let right = shifted(alloc, &next.literal, choice.low)?;
    pairs.push(Pair { left, right })?;
    Ok(pairs)
}

/// Whether the pairs unify at once.
fn do_unify(alloc: Global, pairs: &List<Pair>) -> Mem<bool>
    ensures { IfOk result (λ b. IsTrue b ↔ Unify pairs.now) }
{
    Ok(unify_all(alloc, pairs)?.is_some())
}

/// The choice with the candidate for the next literal, or None where the pairs don't unify then.
pub fn extended(
    alloc: Global,
    choice: &PartialSite,
    l: &Literal,
    next: &Candidate,
) -> Mem<Option<PartialSite>>
    requires low { choice.now.low < 2 ^ 30 }
    requires narrow { literal_width next.now.literal ≤ 10000 }
    requires wide { next.now.wide ≤ 10000 }
    ensures { IfOk result (λ found. MatchOption found (¬ Unify (choice.now.pairs ++ pair_with choice.now.low l.now next.now ∷ [])) (λ longer. IsExtended choice.now l.now next.now longer)) }
{
    let pairs = with_pair(alloc, choice, l, next)?;
    if !do_unify(alloc, &pairs)? {
        return Ok(None);
    }
    let mut picks = copy_picks(alloc, choice.picks.as_slice())?;
    picks.push(Pick {
        number: next.number,
        lit: next.lit,
    })?;
    let low = choice.low + next.wide;
    Ok(Some(PartialSite { picks, pairs, low }))
}
