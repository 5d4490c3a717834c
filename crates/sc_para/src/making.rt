//! The conclusion of a site of paramodulation.

ghost use Rattle.std.specs.Prelude.{◌≡◌, ◌∷◌, [], IfOk, MatchOption};
ghost use Rattle.sc_term.specs.Clause.{width};
ghost use Rattle.sc_term.specs.JointInstance.{shift};
ghost use Rattle.sc_term.specs.Substitution.{Unify};
ghost use Rattle.sc_core_rules.specs.Derivation.{AreTermsTo};
ghost use Rattle.sc_core_rules.specs.Inference.{Inference};
ghost use Rattle.sc_core_rules.specs.Paramodulation.{IsPara};
ghost use Rattle.sc_resolve.specs.Kept.{IsKept};
ghost use Rattle.sc_resolve.specs.Literals.{pair_of};
ghost use Rattle.sc_resolve.specs.Made.{Makes};
ghost use Rattle.sc_resolve.specs.Parts.{IsOutside, AreJoint};
ghost use Rattle.sc_para.specs.Conclusion.{AreReplaced, replacement};

use crate::conclusion::{ended, replacing, sides_of};
use crate::replacing::subterm_at;
use crate::subterms::atom_with;
use sc_core_rules::ParaSite;
use sc_resolve::{Both, Part, joint_two, literal, part_of};
use sc_steps::Made;
use sc_term::{Clause, Literal, Mem, Numbered, shift, width};
use std::alloc::Global;

/// The parts of two parents.
#[derive(Drop)]
struct Parts {
    left: Part,
    right: Part,
}

/// The parts of the clauses in the joint instance in which l of the one becomes m of `apart`, the other one renamed
/// apart, or None where the joint instance is outside the limits.
fn parts_of(
    alloc: Global,
    from: &Clause,
    into: &Clause,
    apart: &Clause,
    l: &Literal,
    m: &Literal,
) -> Mem<Option<Parts>>
    requires from { IsKept from.now }
    requires into { IsKept into.now }
    requires apart { apart.now ≡ shift (width from.now) into.now }
    requires unify { Unify (pair_of l.now m.now) }
    ensures { IfOk result (λ found. MatchOption found (IsOutside (from.now ∷ into.now ∷ []) (pair_of l.now m.now))
        (λ p. AreJoint (from.now ∷ into.now ∷ []) (pair_of l.now m.now) (p.left.clause ∷ p.right.clause ∷ [])
        × AreTermsTo from.now p.left.clause p.left.terms × AreTermsTo into.now p.right.clause p.right.terms)) }
{
    let both = match joint_two(alloc, from, apart, l, m)? {
        Some(both) => both,
        None => return Ok(None),
    };
    let Both {
        left: left_terms,
        right: right_terms,
    } = both;
    let left = match part_of(alloc, from, left_terms)? {
        Some(left) => left,
        None => return Ok(None),
    };
    let right = match part_of(alloc, into, right_terms)? {
        Some(right) => right,
        None => return Ok(None),
    };
    Ok(Some(Parts { left, right }))
}

/// The conclusion where the side in l replaces the subterm in m, which is of `apart`, the second clause renamed apart.
fn replaced_on(
    alloc: Global,
    from: &Numbered,
    into: &Numbered,
    apart: &Clause,
    l: &Literal,
    m: &Literal,
    site: &ParaSite,
) -> Mem<Option<Made>>
    requires from { IsKept from.now.clause }
    requires into { IsKept into.now.clause }
    requires same { into.now.number ≡ from.now.number → into.now ≡ from.now }
    requires apart { apart.now ≡ shift (width from.now.clause) into.now.clause }
    requires replaced { AreReplaced from.now into.now site.now l.now m.now }
    ensures { IfOk result (λ made. Makes (replacement from.now into.now site.now l.now m.now) made) }
{
    let parts = match parts_of(alloc, &from.clause, &into.clause, apart, l, m)? {
        Some(parts) => parts,
        None => return Ok(None),
    };
    let Parts { left, right } = parts;
    match replacing(alloc, from, into, left, right, site)? {
        Some(steps) => ended(alloc, steps),
        None => Ok(None),
    }
}

/// The conclusion of paramodulation from the one clause into the other at the site, with its derivation, or None
/// exactly where the joint instance or the conclusion is outside the limits (`Concludes`).
pub fn make_para(
    alloc: Global,
    from: &Numbered,
    into: &Numbered,
    site: &ParaSite,
) -> Mem<Option<Made>>
    requires from { IsKept from.now.clause }
    requires into { IsKept into.now.clause }
    requires same { into.now.number ≡ from.now.number → into.now ≡ from.now }
    requires site { (i : Inference) × IsPara from.now into.now site.now i }
    ensures { (i : Inference) → IsPara from.now into.now site.now i → IfOk result (λ made. Makes i made) }
{
    let apart = shift(alloc, &into.clause, width(&from.clause))?;
    let sources = from.clause.literals.as_slice();
    let Some((side, _)) = sides_of(sources, site.from_lit, site.side) else {
        return Ok(None);
    };
    let Some(target) = literal(apart.literals.as_slice(), site.into_lit) else {
        return Ok(None);
    };
    let Some(subterm) = subterm_at(target.args.as_slice(), site.path.as_slice()) else {
        return Ok(None);
    };
    let l = atom_with(alloc, side)?;
    let m = atom_with(alloc, subterm)?;
    replaced_on(alloc, from, into, &apart, &l, &m, site)
}
