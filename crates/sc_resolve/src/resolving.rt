//! Conclusions of binary resolution.

ghost use Rattle.std.specs.Prelude.{◌≡◌, ◌<◌, ◌≤◌, ◌++◌, ◌∷◌, [], ℕ, length, IfOk};
ghost use Rattle.sc_term.specs.Numbering.{without};
ghost use Rattle.sc_term.specs.Clause.{IsWithinLimits, width};
ghost use Rattle.sc_term.specs.JointInstance.{shift, whole};
ghost use Rattle.sc_core_rules.specs.Derivation.{AreTermsTo};
ghost use Rattle.sc_core_rules.specs.Inference.{Inference};
ghost use Rattle.sc_core_rules.specs.Resolution.{IsBinary};
ghost use Rattle.sc_resolve.specs.Kept.{IsKept};
ghost use Rattle.sc_resolve.specs.Made.{Makes, AreResolved, resolution, IsOpposed, AreResolving};

use crate::canonical::finish;
use crate::joint::{Both, Part, joint_two, part_of};
use crate::lines::{add_line, add_part};
use crate::literals::literal;
use sc_core_rules::BinarySite;
use sc_steps::Made;
use sc_term::{Clause, List, Literal, Mem, Numbered, Step, copy, shift, width};
use std::alloc::Global;

/// The literals of the one clause without number a, and those of the other without number b.
fn resolvent(left: Clause, a: u32, right: Clause, b: u32) -> Mem<Clause>
    requires left_there { 0 < a }
    requires left_within { a ≤ length left.literals }
    requires right_there { 0 < b }
    requires right_within { b ≤ length right.literals }
    ensures { IfOk result (λ c. c.literals ≡ without left.literals a ++ without right.literals b) }
{
    let mut literals = left.literals;
    literals.remove(a as usize - 1);
    let mut others = right.literals;
    others.remove(b as usize - 1);
    literals.append(others)?;
    Ok(Clause { literals })
}

/// The resolvent of the parts on literals a and b, with its derivation.
fn resolved(
    alloc: Global,
    given: &Numbered,
    partner: &Numbered,
    left: Part,
    right: Part,
    site: &BinarySite,
) -> Mem<Made>
    requires left_terms { AreTermsTo given.now.clause left.clause left.terms }
    requires right_terms { AreTermsTo partner.now.clause right.clause right.terms }
    requires within { IsWithinLimits (whole (left.clause ∷ right.clause ∷ [])) }
    requires opposed { IsOpposed left.clause site.now.given_lit right.clause site.now.partner_lit }
    requires same { partner.now.number ≡ given.now.number → partner.now ≡ given.now }
    ensures { IfOk result (λ made. AreResolving given.now partner.now left.clause right.clause site.now.given_lit site.now.partner_lit made.lines) }
{
    let mut lines = List::new(alloc);
    let of_left = add_part(alloc, &mut lines, given, left.terms, &left.clause)?;
    let of_right = add_part(alloc, &mut lines, partner, right.terms, &right.clause)?;
    let clause = resolvent(left.clause, site.given_lit, right.clause, site.partner_lit)?;
    let step = Step::Resolve {
        left: of_left,
        left_lit: site.given_lit,
        right: of_right,
        right_lit: site.partner_lit,
    };
    let line = copy(alloc, &clause)?;
    add_line(&mut lines, step, line)?;
    finish(alloc, lines, clause)
}

/// The conclusion where literal l of the given clause is resolved with literal m of `apart`, the partner renamed apart.
fn resolved_on(
    alloc: Global,
    given: &Numbered,
    partner: &Numbered,
    apart: &Clause,
    l: &Literal,
    m: &Literal,
    site: &BinarySite,
) -> Mem<Option<Made>>
    requires given { IsKept given.now.clause }
    requires partner { IsKept partner.now.clause }
    requires same { partner.now.number ≡ given.now.number → partner.now ≡ given.now }
    requires apart { apart.now ≡ shift (width given.now.clause) partner.now.clause }
    requires resolved { AreResolved given.now partner.now l.now m.now site.now.given_lit site.now.partner_lit }
    ensures { IfOk result (λ made. Makes (resolution given.now partner.now l.now m.now site.now.given_lit site.now.partner_lit) made) }
{
    let both = match joint_two(alloc, &given.clause, apart, l, m)? {
        Some(both) => both,
        None => return Ok(None),
    };
    let Both {
        left: left_terms,
        right: right_terms,
    } = both;
    let left = match part_of(alloc, &given.clause, left_terms)? {
        Some(left) => left,
        None => return Ok(None),
    };
    let right = match part_of(alloc, &partner.clause, right_terms)? {
        Some(right) => right,
        None => return Ok(None),
    };
    Ok(Some(resolved(alloc, given, partner, left, right, site)?))
}

/// The conclusion of binary resolution of the given clause with the partner at the site, with its derivation, or None
/// exactly where the joint instance or the conclusion is outside the limits (`Concludes`).
pub fn make_binary(
    alloc: Global,
    given: &Numbered,
    partner: &Numbered,
    site: &BinarySite,
) -> Mem<Option<Made>>
    requires given { IsKept given.now.clause }
    requires partner { IsKept partner.now.clause }
    requires same { partner.now.number ≡ given.now.number → partner.now ≡ given.now }
    requires site { (i : Inference) × IsBinary given.now (partner.now ∷ []) site.now i }
    ensures { (i : Inference) → IsBinary given.now (partner.now ∷ []) site.now i → IfOk result (λ made. Makes i made) }
{
    let apart = shift(alloc, &partner.clause, width(&given.clause))?;
    let l = match literal(given.clause.literals.as_slice(), site.given_lit) {
        Some(l) => l,
        None => return Ok(None),
    };
    let m = match literal(apart.literals.as_slice(), site.partner_lit) {
        Some(m) => m,
        None => return Ok(None),
    };
    resolved_on(alloc, given, partner, &apart, l, m, site)
}
