//! Conclusions of factoring.

ghost use Rattle.std.specs.Prelude.{◌≡◌, ◌<◌, ◌≤◌, ℕ, length, IfOk};
ghost use Rattle.sc_term.specs.Clause.{IsWithinLimits};
ghost use Rattle.sc_core_rules.specs.Derivation.{AreTermsTo};
ghost use Rattle.sc_core_rules.specs.Inference.{Inference};
ghost use Rattle.sc_core_rules.specs.Resolution.{IsFactor};
ghost use Rattle.sc_resolve.specs.Kept.{IsKept};
ghost use Rattle.sc_resolve.specs.Made.{Makes, AreFactored, factoring, IsRepeated, AreMerging};

use crate::canonical::finish;
use crate::joint::{Part, joint_one, part_of};
use crate::lines::{add_line, add_part};
use crate::literals::literal;
use sc_core_rules::FactorSite;
use sc_steps::Made;
use sc_term::{List, Literal, Mem, Numbered, Step, copy};
use std::alloc::Global;

/// The part without the literal of this number, which equals an earlier one, with its derivation.
fn merged(alloc: Global, given: &Numbered, part: Part, second: u32) -> Mem<Made>
    requires terms { AreTermsTo given.now.clause part.clause part.terms }
    requires within { IsWithinLimits part.clause }
    requires repeated { IsRepeated part.clause second }
    ensures { IfOk result (λ made. AreMerging given.now part.clause second made.lines) }
{
    let Part { terms, mut clause } = part;
    let mut lines = List::new(alloc);
    let of = add_part(alloc, &mut lines, given, terms, &clause)?;
    clause.literals.remove(second as usize - 1);
    let line = copy(alloc, &clause)?;
    add_line(&mut lines, Step::Merge { of, lit: second }, line)?;
    finish(alloc, lines, clause)
}

/// The conclusion where literal m, of this number, is merged with l.
fn factored(
    alloc: Global,
    given: &Numbered,
    l: &Literal,
    m: &Literal,
    second: u32,
) -> Mem<Option<Made>>
    requires kept { IsKept given.now.clause }
    requires factored { AreFactored given.now l.now m.now second }
    ensures { IfOk result (λ made. Makes (factoring given.now l.now m.now second) made) }
{
    let terms = match joint_one(alloc, &given.clause, l, m)? {
        Some(terms) => terms,
        None => return Ok(None),
    };
    match part_of(alloc, &given.clause, terms)? {
        Some(part) => Ok(Some(merged(alloc, given, part, second)?)),
        None => Ok(None),
    }
}

/// The conclusion of factoring at the site, with its derivation, or None exactly where the joint instance or the
/// conclusion is outside the limits (`Concludes`).
pub fn make_factor(alloc: Global, given: &Numbered, site: &FactorSite) -> Mem<Option<Made>>
    requires kept { IsKept given.now.clause }
    requires site { (i : Inference) × IsFactor given.now site.now i }
    ensures { (i : Inference) → IsFactor given.now site.now i → IfOk result (λ made. Makes i made) }
{
    let literals = given.clause.literals.as_slice();
    let l = match literal(literals, site.first) {
        Some(l) => l,
        None => return Ok(None),
    };
    let m = match literal(literals, site.second) {
        Some(m) => m,
        None => return Ok(None),
    };
    factored(alloc, given, l, m, site.second)
}
