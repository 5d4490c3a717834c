//! The sites of two clauses.

ghost use Rattle.std.specs.Prelude.{◌≡◌, ◌≢◌, ◌≤◌, ℕ, length, sum, map, true, false, slice_get, Some, OnOk, IfSome, IfNone};
ghost use Rattle.sc_term.specs.Clause.{literal_weight};
ghost use Rattle.sc_term.specs.Refuted.{equation};
ghost use Rattle.sc_term.specs.declared.Term.{Term as ATerm};
ghost use Rattle.sc_steps.specs.Replacement.{AreSides};
ghost use Rattle.sc_resolve.specs.Extending.{Extends, Below};
ghost use Rattle.sc_resolve.specs.Kept.{IsKept};
ghost use Rattle.sc_para.specs.Spots.{pair_numbers};
ghost use Rattle.sc_para.specs.Subterms.{IsHeaded};
ghost use Rattle.sc_para.specs.Pairs.{IsWithTarget, IsWithSide, IsWithEquation, IsWithSource, IsWithLiteral, IsPairSite};

use crate::spot::Spot;
use crate::subterms::{add_under, atom_with};
use sc_core_rules::ParaSite;
use sc_term::{EQUALS, List, Literal, Mem, Numbered, Side, SymId, Term, shift, width};
use std::alloc::Global;

/// Adds the sites of the argument of the atom, which begins with `head`, with the subterms of the literals, while there
/// is room.
fn add_with_targets(
    alloc: Global,
    source: &Literal,
    head: SymId,
    spot: Spot,
    literals: &[Literal],
    limit: usize,
    sites: &mut List<ParaSite>,
) -> Mem<()>
    requires headed { IsHeaded head source.now }
    requires light { sum (map literal_weight literals.now) ≤ 10000 }
    ensures { OnOk result (Extends pair_numbers (Below (IsWithTarget source.now spot literals.now) (length literals.now)) limit sites.old sites.new) }
{
    for at in 0..literals.len() {
        if sites.len() >= limit {
            return Ok(());
        }
        let here = Spot {
            into_lit: at as u32 + 1,
            ..spot
        };
        let mut path = List::new(alloc);
        let args = literals[at].args.as_slice();
        add_under(alloc, source, head, here, args, &mut path, limit, sites)?;
    }
    Ok(())
}

/// Adds the sites of the side of an equation, while there is room. A variable has none.
fn add_with_side(
    alloc: Global,
    side: &Term,
    spot: Spot,
    literals: &[Literal],
    limit: usize,
    sites: &mut List<ParaSite>,
) -> Mem<()>
    requires { sum (map literal_weight literals.now) ≤ 10000 }
    ensures { OnOk result (Extends pair_numbers (IsWithSide spot side.now literals.now) limit sites.old sites.new) }
{
    match side {
        Term::Var(_) => Ok(()),
        Term::App(head, _) => {
            let source = atom_with(alloc, side)?;
            add_with_targets(alloc, &source, *head, spot, literals, limit, sites)
        }
    }
}

/// Adds the sites of the left side of an equation and of its right side, while there is room.
fn add_with_equation(
    alloc: Global,
    left: &Term,
    right: &Term,
    spot: Spot,
    literals: &[Literal],
    limit: usize,
    sites: &mut List<ParaSite>,
) -> Mem<()>
    requires { sum (map literal_weight literals.now) ≤ 10000 }
    ensures { OnOk result (Extends pair_numbers (IsWithEquation spot left.now right.now literals.now) limit sites.old sites.new) }
{
    let from_left = Spot {
        side: Side::Left,
        ..spot
    };
    add_with_side(alloc, left, from_left, literals, limit, sites)?;
    let from_right = Spot {
        side: Side::Right,
        ..spot
    };
    add_with_side(alloc, right, from_right, literals, limit, sites)
}

/// The sides of the literal's equation, of either sign.
fn sides(l: &Literal) -> Option<(&Term, &Term)>
    ensures found { IfSome result (λ p. AreSides l.now p.0.now p.1.now) }
    ensures none { IfNone result ((s t : ATerm) → ¬ AreSides l.now s t) }
{
    match l.args.as_slice() {
        [s, t] if l.pred == EQUALS => Some((s, t)),
        _ => None,
    }
}

/// The sides of a positive equation.
pub fn positive_sides(l: &Literal) -> Option<(&Term, &Term)>
    ensures found { IfSome result (λ p. l.now ≡ equation true p.0.now p.1.now) }
    ensures none { IfNone result ((s t : ATerm) → l.now ≢ equation true s t) }
{
    if l.positive { sides(l) } else { None }
}

/// Adds the sites of the literal, while there is room, if it is a positive equation.
fn add_with_source(
    alloc: Global,
    l: &Literal,
    spot: Spot,
    literals: &[Literal],
    limit: usize,
    sites: &mut List<ParaSite>,
) -> Mem<()>
    requires { sum (map literal_weight literals.now) ≤ 10000 }
    ensures { OnOk result (Extends pair_numbers (IsWithSource spot l.now literals.now) limit sites.old sites.new) }
{
    match positive_sides(l) {
        Some((left, right)) => {
            add_with_equation(alloc, left, right, spot, literals, limit, sites)
        }
        None => Ok(()),
    }
}

/// Adds the sites of the equations among the sources with the subterms of the literals, while there is room.
fn add_with_sources(
    alloc: Global,
    sources: &[Literal],
    spot: Spot,
    literals: &[Literal],
    limit: usize,
    sites: &mut List<ParaSite>,
) -> Mem<()>
    requires few { length sources.now ≤ 10000 }
    requires light { sum (map literal_weight literals.now) ≤ 10000 }
    ensures { OnOk result (Extends pair_numbers (Below (IsWithLiteral spot sources.now literals.now) (length sources.now)) limit sites.old sites.new) }
{
    for at in 0..sources.len() {
        if sites.len() >= limit {
            return Ok(());
        }
        let here = Spot {
            from_lit: at as u32 + 1,
            ..spot
        };
        add_with_source(alloc, &sources[at], here, literals, limit, sites)?;
    }
    Ok(())
}

/// Whether one of the literals is a positive equation.
fn has_equation(literals: &[Literal]) -> bool
    ensures { result ≡ false → (k : ℕ) (left right : ATerm) → slice_get literals.now k ≢ Some (equation true left right) }
{
    for l in literals {
        if positive_sides(l).is_some() {
            return true;
        }
    }
    false
}

/// Adds the sites of paramodulation from the one clause into the other, while there is room. That one is renamed apart
/// only if there is an equation.
pub fn add_with_pair(
    alloc: Global,
    from: &Numbered,
    into: &Numbered,
    limit: usize,
    sites: &mut List<ParaSite>,
) -> Mem<()>
    requires from { IsKept from.now.clause }
    requires into { IsKept into.now.clause }
    ensures { OnOk result (Extends pair_numbers (IsPairSite from.now into.now) limit sites.old sites.new) }
{
    let sources = from.clause.literals.as_slice();
    if !has_equation(sources) {
        return Ok(());
    }
    let apart = shift(alloc, &into.clause, width(&from.clause))?;
    let spot = Spot {
        from: from.number,
        from_lit: 0,
        side: Side::Left,
        into: into.number,
        into_lit: 0,
    };
    add_with_sources(
        alloc,
        sources,
        spot,
        apart.literals.as_slice(),
        limit,
        sites,
    )
}
