//! The walk over subterms.

ghost use Rattle.std.specs.Prelude.{◌≡◌, ◌↔◌, ◌≤◌, sum, map, IfOk, OnOk, IsTrue};
ghost use Rattle.sc_term.specs.Term.{term_weight};
ghost use Rattle.sc_core_rules.specs.Paramodulation.{atom_with};
ghost use Rattle.sc_resolve.specs.Extending.{Extends};
ghost use Rattle.sc_para.specs.Spots.{pair_numbers};
ghost use Rattle.sc_para.specs.Subterms.{IsHeaded, IsTarget, IsHere, IsWithin, IsUnder};

use crate::spot::{Spot, site_at};
use sc_core_rules::ParaSite;
use sc_term::{EQUALS, List, Literal, Mem, SymId, Term, copy_term};
use sc_unify::unify;
use std::alloc::Global;

/// The term as the one argument of an atom.
pub fn atom_with(alloc: Global, t: &Term) -> Mem<Literal>
    ensures { IfOk result (λ l. l ≡ atom_with t.now) }
{
    let mut args = List::new(alloc);
    args.push(copy_term(alloc, t)?)?;
    Ok(Literal {
        positive: true,
        pred: EQUALS,
        args,
    })
}

/// Whether the term is no variable and can be made equal to the argument of the atom, which begins with `head`. It is
/// copied only where it begins with that too.
fn is_target(alloc: Global, source: &Literal, head: SymId, t: &Term) -> Mem<bool>
    requires { IsHeaded head source.now }
    ensures { IfOk result (λ is. IsTrue is ↔ IsTarget source.now t.now) }
{
    match t {
        Term::Var(_) => Ok(false),
        Term::App(f, _) => {
            if *f != head {
                return Ok(false);
            }
            let atom = atom_with(alloc, t)?;
            Ok(unify(alloc, source, &atom)?.is_some())
        }
    }
}

/// Adds the site of the term itself, at the path, if it is one and there is room.
fn add_here(
    alloc: Global,
    source: &Literal,
    head: SymId,
    spot: Spot,
    t: &Term,
    path: &[u32],
    limit: usize,
    sites: &mut List<ParaSite>,
) -> Mem<()>
    requires { IsHeaded head source.now }
    ensures { OnOk result (Extends pair_numbers (IsHere source.now spot path.now t.now) limit sites.old sites.new) }
{
    if sites.len() >= limit {
        return Ok(());
    }
    if is_target(alloc, source, head, t)? {
        sites.push(site_at(alloc, spot, path)?)?;
    }
    Ok(())
}

/// Adds the sites of the term, at the path, and of its subterms, while there is room.
#[cycle(walk)]
fn add_within(
    alloc: Global,
    source: &Literal,
    head: SymId,
    spot: Spot,
    t: &Term,
    path: &mut List<u32>,
    limit: usize,
    sites: &mut List<ParaSite>,
) -> Mem<()>
    requires headed { IsHeaded head source.now }
    requires light { term_weight t.now ≤ 10000 }
    ensures sites { OnOk result (Extends pair_numbers (IsWithin source.now spot path.old t.now) limit sites.old sites.new) }
    ensures path { OnOk result (path.new ≡ path.old) }
{
    match t {
        Term::Var(_) => Ok(()),
        Term::App(_, args) => {
            add_here(alloc, source, head, spot, t, path.as_slice(), limit, sites)?;
            add_under(
                alloc,
                source,
                head,
                spot,
                args.as_slice(),
                path,
                limit,
                sites,
            )
        }
    }
}

/// Adds the sites of subterms of the arguments, to which the path leads, while there is room. The path goes along with
/// the walk, and is the same after it.
#[cycle(walk)]
pub fn add_under(
    alloc: Global,
    source: &Literal,
    head: SymId,
    spot: Spot,
    args: &[Term],
    path: &mut List<u32>,
    limit: usize,
    sites: &mut List<ParaSite>,
) -> Mem<()>
    requires headed { IsHeaded head source.now }
    requires light { sum (map term_weight args.now) ≤ 10000 }
    ensures sites { OnOk result (Extends pair_numbers (IsUnder source.now spot path.old args.now) limit sites.old sites.new) }
    ensures path { OnOk result (path.new ≡ path.old) }
{
    for at in 0..args.len() {
        if sites.len() >= limit {
            return Ok(());
        }
        path.push(at as u32 + 1)?;
        add_within(alloc, source, head, spot, &args[at], path, limit, sites)?;
        path.pop();
    }
    Ok(())
}
