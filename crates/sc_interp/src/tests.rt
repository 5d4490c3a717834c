ghost use Rattle.std.specs.Prelude.{IsTrue};
ghost use Rattle.sc_interp.specs.Structure.{HasPlace, MayHold};

use crate::evaluate::table_of;
use crate::{Claim, ClaimError, Tables, TablesError, Version, same};
use sc_term::{Clause, List, Literal, Mem, Role, Signature, SymId, Symbol, Term};
use std::alloc::Global;

fn added(alloc: Global, sig: &mut Signature, name: &[u8], arity: u8, role: Role) -> Option<SymId> {
    if arity > 8 {
        return None;
    }
    let name = List::from_slice(alloc, name).ok()?;
    sig.add(Symbol { name, arity, role }).ok()
}

/// Whether the entry is there and may have the value.
fn fits(t: &Tables, sym: SymId, place: u32, value: u8) -> bool
    ensures there { IsTrue result → HasPlace t.now sym place }
    ensures in_range { IsTrue result → MayHold t.now sym value }
{
    let size = t.size();
    match table_of(t.tables(), sym) {
        Some(table) => (place as usize) < table.entries.len() && value < size && value < 2,
        None => false,
    }
}

/// Tables of size 2 over the constants `a` and `b`, of which `b` is 1.
fn unequal(alloc: Global) -> Option<Tables> {
    let mut sig = Signature::new(alloc).ok()?;
    added(alloc, &mut sig, b"a", 0, Role::Function)?;
    let b = added(alloc, &mut sig, b"b", 0, Role::Function)?;
    let mut tables = Tables::new(alloc, &sig, 2).ok()?;
    if !fits(&tables, b, 0, 1) {
        return None;
    }
    tables.set(b, 0, 1);
    if tables.get(b, 0) == 1 {
        Some(tables)
    } else {
        None
    }
}

/// `a=b`, or `a!=b`, as a claim.
fn claims(alloc: Global, equal: bool) -> Mem<List<Claim>> {
    let mut args = List::new(alloc);
    args.push(Term::App(SymId(1), List::new(alloc)))?;
    args.push(Term::App(SymId(2), List::new(alloc)))?;
    let mut literals = List::new(alloc);
    literals.push(Literal {
        positive: equal,
        pred: SymId(0),
        args,
    })?;
    let mut claims = List::new(alloc);
    claims.push(Claim {
        number: 1,
        clause: Clause { literals },
    })?;
    Ok(claims)
}

fn version(alloc: Global, equal: bool) -> Option<Result<Version, ClaimError>> {
    let claims = claims(alloc, equal).ok()?;
    if claims.len() != 1 {
        return None;
    }
    Some(Version::make(alloc, unequal(alloc)?, claims))
}

/// How the claim `a=b` fares, and whether the version with `a!=b` and its copy are the same.
fn versions(alloc: Global) -> Option<(Option<ClaimError>, bool)> {
    let refused = match version(alloc, true)? {
        Ok(_) => None,
        Err(error) => Some(error),
    };
    let made = version(alloc, false)?.ok()?;
    let copied = made.copy(alloc).ok()?;
    Some((refused, copied.claims().len() == 1 && same(&made, &copied)))
}

#[test]
fn only_true_claims_make_a_version(rt: HostRuntime) {
    let wanted = (Some(ClaimError::False { claim: 1 }), true);
    assert_eq!(rt; versions(rt.alloc()), Some(wanted));
}

/// Size and number of claims of the opening version over a symbol of arity 8, whether it is the one with `a!=b`, and
/// why there are no tables of size 8.
fn widest(alloc: Global) -> Option<(u8, usize, bool, Option<TablesError>)> {
    let mut sig = Signature::new(alloc).ok()?;
    added(alloc, &mut sig, b"f", 8, Role::Function)?;
    let opening = Version::opening(alloc, &sig).ok()?;
    let other = version(alloc, false)?.ok()?;
    let refused = match Tables::new(alloc, &sig, 8) {
        Ok(_) => None,
        Err(error) => Some(error),
    };
    Some((
        opening.tables().size(),
        opening.claims().len(),
        same(&opening, &other),
        refused,
    ))
}

#[test]
fn the_opening_version_has_size_two_where_size_eight_is_too_wide(rt: HostRuntime) {
    let wide = TablesError::TooWide { count: 16_777_216 };
    assert_eq!(rt; widest(rt.alloc()), Some((2, 0, false, Some(wide))));
}
