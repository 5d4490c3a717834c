ghost use Rattle.std.specs.Prelude.{◌≡◌, IsTrue, IfSome};
ghost use Rattle.sc_term.specs.Clause.{IsCanonical, IsWithinLimits};
ghost use Rattle.sc_interp.specs.Structure.{HasPlace, MayHold};

use crate::Marks;
use sc_interp::{Tables, Truth, Version, VersionName};
use sc_term::{
    Clause, List, Literal, MAX_DEPTH, MAX_WEIGHT, Role, Signature, SymId, Symbol, Term, canonical,
    canonical_form_is_canonical, depth, weight,
};
use std::alloc::Global;

fn added(alloc: Global, sig: &mut Signature, name: &[u8], arity: u8, role: Role) -> Option<SymId> {
    if arity > 8 {
        return None;
    }
    let name = List::from_slice(alloc, name).ok()?;
    sig.add(Symbol { name, arity, role }).ok()
}

fn is_within_limits(c: &Clause) -> bool
    ensures { IsTrue result → IsWithinLimits c.now }
{
    weight(c) <= MAX_WEIGHT && depth(c) <= MAX_DEPTH
}

/// `p(a)`, which is canonical and within the limits.
fn fact(alloc: Global, p: SymId, a: SymId) -> Option<Clause>
    ensures canonical { IfSome result (λ c. IsCanonical c) }
    ensures within { IfSome result (λ c. IsWithinLimits c) }
{
    let mut args = List::new(alloc);
    args.push(Term::App(a, List::new(alloc))).ok()?;
    let mut literals = List::new(alloc);
    literals
        .push(Literal {
            positive: true,
            pred: p,
            args,
        })
        .ok()?;
    let c = Clause { literals };
    let form = canonical(alloc, &c).ok()?;
    canonical_form_is_canonical();
    if is_within_limits(&form) {
        Some(form)
    } else {
        None
    }
}

/// Whether the entry is there and may have the value 1.
fn fits(t: &Tables, sym: SymId, place: u32) -> bool
    ensures there { IsTrue result → HasPlace t.now sym place }
    ensures in_range { IsTrue result → MayHold t.now sym 1 }
{
    let size = t.size();
    if sym.0 == 0 {
        return false;
    }
    match t.tables().get(sym.0 as usize - 1) {
        Some(table) => (place as usize) < table.entries.len() && 1 < size,
        None => false,
    }
}

/// The version of size 2 in which so many of the entries are 1: that of p at 1, and that of a. With none it is the
/// opening version.
fn version(alloc: Global, sig: &Signature, p: SymId, a: SymId, ones: u8) -> Option<Version> {
    let mut tables = Tables::new(alloc, sig, 2).ok()?;
    if ones > 0 && fits(&tables, p, 1) {
        tables.set(p, 1, 1);
    }
    if ones > 1 && fits(&tables, a, 0) {
        tables.set(a, 0, 1);
    }
    Version::make(alloc, tables, List::new(alloc)).ok()
}

/// The mark of clause 1 when all marks were carried to the version.
fn carried(alloc: Global, marks: &mut Marks, place: u32, to: &Version) -> Option<Truth> {
    marks
        .carry(alloc, VersionName { finder: 1, place }, to)
        .ok()?;
    let mark = marks.of(1)?;
    if mark.name.place == place {
        Some(mark.truth)
    } else {
        None
    }
}

/// The mark of clause 1 when all marks were carried to the version in which so many of the entries are 1.
fn followed(
    alloc: Global,
    marks: &mut Marks,
    sig: &Signature,
    p: SymId,
    a: SymId,
    ones: u8,
) -> Option<Truth> {
    let to = version(alloc, sig, p, a, ones)?;
    carried(alloc, marks, u32::from(ones), &to)
}

/// The first mark, and those where p is true of 1 and a is 0, where a is 1, and in the opening version again.
fn all_followed(
    alloc: Global,
    marks: &mut Marks,
    sig: &Signature,
    p: SymId,
    a: SymId,
    first: Truth,
) -> Option<(Truth, Truth, Truth, Truth)> {
    let second = followed(alloc, marks, sig, p, a, 1)?;
    let third = followed(alloc, marks, sig, p, a, 2)?;
    let last = followed(alloc, marks, sig, p, a, 0)?;
    Some((first, second, third, last))
}

fn marks_of(
    alloc: Global,
    sig: &Signature,
    p: SymId,
    a: SymId,
    fact: &Clause,
) -> Option<(Truth, Truth, Truth, Truth)>
    requires canonical { IsCanonical fact.now }
    requires within { IsWithinLimits fact.now }
{
    let mut marks = Marks::new(alloc, sig).ok()?;
    let first = marks.mark(alloc, 1, fact).ok()?;
    all_followed(alloc, &mut marks, sig, p, a, first)
}

fn marks_over(
    alloc: Global,
    sig: &Signature,
    p: SymId,
    a: SymId,
) -> Option<(Truth, Truth, Truth, Truth)> {
    let fact = fact(alloc, p, a)?;
    marks_of(alloc, sig, p, a, &fact)
}

fn symbols(alloc: Global, sig: &mut Signature) -> Option<(SymId, SymId)> {
    let p = added(alloc, sig, b"p", 1, Role::Predicate)?;
    let a = added(alloc, sig, b"a", 0, Role::Function)?;
    Some((p, a))
}

/// The marks of `p(a)`: in the opening version, and in those of `all_followed`.
fn marks_of_fact(alloc: Global) -> Option<(Truth, Truth, Truth, Truth)> {
    let mut sig = Signature::new(alloc).ok()?;
    let (p, a) = symbols(alloc, &mut sig)?;
    marks_over(alloc, &sig, p, a)
}

#[test]
fn marks_follow_the_version(rt: HostRuntime) {
    let wanted = (Truth::False, Truth::False, Truth::True, Truth::False);
    assert_eq!(rt; marks_of_fact(rt.alloc()), Some(wanted));
}
