ghost use Rattle.std.specs.Prelude.{◌≡◌, IfOk};

use super::*;
use std::alloc::Global;
use std::test::Fail;

const P: SymId = SymId(1);

const Q: SymId = SymId(2);

const A: SymId = SymId(3);

const F: SymId = SymId(4);

fn compound(alloc: Global, symbol: SymId, args: &[Term]) -> Mem<Term> {
    let mut copies = List::new(alloc);
    for arg in args {
        copies.push(copy_term(alloc, arg)?)?;
    }
    Ok(Term::App(symbol, copies))
}

fn literal(alloc: Global, positive: bool, pred: SymId, args: &[Term]) -> Mem<Literal> {
    let mut copies = List::new(alloc);
    for arg in args {
        copies.push(copy_term(alloc, arg)?)?;
    }
    Ok(Literal {
        positive,
        pred,
        args: copies,
    })
}

/// `-p(x0) | q(f(x0),a)`, or the first of its literals, or none.
fn clause(alloc: Global, count: u32) -> Mem<Clause> {
    let mut literals = List::new(alloc);
    if count > 0 {
        literals.push(literal(alloc, false, P, &[Term::Var(0)])?)?;
    }
    if count > 1 {
        let left = compound(alloc, F, &[Term::Var(0)])?;
        let right = compound(alloc, A, &[])?;
        literals.push(literal(alloc, true, Q, &[left, right])?)?;
    }
    Ok(Clause { literals })
}

/// Weight, depth and width.
fn measures(c: &Clause) -> Option<(u32, u32, u32)> {
    if full_width(c) > u64::from(u32::MAX) {
        return None;
    }
    Some((weight(c), depth(c), width(c)))
}

#[test]
fn a_clause_is_measured(rt: HostRuntime) -> Result<(), Fail> {
    for (count, want) in [(2, (6, 3, 1)), (0, (0, 0, 0))] {
        let c = clause(rt.alloc(), count)?;
        assert_eq!(rt; measures(&c), Some(want), "{count} literals");
        assert!(rt; same(&c, &clause(rt.alloc(), count)?));
        assert!(rt; !same(&c, &clause(rt.alloc(), 1)?));
    }
    Ok(())
}

/// `f` over as many constants as make the term weigh so much.
fn wide_term(alloc: Global, weight: u32) -> Mem<Term> {
    let mut args = List::new(alloc);
    for _ in 1..weight {
        args.push(Term::App(A, List::new(alloc)))?;
    }
    Ok(Term::App(F, args))
}

/// The weight of the instance of `-p(x0)` by such a term.
fn instance_weight(alloc: Global, term_weight: u32) -> Mem<Option<u32>> {
    let c = clause(alloc, 1)?;
    let mut terms = List::new(alloc);
    terms.push(wide_term(alloc, term_weight)?)?;
    if full_width(&c) != terms.len() as u64 {
        return Ok(None);
    }
    let made = instance(alloc, &c, &terms)?;
    Ok(made.as_ref().map(|d| weight(d)))
}

#[test]
fn an_instance_weighs_at_most_the_limit(rt: HostRuntime) {
    for (term_weight, want) in [(9_999, Some(10_000)), (10_000, None)] {
        let made = instance_weight(rt.alloc(), term_weight);
        assert_eq!(rt; made, Ok(want), "a term of weight {term_weight}");
    }
}

fn predicate(alloc: Global, name: &[u8], arity: u8) -> Mem<Symbol>
    ensures { IfOk result (λ s. s.arity ≡ arity) }
{
    Ok(Symbol {
        name: Text::from_slice(alloc, name)?,
        arity,
        role: Role::Predicate,
    })
}

#[test]
fn symbols_are_numbered_once(rt: HostRuntime) -> Result<(), Fail> {
    let alloc = rt.alloc();
    let mut signature = Signature::new(alloc)?;
    assert_eq!(rt; signature.len(), 1);
    assert!(rt; *signature.symbol(SymId(0)) == predicate(alloc, b"=", 2)?);
    for (arity, number) in [(1, 1), (1, 1), (2, 2)] {
        let p = predicate(alloc, b"p", arity)?;
        assert_eq!(rt; signature.add(p), Ok(SymId(number)), "arity {arity}");
        let p = predicate(alloc, b"p", arity)?;
        assert_eq!(rt; signature.find(&p), Some(SymId(number)), "arity {arity}");
    }
    assert_eq!(rt; signature.find(&predicate(alloc, b"q", 1)?), None);
    assert_eq!(rt;
        signature.number_of(b"p", 2, Role::Predicate),
        Some(SymId(2))
    );
    assert_eq!(rt; signature.number_of(b"p", 2, Role::Function), None);
    for (arity, number) in [(2, 2), (3, 3), (3, 3)] {
        let added = signature.add_named(alloc, b"p", arity, Role::Predicate);
        assert_eq!(rt; added, Ok(SymId(number)), "arity {arity}");
    }
    Ok(())
}
