//! Clauses that are one positive equation.

ghost use Rattle.std.specs.Prelude.{◌≡◌, ◌≢◌, ◌∷◌, [], ◌↔◌, true, IsTrue, IfOk, IfSome, IfNone};
ghost use Rattle.sc_term.specs.Refuted.{equation};
ghost use Rattle.sc_term.specs.declared.Term.{Term as ATerm};
ghost use Rattle.sc_core_rules.specs.Paramodulation.{IsCompound};
ghost use Rattle.sc_core_rules.specs.Rewriting.{IsEquation};

use sc_term::{Clause, EQUALS, List, Literal, Mem, Term, copy_term};
use std::alloc::Global;

/// The sides of the literal, where it is a positive equation.
fn literal_sides(l: &Literal) -> Option<(&Term, &Term)>
    ensures found { IfSome result (λ p. l.now ≡ equation true p.0.now p.1.now) }
    ensures none { IfNone result ((s t : ATerm) → l.now ≢ equation true s t) }
{
    if !l.positive {
        return None;
    }
    match l.args.as_slice() {
        [s, t] if l.pred == EQUALS => Some((s, t)),
        _ => None,
    }
}

/// The sides of the clause, where it is one positive equation and no more.
pub fn sides(c: &Clause) -> Option<(&Term, &Term)>
    ensures found { IfSome result (λ p. IsEquation c.now p.0.now p.1.now) }
    ensures none { IfNone result ((s t : ATerm) → ¬ IsEquation c.now s t) }
{
    match c.literals.as_slice() {
        [only] => literal_sides(only),
        _ => None,
    }
}

/// The clause that is the equation of these sides.
pub fn equation(alloc: Global, left: &Term, right: &Term) -> Mem<Clause>
    ensures { IfOk result (λ c. IsEquation c left.now right.now) }
{
    let mut args = List::new(alloc);
    args.push(copy_term(alloc, left)?)?;
    args.push(copy_term(alloc, right)?)?;
    let mut literals = List::new(alloc);
    literals.push(Literal {
        positive: true,
        pred: EQUALS,
        args,
    })?;
    Ok(Clause { literals })
}

/// Whether the term is no variable.
pub fn is_compound(t: &Term) -> bool
    ensures { IsTrue result ↔ IsCompound t.now }
{
    match t {
        Term::Var(_) => false,
        Term::App(_, _) => true,
    }
}
