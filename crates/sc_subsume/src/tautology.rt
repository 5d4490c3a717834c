//! Tautologies.

ghost use Rattle.std.specs.Prelude.{◌≡◌, ◌↔◌, Contains, IsTrue, true};
ghost use Rattle.sc_term.specs.declared.Literal.{Literal as ALiteral};
ghost use Rattle.sc_term.specs.declared.Term.{Term as ATerm};
ghost use Rattle.sc_term.specs.Proof.{AreOpposite};
ghost use Rattle.sc_term.specs.Refuted.{equation};
ghost use Rattle.sc_term.specs.Subsumption.{IsTautology};

use sc_term::{Clause, Literal, SymId, same_term, same_terms};

/// Whether the two have opposite signs and the same atom.
fn are_opposite(l: &Literal, m: &Literal) -> bool
    ensures { IsTrue result ↔ AreOpposite l.now m.now }
{
    l.positive != m.positive && l.pred == m.pred && same_terms(l.args.as_slice(), m.args.as_slice())
}

/// Whether one of the literals is the opposite of the literal.
fn has_opposite(l: &Literal, all: &[Literal]) -> bool
    ensures { IsTrue result ↔ ((m : ALiteral) × Contains all.now m × AreOpposite l.now m) }
{
    for m in all {
        if are_opposite(l, m) {
            return true;
        }
    }
    false
}

/// Whether the literal is a positive equation of a term with itself.
fn is_reflexive(l: &Literal) -> bool
    ensures { IsTrue result ↔ ((t : ATerm) × (l.now ≡ equation true t t)) }
{
    if !l.positive || l.pred != SymId(0) {
        return false;
    }
    match l.args.as_slice() {
        [left, right] => same_term(left, right),
        _ => false,
    }
}

/// Whether the clause has two literals of opposite signs with the same atom, or a positive equation of a term with
/// itself. Takes time quadratic in the number of literals.
pub fn is_tautology(c: &Clause) -> bool
    ensures { IsTrue result ↔ IsTautology c.now }
{
    let literals = c.literals.as_slice();
    for l in literals {
        if is_reflexive(l) || has_opposite(l, literals) {
            return true;
        }
    }
    false
}
