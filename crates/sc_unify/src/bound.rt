//! Variables bound to terms, in the order in which they were bound.

ghost use Rattle.std.specs.Prelude.{◌≡◌, ◌≤◌, IfSome, IfNone, None};
ghost use Rattle.std.specs.Option.{option_copied};
ghost use Rattle.sc_unify.specs.Bindings.{lookup, bindings, AreSolved, finished, cost, IsWalked};
ghost use Rattle.sc_term.specs.Term.{term_under};

use sc_term::Term;

/// A variable and the term that it stands for.
#[derive(Debug, Drop)]
pub struct Binding {
    pub variable: u32,
    pub term: Term,
}

/// A variable and the term that it stands for, which may have bound variables itself.
#[derive(Clone, Copy)]
pub struct Bound<'a> {
    pub variable: u32,
    pub term: &'a Term,
}

/// What the variable is bound to.
pub fn find<'a>(bound: &[Bound<'a>], variable: u32) -> Option<&'a Term>
    ensures { option_copied result ≡ lookup (bindings bound.now) variable }
{
    for one in bound {
        if one.variable == variable {
            return Some(one.term);
        }
    }
    None
}

/// What the term stands for, as far as its first symbol or unbound variable.
pub fn walk<'a>(bound: &[Bound<'a>], term: &'a Term) -> &'a Term
    requires { AreSolved (bindings bound.now) }
    ensures same { term_under (finished (bindings bound.now)) result.now ≡ term_under (finished (bindings bound.now)) term.now }
    ensures less { cost (bindings bound.now) result.now ≤ cost (bindings bound.now) term.now }
    ensures free { IsWalked (bindings bound.now) result.now }
{
    let mut term = term;
    while let Term::Var(n) = term {
        match find(bound, *n) {
            Some(next) => term = next,
            None => break,
        }
    }
    term
}
