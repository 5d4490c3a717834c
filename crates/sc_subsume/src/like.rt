//! A quick look, before any search, at signs and predicates.

ghost use Rattle.std.specs.Prelude.{◌↔◌, All, IsTrue};
ghost use Rattle.std.specs.List.{Any};
ghost use Rattle.sc_subsume.specs.Search.{AreLike};

use sc_term::Literal;

/// Whether the two have the same sign and predicate.
pub fn are_like(l: &Literal, m: &Literal) -> bool
    ensures { IsTrue result ↔ AreLike l.now m.now }
{
    l.positive == m.positive && l.pred == m.pred
}

/// Whether one of the literals has the literal's sign and predicate.
fn has_like(l: &Literal, all: &[Literal]) -> bool
    ensures { IsTrue result ↔ Any (AreLike l.now) all.now }
{
    for m in all {
        if are_like(l, m) {
            return true;
        }
    }
    false
}

/// Whether each literal of `c` has one of its sign and predicate in `d`.
pub fn each_has_like(c: &[Literal], d: &[Literal]) -> bool
    ensures { IsTrue result ↔ All (λ l. Any (AreLike l) d.now) c.now }
{
    for l in c {
        if !has_like(l, d) {
            return false;
        }
    }
    true
}
