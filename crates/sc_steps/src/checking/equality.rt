//! Whether a clause follows by a step on equality, with nothing made.

ghost use Rattle.std.specs.Prelude.{◌≡◌, ◌≢◌, ◌↔◌, ◌<◌, ◌≤◌, length, true, IsTrue, IfSome, IfNone};
ghost use Rattle.sc_term.specs.Numbering.{with_element};
ghost use Rattle.sc_term.specs.Path.{IsReplaced};
ghost use Rattle.sc_term.specs.Proof.{chosen, other, IsParamodulant, IsFlipped};
ghost use Rattle.sc_term.specs.Refuted.{equation};
ghost use Rattle.sc_term.specs.declared.Term.{Term as ATerm};
ghost use Rattle.sc_steps.specs.Replacement.{AreSides, IsTermReplaced, IsLiteralReplaced, IsLiteralFlipped};

use crate::lists::{is_without, numbered, strip_changed};
use sc_term::{Clause, EQUALS, Literal, Side, Term, same_term, same_terms};

/// Element number n of `all`, where each other element is that of `args`.
fn changed_argument<'a>(args: &[Term], n: u32, all: &'a [Term]) -> Option<&'a Term>
    requires there { 0 < n }
    requires within { n ≤ length args.now }
    ensures found { IfSome result (λ x. all.now ≡ with_element args.now n x.now) }
    ensures none { IfNone result ((x : ATerm) → all.now ≢ with_element args.now n x) }
{
    let at = n as usize - 1;
    if all.len() != args.len() {
        return None;
    }
    if same_terms(&args[..at], &all[..at]) && same_terms(&args[at + 1..], &all[at + 1..]) {
        Some(&all[at])
    } else {
        None
    }
}

/// Whether the term becomes `new` where its subterm `s` at the path, or the term itself for the empty path, is replaced
/// by `t`. It goes no deeper than the terms do, however long the path is.
#[cycle(replaced)]
fn is_term_replaced(old: &Term, path: &[u32], s: &Term, t: &Term, new: &Term) -> bool
    ensures { IsTrue result ↔ IsTermReplaced old.now path.now s.now t.now new.now }
{
    if path.is_empty() {
        return same_term(old, s) && same_term(new, t);
    }
    match (old, new) {
        (Term::App(f, inner), Term::App(g, changed)) => {
            f == g && is_replaced(inner.as_slice(), path, s, t, changed.as_slice())
        }
        _ => false,
    }
}

/// Whether the arguments become `all` where their subterm `s` at the path is replaced by `t`.
#[cycle(replaced)]
fn is_replaced(args: &[Term], path: &[u32], s: &Term, t: &Term, all: &[Term]) -> bool
    ensures { IsTrue result ↔ IsReplaced args.now path.now s.now t.now all.now }
{
    let Some((n, rest)) = path.split_first() else {
        return false;
    };
    let Some(old) = numbered(args, *n) else {
        return false;
    };
    match changed_argument(args, *n, all) {
        Some(new) => is_term_replaced(old, rest, s, t, new),
        None => false,
    }
}

/// The sides of the literal's equation, of either sign.
fn sides(l: &Literal) -> Option<(&Term, &Term)>
    ensures found { IfSome result (λ p. AreSides l.now p.0.now p.1.now) }
    ensures none { IfNone result ((s t : ATerm) → ¬ AreSides l.now s t) }
{
    match l.args.as_slice() {
        [s, t] if l.pred == EQUALS => Some((s, t)),
        _ => None,
    }
}

/// The sides of a positive equation.
fn positive_sides(l: &Literal) -> Option<(&Term, &Term)>
    ensures found { IfSome result (λ p. l.now ≡ equation true p.0.now p.1.now) }
    ensures none { IfNone result ((s t : ATerm) → l.now ≢ equation true s t) }
{
    if l.positive { sides(l) } else { None }
}

/// The chosen side, and then the other.
fn chosen_first<'a>(side: Side, left: &'a Term, right: &'a Term) -> (&'a Term, &'a Term)
    ensures chosen { result.0.now ≡ chosen side left.now right.now }
    ensures other { result.1.now ≡ other side left.now right.now }
{
    match side {
        Side::Left => (left, right),
        Side::Right => (right, left),
    }
}

/// Whether the two have the same sign and the same predicate.
fn are_alike(l: &Literal, m: &Literal) -> bool
    ensures { IsTrue result ↔ ((l.now.positive ≡ m.now.positive) × (l.now.pred ≡ m.now.pred)) }
{
    l.positive == m.positive && l.pred == m.pred
}

/// Whether literal `m` becomes `changed` where the chosen side of `l`, a positive equation, is replaced by the other.
fn is_literal_replaced(
    l: &Literal,
    side: Side,
    m: &Literal,
    path: &[u32],
    changed: &Literal,
) -> bool
    ensures { IsTrue result ↔ IsLiteralReplaced l.now side m.now path.now changed.now }
{
    match positive_sides(l) {
        Some((left, right)) => {
            let (s, t) = chosen_first(side, left, right);
            are_alike(changed, m)
                && is_replaced(m.args.as_slice(), path, s, t, changed.args.as_slice())
        }
        None => false,
    }
}

/// Whether the literal is an equation and becomes `turned` where its sides are exchanged.
fn is_literal_flipped(l: &Literal, turned: &Literal) -> bool
    ensures { IsTrue result ↔ IsLiteralFlipped l.now turned.now }
{
    match (sides(l), sides(turned)) {
        (Some((s, t)), Some((u, v))) => {
            l.positive == turned.positive && same_term(s, v) && same_term(t, u)
        }
        _ => false,
    }
}

/// Whether `c` has the literals of `into`, with the other side of the equation that is literal a of `from` in the place
/// of its chosen side at the path of literal b, and then those of `from` without the equation.
pub fn is_paramodulant(
    from: &Clause,
    a: u32,
    side: Side,
    into: &Clause,
    b: u32,
    path: &[u32],
    c: &Clause,
) -> bool
    ensures { IsTrue result ↔ IsParamodulant from.now a side into.now b path.now c.now }
{
    let (froms, intos) = (from.literals.as_slice(), into.literals.as_slice());
    match (numbered(froms, a), numbered(intos, b)) {
        (Some(l), Some(m)) => match strip_changed(c.literals.as_slice(), intos, b) {
            Some((changed, rest)) => {
                is_without(rest, froms, a) && is_literal_replaced(l, side, m, path, changed)
            }
            None => false,
        },
        _ => false,
    }
}

/// Whether `c` has the literals of `of`, with the sides of literal a, which is an equation, exchanged.
pub fn is_flipped(of: &Clause, a: u32, c: &Clause) -> bool
    ensures { IsTrue result ↔ IsFlipped of.now a c.now }
{
    let literals = of.literals.as_slice();
    match numbered(literals, a) {
        Some(l) => match strip_changed(c.literals.as_slice(), literals, a) {
            Some((turned, rest)) => rest.is_empty() && is_literal_flipped(l, turned),
            None => false,
        },
        None => false,
    }
}
