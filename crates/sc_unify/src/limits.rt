//! Whether what the bindings make is within the limits. Nothing is made, and the walk ends as soon as a limit is
//! passed, so that a term which would be far too large is refused at once.

ghost use Rattle.std.specs.Prelude.{◌≡◌, map, sum};
ghost use Rattle.sc_term.specs.Term.{term_under, term_weight, term_depth, largest};
ghost use Rattle.sc_term.specs.Clause.{literal_weight, literal_depth};
ghost use Rattle.sc_term.specs.Substitution.{literal_under};
ghost use Rattle.sc_unify.specs.Bindings.{bindings, AreSolved, finished};
ghost use Rattle.sc_unify.specs.Limits.{Spends};

use crate::bound::{Bound, walk};
use sc_term::{Literal, MAX_DEPTH, Term};

/// What is left of a weight after the term, or None where it weighs more or is deeper than `depth`.
#[cycle(spending)]
fn spend_term<'a>(bound: &[Bound<'a>], term: &'a Term, weight: u32, depth: u32) -> Option<u32>
    requires { AreSolved (bindings bound.now) }
    ensures { let made = term_under (finished (bindings bound.now)) term.now in
        Spends weight depth (term_weight made) (term_depth made) result }
{
    if weight == 0 || depth == 0 {
        return None;
    }
    match walk(bound, term) {
        Term::Var(_) => Some(weight - 1),
        Term::App(_, args) => spend_terms(bound, args.as_slice(), weight - 1, depth - 1),
    }
}

#[cycle(spending)]
fn spend_terms<'a>(bound: &[Bound<'a>], terms: &'a [Term], weight: u32, depth: u32) -> Option<u32>
    requires { AreSolved (bindings bound.now) }
    ensures { let made = map (term_under (finished (bindings bound.now))) terms.now in
        Spends weight depth (sum (map term_weight made)) (largest (map term_depth made)) result }
{
    let mut left = weight;
    for term in terms {
        match spend_term(bound, term, left, depth) {
            Some(rest) => left = rest,
            None => return None,
        }
    }
    Some(left)
}

fn spend_literal<'a>(bound: &[Bound<'a>], literal: &'a Literal, weight: u32) -> Option<u32>
    requires { AreSolved (bindings bound.now) }
    ensures { let made = literal_under (finished (bindings bound.now)) literal.now in
        Spends weight 256 (literal_weight made) (literal_depth made) result }
{
    if weight == 0 {
        return None;
    }
    spend_terms(bound, literal.args.as_slice(), weight - 1, MAX_DEPTH - 1)
}

/// What is left of a weight after the literals, or None where they weigh more or one is deeper than the limit.
pub fn spend_literals<'a>(bound: &[Bound<'a>], literals: &'a [Literal], weight: u32) -> Option<u32>
    requires { AreSolved (bindings bound.now) }
    ensures { let made = map (literal_under (finished (bindings bound.now))) literals.now in
        Spends weight 256 (sum (map literal_weight made)) (largest (map literal_depth made)) result }
{
    let mut left = weight;
    for literal in literals {
        match spend_literal(bound, literal, left) {
            Some(rest) => left = rest,
            None => return None,
        }
    }
    Some(left)
}
