//! Whether a clause is an instance of another, with nothing made.

ghost use Rattle.std.specs.Prelude.{◌≡◌, ◌↔◌, IsTrue, map};
ghost use Rattle.sc_term.specs.Term as spec;
ghost use Rattle.sc_term.specs.Clause as of;

use sc_term::{Clause, Literal, Term, same_term};

#[cycle(instance)]
fn is_term_instance(pattern: &Term, terms: &[Term], t: &Term) -> bool
    ensures { IsTrue result ↔ (t.now ≡ spec.term_instance terms.now pattern.now) }
{
    match (pattern, t) {
        (Term::Var(n), _) => is_value(*n, terms, t),
        (Term::App(f, patterns), Term::App(g, args)) => {
            f == g && are_instances(patterns.as_slice(), terms, args.as_slice())
        }
        (Term::App(_, _), Term::Var(_)) => false,
    }
}

fn is_value(n: u32, terms: &[Term], t: &Term) -> bool
    ensures { IsTrue result ↔ (t.now ≡ spec.value_of terms.now n) }
{
    match terms.get(n as usize) {
        Some(term) => same_term(t, term),
        None => match t {
            Term::Var(m) => *m == n,
            Term::App(_, _) => false,
        },
    }
}

#[cycle(instance)]
fn are_instances(patterns: &[Term], terms: &[Term], all: &[Term]) -> bool
    ensures { IsTrue result ↔ (all.now ≡ map (spec.term_instance terms.now) patterns.now) }
{
    if patterns.len() != all.len() {
        return false;
    }
    for i in 0..patterns.len() {
        if !is_term_instance(&patterns[i], terms, &all[i]) {
            return false;
        }
    }
    true
}

fn is_literal_instance(pattern: &Literal, terms: &[Term], l: &Literal) -> bool
    ensures { IsTrue result ↔ (l.now ≡ of.literal_instance terms.now pattern.now) }
{
    pattern.positive == l.positive
        && pattern.pred == l.pred
        && are_instances(pattern.args.as_slice(), terms, l.args.as_slice())
}

/// Whether `c` is the instance of `pattern` by the terms.
pub fn is_instance(pattern: &Clause, terms: &[Term], c: &Clause) -> bool
    ensures { IsTrue result ↔ (c.now ≡ of.instance terms.now pattern.now) }
{
    let (patterns, all) = (pattern.literals.as_slice(), c.literals.as_slice());
    if patterns.len() != all.len() {
        return false;
    }
    for i in 0..patterns.len() {
        if !is_literal_instance(&patterns[i], terms, &all[i]) {
            return false;
        }
    }
    true
}
