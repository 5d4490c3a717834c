//! Writing out what the bindings make.

ghost use Rattle.std.specs.Prelude.{◌≡◌, map, IfOk};
ghost use Rattle.sc_term.specs.Term.{term_under};
ghost use Rattle.sc_term.specs.Substitution.{literal_under, clause_under};
ghost use Rattle.sc_unify.specs.Bindings.{bindings, AreSolved, finished};

use crate::bound::{Bound, walk};
use sc_term::{Clause, List, Literal, Mem, Term};
use std::alloc::Global;

#[cycle(writing)]
pub fn write_term<'a>(alloc: Global, bound: &[Bound<'a>], term: &'a Term) -> Mem<Term>
    requires { AreSolved (bindings bound.now) }
    ensures { IfOk result (λ r. r ≡ term_under (finished (bindings bound.now)) term.now) }
{
    match walk(bound, term) {
        Term::Var(n) => Ok(Term::Var(*n)),
        Term::App(f, args) => {
            let args = write_terms(alloc, bound, args.as_slice())?;
            Ok(Term::App(*f, args))
        }
    }
}

#[cycle(writing)]
fn write_terms<'a>(alloc: Global, bound: &[Bound<'a>], terms: &'a [Term]) -> Mem<List<Term>>
    requires { AreSolved (bindings bound.now) }
    ensures { IfOk result (λ r. r ≡ map (term_under (finished (bindings bound.now))) terms.now) }
{
    let mut made = List::new(alloc);
    for term in terms {
        made.push(write_term(alloc, bound, term)?)?;
    }
    Ok(made)
}

fn write_literals<'a>(
    alloc: Global,
    bound: &[Bound<'a>],
    literals: &'a [Literal],
) -> Mem<List<Literal>>
    requires { AreSolved (bindings bound.now) }
    ensures { IfOk result (λ r. r ≡ map (literal_under (finished (bindings bound.now))) literals.now) }
{
    let mut made = List::new(alloc);
    for literal in literals {
        made.push(Literal {
            positive: literal.positive,
            pred: literal.pred,
            args: write_terms(alloc, bound, literal.args.as_slice())?,
        })?;
    }
    Ok(made)
}

/// What the bindings make of the clause.
pub fn write_clause<'a>(alloc: Global, bound: &[Bound<'a>], c: &'a Clause) -> Mem<Clause>
    requires { AreSolved (bindings bound.now) }
    ensures { IfOk result (λ r. r ≡ clause_under (finished (bindings bound.now)) c.now) }
{
    let literals = write_literals(alloc, bound, c.literals.as_slice())?;
    Ok(Clause { literals })
}
