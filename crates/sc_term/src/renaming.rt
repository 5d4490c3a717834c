//! Clauses with their variables moved up.

ghost use Rattle.std.specs.Prelude.{◌≡◌, ◌+◌, ◌<◌, ◌≤◌, ◌^◌, map, IfOk};
ghost use Rattle.sc_term.specs.Term.{largest, term_under, term_width};
ghost use Rattle.sc_term.specs.Clause.{literal_width, width};
ghost use Rattle.sc_term.specs.Substitution.{literal_under};
ghost use Rattle.sc_term.specs.JointInstance as joint;
ghost use Rattle.sc_term.specs.Occurrence.{shift_by};

use crate::memory::Mem;
use crate::{Clause, List, Literal, Term};
use std::alloc::Global;

#[cycle(shifting)]
fn shift_term(alloc: Global, t: &Term, by: u32) -> Mem<Term>
    requires { term_width t.now + by < 2 ^ 32 }
    ensures { IfOk result (λ r. r ≡ term_under (shift_by by) t.now) }
{
    match t {
        Term::Var(n) => Ok(Term::Var(*n + by)),
        Term::App(f, args) => {
            let args = shift_terms(alloc, args.as_slice(), by)?;
            Ok(Term::App(*f, args))
        }
    }
}

#[cycle(shifting)]
fn shift_terms(alloc: Global, terms: &[Term], by: u32) -> Mem<List<Term>>
    requires { largest (map term_width terms.now) + by < 2 ^ 32 }
    ensures { IfOk result (λ r. r ≡ map (term_under (shift_by by)) terms.now) }
{
    let mut made = List::new(alloc);
    for term in terms {
        made.push(shift_term(alloc, term, by)?)?;
    }
    Ok(made)
}

fn shift_literals(alloc: Global, literals: &[Literal], by: u32) -> Mem<List<Literal>>
    requires { largest (map literal_width literals.now) + by < 2 ^ 32 }
    ensures { IfOk result (λ r. r ≡ map (literal_under (shift_by by)) literals.now) }
{
    let mut made = List::new(alloc);
    for literal in literals {
        made.push(Literal {
            positive: literal.positive,
            pred: literal.pred,
            args: shift_terms(alloc, literal.args.as_slice(), by)?,
        })?;
    }
    Ok(made)
}

/// The clause with each variable greater by the number.
pub fn shift(alloc: Global, c: &Clause, by: u32) -> Mem<Clause>
    requires { width c.now + by < 2 ^ 31 }
    ensures { IfOk result (λ r. r ≡ joint.shift by c.now) }
{
    let literals = shift_literals(alloc, c.literals.as_slice(), by)?;
    Ok(Clause { literals })
}
