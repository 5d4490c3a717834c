//! Copies.

ghost use Rattle.std.specs.Prelude.{◌≡◌, IfOk};

use crate::memory::Mem;
use crate::{Clause, List, Literal, Term};
use std::alloc::Global;

/// A term equal to this one.
#[cycle(copy)]
pub fn copy_term(alloc: Global, t: &Term) -> Mem<Term>
    ensures { IfOk result (λ r. r ≡ t.now) }
{
    match t {
        Term::Var(n) => Ok(Term::Var(*n)),
        Term::App(f, args) => {
            let args = copy_terms(alloc, args.as_slice())?;
            Ok(Term::App(*f, args))
        }
    }
}

/// Terms equal to these, in order.
#[cycle(copy)]
pub fn copy_terms(alloc: Global, terms: &[Term]) -> Mem<List<Term>>
    ensures { IfOk result (λ r. r ≡ terms.now) }
{
    let mut copies = List::new(alloc);
    for term in terms {
        copies.push(copy_term(alloc, term)?)?;
    }
    Ok(copies)
}

/// A literal equal to this one.
pub fn copy_literal(alloc: Global, l: &Literal) -> Mem<Literal>
    ensures { IfOk result (λ r. r ≡ l.now) }
{
    Ok(Literal {
        positive: l.positive,
        pred: l.pred,
        args: copy_terms(alloc, l.args.as_slice())?,
    })
}

/// A clause equal to this one.
pub fn copy(alloc: Global, c: &Clause) -> Mem<Clause>
    ensures { IfOk result (λ r. r ≡ c.now) }
{
    let mut literals = List::new(alloc);
    for literal in c.literals.as_slice() {
        literals.push(copy_literal(alloc, literal)?)?;
    }
    Ok(Clause { literals })
}
