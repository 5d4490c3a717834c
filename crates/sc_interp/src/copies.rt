//! Copies, each equal to what it copies.

ghost use Rattle.std.specs.Prelude.{◌≡◌, IfOk};

use crate::plain::Claim;
use crate::table::Table;
use sc_term::{Clause, List, Literal, Mem, Term, copy_term};
use std::alloc::Global;

fn copy_terms(alloc: Global, terms: &[Term]) -> Mem<List<Term>>
    ensures { IfOk result (λ r. r ≡ terms.now) }
{
    let mut copies = List::new(alloc);
    for term in terms {
        copies.push(copy_term(alloc, term)?)?;
    }
    Ok(copies)
}

fn copy_literals(alloc: Global, literals: &[Literal]) -> Mem<List<Literal>>
    ensures { IfOk result (λ r. r ≡ literals.now) }
{
    let mut copies = List::new(alloc);
    for literal in literals {
        copies.push(Literal {
            positive: literal.positive,
            pred: literal.pred,
            args: copy_terms(alloc, literal.args.as_slice())?,
        })?;
    }
    Ok(copies)
}

pub fn copy_claims(alloc: Global, claims: &[Claim]) -> Mem<List<Claim>>
    ensures { IfOk result (λ r. r ≡ claims.now) }
{
    let mut copies = List::new(alloc);
    for claim in claims {
        let literals = copy_literals(alloc, claim.clause.literals.as_slice())?;
        copies.push(Claim {
            number: claim.number,
            clause: Clause { literals },
        })?;
    }
    Ok(copies)
}

pub fn copy_tables(alloc: Global, tables: &[Table]) -> Mem<Vec<Table>>
    ensures { IfOk result (λ r. r.items ≡ tables.now) }
{
    let mut copies = Vec::new(alloc);
    for table in tables {
        copies.push(Table {
            role: table.role,
            arity: table.arity,
            entries: List::from_slice(alloc, table.entries.as_slice())?,
        })?;
    }
    Ok(copies)
}
