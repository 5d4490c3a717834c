//! Numbering variables by first occurrence.

ghost use Rattle.std.specs.Prelude.{◌≡◌, ◌+◌, ◌<◌, ◌≤◌, ◌^◌, ◌∷◌, [], map, nat_eq, IfOk, OnErr, OnOk};
ghost use Rattle.std.specs.List.{position_or_len};
ghost use Rattle.sc_term.specs.Term.{joined, term_under, term_variables};
ghost use Rattle.sc_term.specs.Clause as of;
ghost use Rattle.sc_term.specs.Substitution.{literal_under};
ghost use Rattle.sc_term.specs.JointInstance as joint;
ghost use Rattle.sc_term.specs.Occurrence.{noted, literal_variables};

use crate::memory::{Mem, OutOfMemory};
use crate::{Clause, List, Literal, Term};
use std::alloc::Global;

fn note(n: u32, order: &mut Vec<u32>) -> Mem<()>
    ensures { OnOk result (order.new.items ≡ noted order.old.items (n ∷ [])) }
{
    if !order.contains(&n) {
        order.push(n)?;
    }
    Ok(())
}

#[cycle(noting)]
fn note_term(t: &Term, order: &mut Vec<u32>) -> Mem<()>
    ensures { OnOk result (order.new.items ≡ noted order.old.items (term_variables t.now)) }
{
    match t {
        Term::Var(n) => note(*n, order),
        Term::App(_, args) => note_terms(args.as_slice(), order),
    }
}

#[cycle(noting)]
fn note_terms(terms: &[Term], order: &mut Vec<u32>) -> Mem<()>
    ensures { OnOk result (order.new.items ≡ noted order.old.items (joined (map term_variables terms.now))) }
{
    for term in terms {
        note_term(term, order)?;
    }
    Ok(())
}

/// Adds the variables of the clause to the list, each once, in the order in which they first occur. After want of memory
/// some of them may have been added.
pub fn note_variables(c: &Clause, order: &mut Vec<u32>) -> Mem<()>
    ensures { OnOk result (order.new.items ≡ noted order.old.items (of.variables c.now)) }
{
    for literal in c.literals.as_slice() {
        note_terms(literal.args.as_slice(), order)?;
    }
    Ok(())
}

/// How many of the list stand before the number.
fn place(order: &[u32], n: u32) -> usize
    ensures { result ≡ position_or_len (nat_eq n) order.now }
{
    for at in 0..order.len() {
        if order[at] == n {
            return at;
        }
    }
    order.len()
}

/// The new number of a variable. There are no more variables than such numbers, so it is never refused.
fn new_number(order: &[u32], n: u32) -> Mem<u32>
    ensures value { IfOk result (λ r. r ≡ position_or_len (nat_eq n) order.now) }
    ensures refused { OnErr result (4294967295 < position_or_len (nat_eq n) order.now) }
{
    let at = place(order, n);
    if at > u32::MAX as usize {
        return Err(OutOfMemory);
    }
    Ok(at as u32)
}

/// The term with each variable numbered by how many of the list stand before it.
#[cycle(numbering)]
pub fn renumber_term(alloc: Global, t: &Term, order: &[u32]) -> Mem<Term>
    ensures { IfOk result (λ r. r ≡ term_under (joint.renumbering order.now) t.now) }
{
    match t {
        Term::Var(n) => Ok(Term::Var(new_number(order, *n)?)),
        Term::App(f, args) => {
            let args = renumber_terms(alloc, args.as_slice(), order)?;
            Ok(Term::App(*f, args))
        }
    }
}

#[cycle(numbering)]
fn renumber_terms(alloc: Global, terms: &[Term], order: &[u32]) -> Mem<List<Term>>
    ensures { IfOk result (λ r. r ≡ map (term_under (joint.renumbering order.now)) terms.now) }
{
    let mut made = List::new(alloc);
    for term in terms {
        made.push(renumber_term(alloc, term, order)?)?;
    }
    Ok(made)
}

fn renumber_literals(alloc: Global, literals: &[Literal], order: &[u32]) -> Mem<List<Literal>>
    ensures { IfOk result (λ r. r ≡ map (literal_under (joint.renumbering order.now)) literals.now) }
{
    let mut made = List::new(alloc);
    for literal in literals {
        made.push(Literal {
            positive: literal.positive,
            pred: literal.pred,
            args: renumber_terms(alloc, literal.args.as_slice(), order)?,
        })?;
    }
    Ok(made)
}

/// The clause with its variables numbered by first occurrence, from 0.
pub fn canonical(alloc: Global, c: &Clause) -> Mem<Clause>
    ensures { IfOk result (λ r. r ≡ joint.canonical c.now) }
{
    let mut order = Vec::new(alloc);
    note_variables(c, &mut order)?;
    let literals = renumber_literals(alloc, c.literals.as_slice(), order.as_slice())?;
    Ok(Clause { literals })
}
