//! The occurs check: whether a variable is in what the bindings make of a term. Each bound variable is entered once,
//! so that a term which is far larger when written out is checked in the time that its parts take.

ghost use Rattle.std.specs.Prelude.{◌≡◌, ◌++◌, ◌∷◌, [], None, map, IfOk, OnOk};
ghost use Rattle.sc_term.specs.Term.{term_under};
ghost use Rattle.sc_unify.specs.Bindings.{lookup, bindings, AreSolved, finished, occurs_in};
ghost use Rattle.sc_unify.specs.Search.{terms, Enters};

use crate::bound::{Bound, find};
use sc_term::{Mem, Term};
use std::alloc::Global;

/// The term of a bound variable, the first time that the variable is met.
fn enter<'a>(bound: &[Bound<'a>], variable: u32, seen: &mut Vec<u32>) -> Mem<Option<&'a Term>>
    ensures { IfOk result (λ next. Enters (bindings bound.now) variable seen.old.items seen.new.items next) }
{
    match find(bound, variable) {
        Some(next) => {
            if seen.contains(&variable) {
                Ok(None)
            } else {
                seen.push(variable)?;
                Ok(Some(next))
            }
        }
        None => Ok(None),
    }
}

fn push_all<'a>(args: &'a [Term], todo: &mut Vec<&'a Term>) -> Mem<()>
    ensures { OnOk result (terms todo.new.items ≡ terms todo.old.items ++ args.now) }
{
    for arg in args {
        todo.push(arg)?;
    }
    Ok(())
}

/// Whether the variable, which isn't bound, is in what the bindings make of the term.
pub fn occurs<'a>(alloc: Global, bound: &[Bound<'a>], variable: u32, term: &'a Term) -> Mem<bool>
    requires solved { AreSolved (bindings bound.now) }
    requires free { lookup (bindings bound.now) variable ≡ None }
    ensures { IfOk result (λ is. is ≡ occurs_in variable (term_under (finished (bindings bound.now)) term.now)) }
{
    let mut seen: Vec<u32> = Vec::new(alloc);
    let mut todo: Vec<&'a Term> = Vec::new(alloc);
    todo.push(term)?;
    while let Some(next) = todo.pop() {
        match next {
            Term::Var(n) => {
                if *n == variable {
                    return Ok(true);
                }
                if let Some(inner) = enter(bound, *n, &mut seen)? {
                    todo.push(inner)?;
                }
            }
            Term::App(_, args) => push_all(args.as_slice(), &mut todo)?,
        }
    }
    Ok(false)
}
