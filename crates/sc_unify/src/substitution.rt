//! Substitutions, kept as the bindings that make them.

ghost use Rattle.std.specs.Prelude.{◌≡◌, ◌↔◌, IfOk, IfSome, IsSome};
ghost use Rattle.sc_term.specs.Clause.{IsWithinLimits};
ghost use Rattle.sc_term.specs.Substitution.{clause_under};
ghost use Rattle.sc_unify.specs.Bindings.{bindings, written, finished, AreSolved};
ghost use Rattle.sc_unify.specs.Unifiers.{substitution};

use crate::bound::{Binding, Bound};
use crate::limits::spend_literals;
use crate::write::write_clause;
use sc_term::{Clause, List, MAX_WEIGHT, Mem, copy_term};
use std::alloc::Global;
use std::marker::Model;

/// A finite map from variables to terms; a variable without an entry stands for itself. It takes the memory of its
/// bindings, whose terms are parts of those that were unified, also where the terms of the map are far larger.
#[derive(Drop)]
pub struct Subst {
    entries: List<Binding>,
}

impl Model for Subst {
    ghost use Rattle.std.specs.Prelude.{List as AList};
    ghost use Rattle.std.specs.Coded.{codes};
    ghost use Rattle.sc_term.specs.contracts.Term as e;
    ghost use Rattle.sc_unify.specs.declared.bound.Binding.{Binding};
    ghost use Rattle.sc_unify.specs.Bindings.{written, AreSolved};

    ghost Value = { AList Binding };

    ghost coded = { Prim.hlevel (codes, e.the_row.coded) };

    ghost view = { λ s. written s.entries };

    ghost invariant = { λ s. AreSolved s.entries };
}

fn copy_bindings(alloc: Global, bound: &[Bound]) -> Mem<List<Binding>>
    ensures { IfOk result (λ r. r ≡ bindings bound.now) }
{
    let mut entries = List::new(alloc);
    for one in bound {
        entries.push(Binding {
            variable: one.variable,
            term: copy_term(alloc, one.term)?,
        })?;
    }
    Ok(entries)
}

fn borrow_bindings<'a>(alloc: Global, entries: &'a [Binding]) -> Mem<Vec<Bound<'a>>>
    ensures { IfOk result (λ r. bindings r.items ≡ entries.now) }
{
    let mut bound = Vec::new(alloc);
    for entry in entries {
        bound.push(Bound {
            variable: entry.variable,
            term: &entry.term,
        })?;
    }
    Ok(bound)
}

impl Subst {
    /// The substitution that the bindings make.
    pub fn of(alloc: Global, bound: &[Bound]) -> Mem<Subst>
        requires { AreSolved (bindings bound.now) }
        ensures { IfOk result (λ s. s ≡ written (bindings bound.now)) }
    {
        let entries = copy_bindings(alloc, bound)?;
        Ok(Subst { entries })
    }

    /// The bindings that make the substitution.
    pub fn bindings(&self, alloc: Global) -> Mem<Vec<Bound>>
        ensures solved { IfOk result (λ r. AreSolved (bindings r.items)) }
        ensures same { IfOk result (λ r. finished (bindings r.items) ≡ substitution self.now) }
    {
        let bound = borrow_bindings(alloc, self.entries.as_slice())?;
        Ok(bound)
    }

    /// What the substitution makes of the clause, where that is within the limits.
    pub fn apply_limited(&self, alloc: Global, c: &Clause) -> Mem<Option<Clause>>
        ensures value { IfOk result (λ made. IfSome made (λ d. d ≡ clause_under (substitution self.now) c.now)) }
        ensures limits { IfOk result (λ made. IsSome made ↔ IsWithinLimits (clause_under (substitution self.now) c.now)) }
    {
        let bound = borrow_bindings(alloc, self.entries.as_slice())?;
        match spend_literals(bound.as_slice(), c.literals.as_slice(), MAX_WEIGHT) {
            Some(_) => Ok(Some(write_clause(alloc, bound.as_slice(), c)?)),
            None => Ok(None),
        }
    }
}
