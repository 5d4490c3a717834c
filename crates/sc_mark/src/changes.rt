//! Which symbols have other entries in one list of tables than in another, and which clauses read one of them.

ghost use Rattle.std.specs.Prelude.{◌≡◌, IfOk, map};
ghost use Rattle.std.specs.List.{list_any};
ghost use Rattle.sc_mark.specs.Changes as spec;
ghost use Rattle.sc_mark.specs.Changes.{AreChanges};

use sc_interp::Table;
use sc_term::{Clause, Literal, Mem, SymId, Term};
use std::alloc::Global;

/// For each symbol, `=` first, whether an entry of it differs.
pub fn changes(alloc: Global, old: &[Table], new: &[Table]) -> Mem<Vec<bool>>
    ensures { IfOk result (λ changes. AreChanges old.now new.now changes.items) }
{
    let mut changes = Vec::new(alloc);
    changes.push(false)?;
    for at in 0..old.len().min(new.len()) {
        let same = old[at].entries.as_slice() == new[at].entries.as_slice();
        changes.push(!same)?;
    }
    Ok(changes)
}

/// Whether an entry of the symbol may differ.
fn is_changed(changes: &[bool], symbol: SymId) -> bool
    ensures { result ≡ spec.is_changed changes.now symbol.0 }
{
    let place = symbol.0 as usize;
    if place < changes.len() {
        changes[place]
    } else {
        true
    }
}

/// Whether an entry of a symbol of the term may differ.
#[cycle(reading)]
fn term_changed(changes: &[bool], term: &Term) -> bool
    ensures { result ≡ spec.term_changed changes.now term.now }
{
    match term {
        Term::Var(_) => false,
        Term::App(f, args) => is_changed(changes, *f) || terms_changed(changes, args.as_slice()),
    }
}

#[cycle(reading)]
fn terms_changed(changes: &[bool], terms: &[Term]) -> bool
    ensures { result ≡ list_any (λ b. b) (map (spec.term_changed changes.now) terms.now) }
{
    for term in terms {
        if term_changed(changes, term) {
            return true;
        }
    }
    false
}

fn literal_changed(changes: &[bool], literal: &Literal) -> bool
    ensures { result ≡ spec.literal_changed changes.now literal.now }
{
    is_changed(changes, literal.pred) || terms_changed(changes, literal.args.as_slice())
}

/// Whether an entry of a symbol of the clause may differ.
pub fn clause_changed(changes: &[bool], c: &Clause) -> bool
    ensures { result ≡ spec.clause_changed changes.now c.now }
{
    for literal in c.literals.as_slice() {
        if literal_changed(changes, literal) {
            return true;
        }
    }
    false
}
