//! The symbols of names.

ghost use Rattle.std.specs.Prelude.{◌≡◌, ◌≤◌, [], ◌∷◌, IfOk, OnOk, flat_map};
ghost use Rattle.sc_term.specs.Symbol.{IsSignature, same_symbol};
ghost use Rattle.sc_input_rules.specs.Numbering as spec;
ghost use Rattle.sc_input_values.specs.Names.{symbol_at, argument_symbols, literal_symbols, clause_symbols, MayJoin};
ghost use Rattle.sc_input_values.specs.Once.{with_each};

use crate::variables::is_variable;
use sc_input_rules::{Occurrence, WrittenLiteral};
use sc_term::{List, Mem, OutOfMemory, Role, SigError, Signature, SymId};
use std::alloc::Global;

/// What every signature keeps.
fn keeps(sig: &Signature)
    ensures { IsSignature sig.now }
{
    let _ = sig.len();
}

/// The number of the name's symbol, 0 where the signature doesn't have it.
pub fn symbol_number(sig: &Signature, role: Role, occurrence: &Occurrence) -> SymId
    ensures { result ≡ spec.symbol_number sig.now (symbol_at role occurrence.now) }
{
    keeps(sig);
    if occurrence.arity > 8 {
        return SymId(0);
    }
    match sig.number_of(occurrence.name.as_slice(), occurrence.arity as u8, role) {
        Some(id) => id,
        None => SymId(0),
    }
}

fn add_symbol(alloc: Global, sig: &mut Signature, role: Role, occurrence: &Occurrence) -> Mem<()>
    requires { MayJoin sig.old (symbol_at role occurrence.now ∷ []) }
    ensures { OnOk result (sig.new ≡ with_each same_symbol sig.old (symbol_at role occurrence.now ∷ [])) }
{
    let name = occurrence.name.as_slice();
    match sig.add_named(alloc, name, occurrence.arity as u8, role) {
        Ok(_) => Ok(()),
        Err(SigError::OutOfMemory) => Err(OutOfMemory),
        Err(SigError::TooMany) => unreachable!(),
    }
}

fn add_arguments(alloc: Global, sig: &mut Signature, occurrences: &[Occurrence]) -> Mem<()>
    requires { MayJoin sig.old (argument_symbols occurrences.now) }
    ensures { OnOk result (sig.new ≡ with_each same_symbol sig.old (argument_symbols occurrences.now)) }
{
    for occurrence in occurrences {
        if !is_variable(occurrence) {
            add_symbol(alloc, sig, Role::Function, occurrence)?;
        }
    }
    Ok(())
}

fn add_literal(alloc: Global, sig: &mut Signature, literal: &WrittenLiteral) -> Mem<()>
    requires { MayJoin sig.old (literal_symbols literal.now) }
    ensures { OnOk result (sig.new ≡ with_each same_symbol sig.old (literal_symbols literal.now)) }
{
    add_symbol(alloc, sig, Role::Predicate, &literal.predicate)?;
    add_arguments(alloc, sig, literal.arguments.as_slice())
}

fn add_clause(alloc: Global, sig: &mut Signature, clause: &[WrittenLiteral]) -> Mem<()>
    requires { MayJoin sig.old (clause_symbols clause.now) }
    ensures { OnOk result (sig.new ≡ with_each same_symbol sig.old (clause_symbols clause.now)) }
{
    for literal in clause {
        add_literal(alloc, sig, literal)?;
    }
    Ok(())
}

/// The symbols of the clauses join the signature in the order of the text, each that isn't there.
pub fn add_clauses(alloc: Global, sig: &mut Signature, clauses: &[List<WrittenLiteral>]) -> Mem<()>
    requires { MayJoin sig.old (flat_map clause_symbols clauses.now) }
    ensures { OnOk result (sig.new ≡ with_each same_symbol sig.old (flat_map clause_symbols clauses.now)) }
{
    for clause in clauses {
        add_clause(alloc, sig, clause.as_slice())?;
    }
    Ok(())
}
