//! Clauses as they are written, as values.

ghost use Rattle.std.specs.Prelude.{◌≡◌, ◌++◌, map, IfOk, OnOk};
ghost use Rattle.std.specs.List.{AllByRecursion};
ghost use Rattle.sc_term.specs.Symbol.{IsSignature};
ghost use Rattle.sc_input_rules.specs.Numbering.{symbols_of, clause_of};
ghost use Rattle.sc_input_values.specs.Names.{HasFewVariables};

use crate::symbols::add_clauses;
use crate::terms::literal_from;
use crate::variables::variables_of;
use sc_input_rules::WrittenLiteral;
use sc_term::{Clause, List, Mem, Signature};
use std::alloc::Global;

/// The clause that is written. Its variables are numbered by first occurrence.
fn clause_from(alloc: Global, sig: &Signature, written: &[WrittenLiteral]) -> Mem<Clause>
    requires { HasFewVariables written.now }
    ensures { IfOk result (λ clause. clause ≡ clause_of sig.now written.now) }
{
    let variables = variables_of(alloc, written)?;
    let mut literals = List::new(alloc);
    for literal in written {
        literals.push(literal_from(alloc, &variables, sig, literal)?)?;
    }
    Ok(Clause { literals })
}

/// The clauses that are written join those that are there.
pub fn push_clauses(
    alloc: Global,
    sig: &Signature,
    written: &[List<WrittenLiteral>],
    clauses: &mut List<Clause>,
) -> Mem<()>
    requires { AllByRecursion HasFewVariables written.now }
    ensures { OnOk result (clauses.new ≡ clauses.old ++ map (clause_of sig.now) written.now) }
{
    for clause in written {
        clauses.push(clause_from(alloc, sig, clause.as_slice())?)?;
    }
    Ok(())
}

/// The symbols of the clauses, numbered by first occurrence, and the clauses over them.
pub fn number_clauses(
    alloc: Global,
    written: &[List<WrittenLiteral>],
) -> Mem<(Signature, List<Clause>)>
    requires symbols { IsSignature (symbols_of written.now) }
    requires variables { AllByRecursion HasFewVariables written.now }
    ensures signature { IfOk result (λ r. r.0 ≡ symbols_of written.now) }
    ensures clauses { IfOk result (λ r. r.1 ≡ map (clause_of (symbols_of written.now)) written.now) }
{
    let mut sig = Signature::new(alloc)?;
    add_clauses(alloc, &mut sig, written)?;
    let mut clauses = List::new(alloc);
    push_clauses(alloc, &sig, written, &mut clauses)?;
    Ok((sig, clauses))
}
