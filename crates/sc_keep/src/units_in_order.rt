//! The live clauses of one literal, in the order of their numbers.

ghost use Rattle.std.specs.Prelude.{◌≢◌, ◌++◌, List, AllPairs, IfOk, OnOk};
ghost use Rattle.sc_term.specs.declared.Numbered.{Numbered as ANumbered};
ghost use Rattle.sc_core_rules.specs.Order.{IsFilter};
ghost use Rattle.sc_resolve.specs.ByNumber.{seen};
ghost use Rattle.sc_keep.specs.LiveUnits.{HasOneLiteral, IsNoted, AreUnitsInOrder};

use crate::live::Live;
use sc_term::{Mem, Numbered};
use std::alloc::Global;

/// Adds the clause, where it has one literal.
fn note_unit<'a>(p: &'a Numbered, units: &mut Vec<&'a Numbered>) -> Mem<()>
    ensures { OnOk result (IsNoted p.now (seen units.old.items) (seen units.new.items)) }
{
    if p.clause.literals.len() != 1 {
        return Ok(());
    }
    units.push(p)?;
    Ok(())
}

/// Adds the clauses of one literal, in their order.
fn note_units<'a>(clauses: &'a [Numbered], units: &mut Vec<&'a Numbered>) -> Mem<()>
    ensures { OnOk result ((tried : List ANumbered) → IsFilter HasOneLiteral tried (seen units.old.items) → IsFilter HasOneLiteral (tried ++ clauses.now) (seen units.new.items)) }
{
    for p in clauses {
        note_unit(p, units)?;
    }
    Ok(())
}

/// The live clauses of one literal, in rising order of their numbers, which have to differ.
pub fn units_in_order<'a>(alloc: Global, live: Live<'a>) -> Mem<Vec<&'a Numbered>>
    requires { AllPairs (λ p q. p.number ≢ q.number) (live.usable.now ++ live.sos.now ++ live.passive.now) }
    ensures { IfOk result (λ units. AreUnitsInOrder (live.entry.usable.now ++ live.entry.sos.now ++ live.entry.passive.now) (seen units.items)) }
{
    let mut units = Vec::new(alloc);
    note_units(live.usable, &mut units)?;
    note_units(live.sos, &mut units)?;
    note_units(live.passive, &mut units)?;
    units.sort_by_key(|unit| unit.number)?;
    Ok(units)
}
