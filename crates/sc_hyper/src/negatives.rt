//! The literals of a nucleus that are resolved on.

ghost use Rattle.std.specs.Prelude.{◌≡◌, ◌≤◌, length, IfOk};
ghost use Rattle.sc_hyper.specs.Negatives.{ArePicked, IsNegative, IsOther};

use sc_term::{Clause, List, Literal, Mem, copy_literal};
use std::alloc::Global;

/// Literals of a clause with their numbers, in order.
#[derive(Drop)]
pub struct PickedLiterals {
    pub numbers: List<u32>,
    pub literals: List<Literal>,
}

/// The negative literals of the clause.
pub fn negative_literals(alloc: Global, c: &Clause) -> Mem<PickedLiterals>
    requires { length c.now.literals ≤ 10000 }
    ensures are { IfOk result (λ found. ArePicked IsNegative c.now found.numbers found.literals) }
    ensures few { IfOk result (λ found. length found.literals ≤ length c.now.literals) }
{
    let all = c.literals.as_slice();
    let mut numbers = List::new(alloc);
    let mut literals = List::new(alloc);
    for at in 0..all.len() {
        if !all[at].positive {
            numbers.push(at as u32 + 1)?;
            literals.push(copy_literal(alloc, &all[at])?)?;
        }
    }
    Ok(PickedLiterals { numbers, literals })
}

/// The literals of the clause but this one.
pub fn other_literals(alloc: Global, c: &Clause, target: u32) -> Mem<PickedLiterals>
    requires { length c.now.literals ≤ 10000 }
    ensures are { IfOk result (λ found. ArePicked (IsOther target) c.now found.numbers found.literals) }
    ensures few { IfOk result (λ found. length found.literals ≤ length c.now.literals) }
{
    let all = c.literals.as_slice();
    let mut numbers = List::new(alloc);
    let mut literals = List::new(alloc);
    for at in 0..all.len() {
        let number = at as u32 + 1;
        let l = &all[at];
        if number != target {
            numbers.push(number)?;
            literals.push(copy_literal(alloc, l)?)?;
        }
    }
    Ok(PickedLiterals { numbers, literals })
}
