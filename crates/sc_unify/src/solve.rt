//! Solving equations by binding variables.

ghost use Rattle.std.specs.Prelude.{◌≡◌, IfOk, MatchOption};
ghost use Rattle.sc_unify.specs.Bindings.{bindings, AreSolved};
ghost use Rattle.sc_unify.specs.Equations.{equations, ComesTo, IsSolution, HasNoSolution};

use crate::bound::{Bound, walk};
use crate::equation::{Demand, Equation, compare, equate};
use crate::occurs::occurs;
use sc_term::Mem;
use std::alloc::Global;

/// What is met first among equations.
enum Next<'a> {
    /// All of them hold.
    Solved,
    /// No substitution solves them.
    Clash,
    /// A free variable is to become equal to another term.
    Binding(Bound<'a>),
}

/// Takes equations apart until one asks for a binding.
fn advance<'a>(bound: &[Bound<'a>], todo: &mut Vec<Equation<'a>>) -> Mem<Next<'a>>
    requires { AreSolved (bindings bound.now) }
    ensures { IfOk result (λ next. ComesTo (bindings bound.now) (equations todo.old.items) (equations todo.new.items) next) }
{
    while let Some(equation) = todo.pop() {
        let left = walk(bound, equation.left);
        let right = walk(bound, equation.right);
        match compare(left, right) {
            Demand::Nothing => {}
            Demand::Clash => return Ok(Next::Clash),
            Demand::Binding(one) => return Ok(Next::Binding(one)),
            Demand::Arguments(lefts, rights) => equate(lefts, rights, todo)?,
        }
    }
    Ok(Next::Solved)
}

/// The bindings that solve the equations, or None where nothing does.
pub fn solve<'a>(alloc: Global, todo: Vec<Equation<'a>>) -> Mem<Option<Vec<Bound<'a>>>>
    ensures { IfOk result (λ found. MatchOption found (HasNoSolution (equations todo.entry.items)) (λ bs. IsSolution (equations todo.entry.items) (bindings bs.items))) }
{
    let mut todo = todo;
    let mut bound: Vec<Bound<'a>> = Vec::new(alloc);
    loop {
        match advance(bound.as_slice(), &mut todo)? {
            Next::Solved => return Ok(Some(bound)),
            Next::Clash => return Ok(None),
            Next::Binding(one) => {
                if occurs(alloc, bound.as_slice(), one.variable, one.term)? {
                    return Ok(None);
                }
                bound.push(one)?;
            }
        }
    }
}
