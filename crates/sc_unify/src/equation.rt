//! Equations between terms, and what one asks for.

ghost use Rattle.std.specs.Prelude.{◌≡◌, ◌++◌, length, OnOk};
ghost use Rattle.sc_unify.specs.Equations.{equations, equated, Asks};

use crate::bound::Bound;
use sc_term::{Mem, Term};

/// Two terms that are to become equal.
#[derive(Clone, Copy)]
pub struct Equation<'a> {
    pub left: &'a Term,
    pub right: &'a Term,
}

/// What it takes for two terms to become equal.
pub enum Demand<'a> {
    /// Nothing: they are one variable.
    Nothing,
    /// No substitution makes them equal.
    Clash,
    /// The variable, which is one of them, and the other term become equal.
    Binding(Bound<'a>),
    /// The arguments become equal, place by place.
    Arguments(&'a [Term], &'a [Term]),
}

/// What it takes for the two to become equal, by their first symbols.
pub fn compare<'a>(left: &'a Term, right: &'a Term) -> Demand<'a>
    ensures { Asks left.now right.now result }
{
    match (left, right) {
        (Term::Var(m), Term::Var(n)) => {
            if m == n {
                Demand::Nothing
            } else {
                Demand::Binding(Bound {
                    variable: *m,
                    term: right,
                })
            }
        }
        (Term::Var(m), Term::App(_, _)) => Demand::Binding(Bound {
            variable: *m,
            term: right,
        }),
        (Term::App(_, _), Term::Var(n)) => Demand::Binding(Bound {
            variable: *n,
            term: left,
        }),
        (Term::App(f, xs), Term::App(g, ys)) => {
            if f != g || xs.len() != ys.len() {
                Demand::Clash
            } else {
                Demand::Arguments(xs.as_slice(), ys.as_slice())
            }
        }
    }
}

/// Adds an equation for each place of the two lists.
pub fn equate<'a>(left: &'a [Term], right: &'a [Term], todo: &mut Vec<Equation<'a>>) -> Mem<()>
    requires { length left.now ≡ length right.now }
    ensures { OnOk result (equations todo.new.items ≡ equations todo.old.items ++ equated left.now right.now) }
{
    for i in 0..left.len() {
        todo.push(Equation {
            left: &left[i],
            right: &right[i],
        })?;
    }
    Ok(())
}
