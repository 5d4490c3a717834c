//! What becomes a demodulator.

ghost use Rattle.std.specs.Prelude.{◌<◌, ◌^◌, ◌↔◌, IsTrue};
ghost use Rattle.sc_term.specs.Clause as of;
ghost use Rattle.sc_term.specs.Term as spec;
ghost use Rattle.sc_term.specs.declared.Term.{Term as ATerm};
ghost use Rattle.sc_core_rules.specs.Rewriting.{BecomesDemodulator};
ghost use Rattle.sc_demod.specs.Becoming.{AreDecreasing};

use crate::count::each_no_more;
use crate::equation::{is_compound, sides};
use sc_term::{Clause, Term, term_weight};

/// Whether the left side is no variable and weighs more than the right, and no variable occurs more often on the right.
fn are_decreasing(left: &Term, right: &Term) -> bool
    requires right { spec.term_weight right.now < 2 ^ 32 }
    requires left { spec.term_weight left.now < 2 ^ 32 }
    ensures { IsTrue result ↔ AreDecreasing left.now right.now }
{
    if !is_compound(left) {
        return false;
    }
    if term_weight(left) <= term_weight(right) {
        return false;
    }
    each_no_more(right, right, left)
}

/// Whether the clause is a positive unit equation whose left side is no variable and weighs more than its right, and no
/// variable occurs more often on the right (`BecomesDemodulator`). Takes time quadratic in its weight at worst.
pub fn becomes_demod(c: &Clause) -> bool
    requires { of.weight c.now < 2 ^ 32 }
    ensures { IsTrue result ↔ BecomesDemodulator c.now }
{
    match sides(c) {
        Some((left, right)) => are_decreasing(left, right),
        None => false,
    }
}
