//! The mark of a clause in tables.

ghost use Rattle.std.specs.Prelude.{◌≡◌, ◌≤◌, ◌<◌, ◌^◌, ◌↔◌, min, IsTrue, IfOk};
ghost use Rattle.sc_term.specs.Clause.{IsCanonical, width};
ghost use Rattle.sc_interp.specs.Marks.{IsMark};

use crate::plain::Truth;
use crate::satisfied::is_satisfied;
use crate::tables::Tables;
use sc_term::{Clause, MAX_ASSIGNMENTS, Mem, full_width};
use std::alloc::Global;
use std::marker::Model;

/// A register of elements, one for each of so many variables. Contracts see how many.
#[derive(Debug, Drop)]
pub struct Assign {
    values: Vec<u8>,
}

impl Model for Assign {
    ghost use Rattle.std.specs.Prelude.{ℕ, length};

    ghost Value = { ℕ };

    ghost view = { λ a. length a.values.items };
}

impl Assign {
    /// A register for so many variables.
    pub fn new(alloc: Global, width: u32) -> Mem<Assign>
        ensures { IfOk result (λ a. a ≡ width) }
    {
        let values = vec![in alloc; 0u8; width as usize]?;
        Ok(Assign { values })
    }
}

/// The number of assignments to so many variables, or one above the most that are tried where it is greater.
fn count_assignments(size: u8, width: u64) -> u32
    requires { 1 ≤ size }
    ensures { result ≡ min (size ^ width) 4097 }
{
    let mut count: u32 = 1;
    for _variable in 0..width {
        count = (count * u32::from(size)).min(MAX_ASSIGNMENTS + 1);
    }
    count
}

/// Whether so many variables have more assignments than are tried.
fn is_wide(size: u8, width: u64) -> bool
    requires { 1 ≤ size }
    ensures { IsTrue result ↔ (4096 < size ^ width) }
{
    count_assignments(size, width) > MAX_ASSIGNMENTS
}

/// The mark of a canonical clause: `Wide` exactly where it has more than 4,096 assignments, otherwise whether all of
/// them make some literal true. The register has to be as wide as the clause, or wider. Nothing is allocated.
pub fn truth(t: &Tables, c: &Clause, a: &mut Assign) -> Truth
    requires canonical { IsCanonical c.now }
    requires wide { width c.now ≤ a.old }
    ensures mark { IsMark t.now c.now result }
    ensures register { a.new ≡ a.old }
{
    let size = t.size();
    let width = full_width(c);
    if is_wide(size, width) {
        return Truth::Wide;
    }
    if is_satisfied(size, t.tables(), c, a.values.as_mut_slice()) {
        Truth::True
    } else {
        Truth::False
    }
}
