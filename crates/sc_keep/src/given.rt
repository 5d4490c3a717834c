//! The given clause goes from sos to usable.

ghost use Rattle.std.specs.Prelude.{◌≡◌, ◌≢◌, ◌<◌, OnOk, IfSome, IfNone, Contains, length, Some, slice_get};
ghost use Rattle.sc_term.specs.declared.Numbered.{Numbered as ANumbered};
ghost use Rattle.sc_core_rules.specs.Turn.{with_given};
ghost use Rattle.sc_keep.specs.Lists.{book_of};

use crate::lists::Lists;
use crate::sweep::leave_out;
use sc_term::{Mem, Numbered};

/// The place of the first clause of that number.
fn place_of(ps: &[Numbered], n: u32) -> Option<usize>
    ensures found { IfSome result (λ at. (at < length ps.now) × ((p : ANumbered) × (slice_get ps.now at ≡ Some p) × (p.number ≡ n))) }
    ensures none { IfNone result ((p : ANumbered) → Contains ps.now p → p.number ≢ n) }
{
    for at in 0..ps.len() {
        if ps[at].number == n {
            return Some(at);
        }
    }
    None
}

/// The clause of that number, which has to be in sos, goes to the end of usable (`with_given`).
pub fn give(lists: &mut Lists, n: u32) -> Mem<()>
    requires { (p : ANumbered) × Contains lists.old.sos p × (p.number ≡ n) }
    ensures { OnOk result ((p : ANumbered) × Contains lists.old.sos p × (p.number ≡ n) × (book_of lists.new ≡ with_given (book_of lists.old) p)) }
{
    match place_of(lists.sos.as_slice(), n) {
        Some(at) => {
            let given = lists.sos.remove(at);
            lists.usable.push(given)?;
            leave_out(&mut lists.sos, &[n]);
            Ok(())
        }
        // There is one.
        None => Ok(()),
    }
}
