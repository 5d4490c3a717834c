//! The search for terms that take each literal of one list to a literal of another.

ghost use Rattle.std.specs.Prelude.{◌≡◌, ◌∷◌, [], ◌↔◌, ◌<◌, ◌≤◌, ◌+◌, IfOk, IsTrue};
ghost use Rattle.sc_subsume.specs.Search.{GoesInto, literals};

use crate::bound::Bound;
use crate::matching::next_place;
use crate::order::Asked;
use sc_term::{List, Literal, Mem};
use std::alloc::Global;

/// Where the search can go back to: what was chosen for a literal.
#[derive(Clone, Copy)]
pub struct Branch {
    /// The place that it was taken to, or the last of all where no other can lead further.
    pub place: usize,
    /// How many bindings there were before.
    pub bound: usize,
}

/// The place after which another is still to be tried. A literal that binds nothing leaves the literals after it where
/// they are, wherever it goes, so no other place is tried for it.
fn last_tried(place: usize, places: usize, before: usize, now: usize) -> usize
    requires { place < places }
    ensures taken { before < now → result ≡ place }
    ensures last { now ≤ before → result + 1 ≡ places }
{
    if before < now { place } else { places - 1 }
}

/// Whether some terms take the literal to one of `d`.
pub fn one_goes_into(alloc: Global, l: &Literal, d: &[Literal]) -> Mem<bool>
    ensures { IfOk result (λ can. IsTrue can ↔ GoesInto (l.now ∷ []) d.now) }
{
    let mut bound = Vec::new(alloc);
    match next_place(l, d, 0, &mut bound)? {
        Some(_) => Ok(true),
        None => Ok(false),
    }
}

/// Whether some terms take each literal that is asked for to one of `d`, by depth-first search. Exponential in the
/// number of variables at worst, since only a literal that binds one is ever taken elsewhere.
pub fn goes_into(alloc: Global, c: &[Asked], d: &[Literal]) -> Mem<bool>
    ensures { IfOk result (λ can. IsTrue can ↔ GoesInto (literals c.now) d.now) }
{
    let mut bound: Vec<Bound> = Vec::new(alloc);
    let mut choices: List<Branch> = List::new(alloc);
    let mut next = 0;
    while choices.len() < c.len() {
        let before = bound.len();
        match next_place(c[choices.len()].literal, d, next, &mut bound)? {
            Some(place) => {
                choices.push(Branch {
                    place: last_tried(place, d.len(), before, bound.len()),
                    bound: before,
                })?;
                next = 0;
            }
            None => match choices.pop() {
                Some(last) => {
                    bound.truncate(last.bound);
                    next = last.place + 1;
                }
                None => return Ok(false),
            },
        }
    }
    Ok(true)
}
