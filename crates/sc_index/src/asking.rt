//! The question that is put to the tree, and its answer.

ghost use Rattle.std.specs.Prelude.{◌≡◌, IfOk};
ghost use Rattle.std.specs.List.Sorted.{IsStrictlyIncreasing};
ghost use Rattle.sc_index.specs.Entries.{AreNumbers, IsIndexed, IsWanted, present, stored_take, asked_take};

use crate::crossing::Sides;
use crate::entries::{Entry, Wanted, numbers_of};
use crate::flat::flatten;
use crate::tree::Node;
use crate::walking::walk;
use sc_term::{List, Literal, Mem};
use std::alloc::Global;

/// The sides whose variables take terms.
fn sides_of(wanted: Wanted) -> Sides
    ensures stored { result.stored ≡ stored_take wanted }
    ensures asked { result.asked ≡ asked_take wanted }
{
    match wanted {
        Wanted::General => Sides {
            stored: true,
            asked: false,
        },
        Wanted::Instances => Sides {
            stored: false,
            asked: true,
        },
    }
}

/// The numbers, rising and once each, of the entries that are asked for.
pub fn ask(
    alloc: Global,
    nodes: &[Node],
    slots: &[Option<Entry>],
    wanted: Wanted,
    lit: &Literal,
) -> Mem<List<u32>>
    requires { IsIndexed nodes.now slots.now }
    ensures rising { IfOk result (λ numbers. IsStrictlyIncreasing numbers) }
    ensures exact { IfOk result (λ numbers. AreNumbers (IsWanted wanted lit.now) (present slots.now) numbers) }
{
    let cells = flatten(alloc, lit)?;
    let found = walk(alloc, nodes, sides_of(wanted), cells.as_slice())?;
    let mut numbers = numbers_of(alloc, wanted, slots, found.as_slice(), lit)?;
    numbers.sort_unstable();
    numbers.dedup();
    Ok(List::from_vec(numbers))
}
