//! The walk over the paths that may meet a row.

ghost use Rattle.std.specs.Prelude.{◌≡◌, ◌++◌, ◌↔◌, [], drop, slice_get, IfOk, OnOk, IsTrue};
ghost use Rattle.std.specs.Option.{option_copied};
ghost use Rattle.sc_index.specs.Walking.{FindsAll, Follows, TakesUp};

use crate::crossing::{Sides, Spot, cross};
use crate::flat::Cell;
use crate::tree::{Edge, Node};
use sc_term::{List, Mem};
use std::alloc::Global;

/// A node that the walk has come to, and where in the row.
#[derive(Clone, Copy, Debug)]
pub struct Task {
    pub node: usize,
    pub spot: Spot,
}

fn add_slots(slots: &[usize], found: &mut Vec<usize>) -> Mem<()>
    ensures { OnOk result (found.new.items ≡ found.old.items ++ slots.now) }
{
    for slot in slots {
        found.push(*slot)?;
    }
    Ok(())
}

fn node_at(nodes: &[Node], n: usize) -> Option<&Node>
    ensures { option_copied result ≡ slice_get nodes.now n }
{
    nodes.get(n)
}

/// Whether the row ends at the spot.
fn is_end(query: &[Cell], spot: Spot) -> bool
    ensures { IsTrue result ↔ ((spot.pending ≡ 0) × (drop spot.at query.now ≡ [])) }
{
    spot.pending == 0 && spot.at >= query.len()
}

/// Adds what the edges lead to from the spot.
fn follow(
    edges: &[Edge],
    sides: Sides,
    query: &[Cell],
    spot: Spot,
    tasks: &mut List<Task>,
) -> Mem<()>
    ensures { OnOk result (Follows sides.stored sides.asked query.now edges.now spot.pending (drop spot.at query.now) tasks.old tasks.new) }
{
    for edge in edges {
        match cross(sides, edge.key, query, spot) {
            Some(next) => tasks.push(Task {
                node: edge.child,
                spot: next,
            })?,
            None => {}
        }
    }
    Ok(())
}

/// Adds the slots of the task's node where the row ends, and else what its edges lead to.
fn take_up(
    nodes: &[Node],
    sides: Sides,
    query: &[Cell],
    task: Task,
    tasks: &mut List<Task>,
    found: &mut Vec<usize>,
) -> Mem<()>
    ensures { OnOk result (TakesUp sides.stored sides.asked nodes.now query.now task tasks.old tasks.new found.old.items found.new.items) }
{
    let node = match node_at(nodes, task.node) {
        Some(node) => node,
        None => return Ok(()),
    };
    if is_end(query, task.spot) {
        add_slots(node.slots.as_slice(), found)?;
        return Ok(());
    }
    follow(node.edges.as_slice(), sides, query, task.spot, tasks)?;
    Ok(())
}

/// The slots at the ends of all paths from the first node that meet the row. Each node that is come to is a task of one
/// list, so the stack of calls doesn't grow with the row; the list is as long as nodes are entered.
pub fn walk(alloc: Global, nodes: &[Node], sides: Sides, query: &[Cell]) -> Mem<Vec<usize>>
    ensures { IfOk result (λ found. FindsAll sides.stored sides.asked nodes.now query.now found.items) }
{
    let mut found = Vec::new(alloc);
    let mut tasks = List::new(alloc);
    tasks.push(Task {
        node: 0,
        spot: Spot { at: 0, pending: 0 },
    })?;
    let mut next = 0;
    while next < tasks.len() {
        let task = tasks.as_slice()[next];
        take_up(nodes, sides, query, task, &mut tasks, &mut found)?;
        next += 1;
    }
    Ok(found)
}
