//! The nodes of a tree whose paths are rows of keys. Nodes and edges are added and never taken away.

ghost use Rattle.std.specs.Prelude.{◌≡◌, ◌<◌, ◌≤◌, map, length, Contains, IfOk, IfSome, OnOk, []};
ghost use Rattle.sc_index.specs.Nodes.{HasEdge, Grows, Reaches, Holds, keys_of};

use crate::flat::{Cell, Key};
use sc_term::{List, Mem};
use std::alloc::Global;

/// A key, and the node that it leads to.
#[derive(Clone, Copy, Debug)]
pub struct Edge {
    pub key: Key,
    pub child: usize,
}

/// The edges that leave a node, and the slots of the literals whose rows end there.
#[derive(Drop)]
pub struct Node {
    pub edges: List<Edge>,
    pub slots: List<usize>,
}

/// Where the key leads to.
fn child(edges: &[Edge], key: Key) -> Option<usize>
    ensures { IfSome result (λ child. Contains edges.now (record { key = key; child = child })) }
{
    for edge in edges {
        if edge.key == key {
            return Some(edge.child);
        }
    }
    None
}

/// A node with nothing.
pub fn empty_node(alloc: Global) -> Node
    ensures edges { result.edges ≡ [] }
    ensures slots { result.slots ≡ [] }
{
    Node {
        edges: List::new(alloc),
        slots: List::new(alloc),
    }
}

/// One more node, which has nothing. Its place.
fn add_node(alloc: Global, nodes: &mut Vec<Node>) -> Mem<usize>
    ensures grows { Grows nodes.old.items nodes.new.items }
    ensures within { IfOk result (λ m. m < length nodes.new.items) }
{
    let m = nodes.len();
    nodes.push(empty_node(alloc))?;
    Ok(m)
}

fn add_edge(nodes: &mut Vec<Node>, n: usize, key: Key, child: usize) -> Mem<()>
    requires { n < length nodes.old.items }
    ensures grows { Grows nodes.old.items nodes.new.items }
    ensures edge { OnOk result (HasEdge nodes.new.items n key child) }
{
    nodes[n].edges.push(Edge { key, child })?;
    Ok(())
}

/// Where the key leads to from the node.
fn existing(nodes: &[Node], n: usize, key: Key) -> Option<usize>
    requires { n < length nodes.now }
    ensures edge { IfSome result (λ m. HasEdge nodes.now n key m) }
    ensures within { IfSome result (λ m. m < length nodes.now) }
{
    match child(nodes[n].edges.as_slice(), key) {
        Some(m) => { if m < nodes.len() { Some(m) } else { None } }
        None => None,
    }
}

/// The node that the key leads to, which is made where there is none.
fn step_into(alloc: Global, nodes: &mut Vec<Node>, n: usize, key: Key) -> Mem<usize>
    requires { n < length nodes.old.items }
    ensures grows { Grows nodes.old.items nodes.new.items }
    ensures edge { IfOk result (λ m. HasEdge nodes.new.items n key m) }
    ensures within { IfOk result (λ m. m < length nodes.new.items) }
{
    match existing(nodes.as_slice(), n, key) {
        Some(m) => Ok(m),
        None => {
            let m = add_node(alloc, nodes)?;
            add_edge(nodes, n, key, m)?;
            Ok(m)
        }
    }
}

/// The node at the end of the row from the first node on, made where there is none.
pub fn make_path(alloc: Global, nodes: &mut Vec<Node>, cells: &[Cell]) -> Mem<usize>
    requires { 0 < length nodes.old.items }
    ensures grows { Grows nodes.old.items nodes.new.items }
    ensures path { IfOk result (λ m. Reaches nodes.new.items 0 (keys_of cells.now) m) }
    ensures within { IfOk result (λ m. m < length nodes.new.items) }
{
    let mut n = 0;
    for cell in cells {
        n = step_into(alloc, nodes, n, cell.key)?;
    }
    Ok(n)
}

/// The node holds the slot from now on.
pub fn hold(nodes: &mut Vec<Node>, n: usize, slot: usize) -> Mem<()>
    requires { n < length nodes.old.items }
    ensures grows { Grows nodes.old.items nodes.new.items }
    ensures held { OnOk result (Holds nodes.new.items n slot) }
{
    nodes[n].slots.push(slot)?;
    Ok(())
}
