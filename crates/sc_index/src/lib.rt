//! An index of literals with the numbers of their clauses: those that may match a literal are found without a look at
//! the others. The search doesn't ask it yet.
//!
//! It stands on the terms, literals and substitutions that sc_term defines and proves laws of, and on sc_unify's
//! matching. `specs/Entries` says what the calls answer. Callers may rest on these: contracts see an `Index` as the list
//! of what was inserted, with its duplicates; `insert` adds one entry, and want of memory leaves the list as it was;
//! `remove` drops each entry that is equal, and takes no memory; `general` and `instances` answer exactly the numbers of
//! the entries of the literal's sign that have it as an instance, or are instances of it, rising and once each, and want
//! of memory is their one other answer.
//!
//! Inside is a discrimination tree: a literal is a row of cells in preorder, in which variables are alike, and a path of
//! the tree. The tree names candidates, which are then matched, so its one invariant is that the row of each entry leads
//! to a node that has its slot. Nodes, edges and slots are added and never taken away: where most slots are empty, an
//! index made anew is smaller and faster. A question is one list of the nodes that it has come to, so the stack of calls
//! grows with the depth of a literal's terms alone, as where it is copied, and not with its weight.
#![tactic(auto)]

mod asking;
mod crossing;
mod entries;
mod flat;
mod index;
mod removal;
mod tree;
mod walking;

pub use entries::Entry;
pub use index::Index;
