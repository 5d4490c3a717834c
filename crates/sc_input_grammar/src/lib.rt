//! Readers of the productions of a problem, from tokens: sides, clauses and items. Each answers exactly what the
//! definition of its name in `sc_input_rules` gives: a value and the tokens behind it, or with how many tokens left it
//! fails, and why (`Stop`). Want of memory alone is free.
//!
//! A value from 10,000,000,000 on, of either sign, is answered as that number (`specs/Items.antt`). A value of at most
//! ten digits is exact, and flags and clauses that items state are the same (`proofs/Clipping.antt`).
//!
//! It stands on the readers of one token in `sc_input_scan`. Time is linear in the tokens read. The readers recur as deep as
//! the parentheses of a side nest: callers hand on tokens whose nesting they have bounded.
#![tactic(auto)]

mod clause;
mod item;
mod literal;
mod number;
mod side;
mod words;

pub use clause::read_clause;
pub use item::{Ending, Item, Name, read_items, read_problem};
pub use side::read_side;
