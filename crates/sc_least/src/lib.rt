//! The least-number bound: how great a value of the next cell a search for the first model has to try.
//!
//! Where values for the first cells are given, the elements that they use are the indices of these cells and of the next
//! one, and the values of functions. All other elements are alike: whatever model goes on with one of them goes on with
//! any other as well, with the two exchanged everywhere. So of the unused ones that are greater than every used one the
//! first is enough, and it is the bound: 1 more than the greatest used element, 0 where none is used, and no more than the
//! last element. A predicate's values aren't elements, and its bound is 1 (`specs/Bound`).
//!
//! `least_bound` gives that number and takes no memory. What it keeps are laws, over clauses over the signature
//! (`specs/Full`): values that begin a full consistent list begin one whose next value is at most the bound; in the first
//! of these lists no value is above its bound, also where some first values are fixed, as in a piece, for the values after
//! them; and where no value up to the bound goes on to a full list, none does.
//!
//! It stands on `sc_cells` for cells and consistency, and on `sc_input_rules` for what a clause over a signature is.
//! Searches may stand on it: it knows none.
#![tactic(auto)]

mod bound;
mod laws;
mod used;

pub use bound::least_bound;
pub use laws::{begins_within_bound, first_is_within_bound, none_within_bound_means_none};
