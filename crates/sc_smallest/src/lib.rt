//! The smallest model of clauses: sizes in order, each searched for its first model.
//!
//! `find_smallest_by` goes through the sizes `from` to `to` and answers what the first of them comes to that has a model
//! or is spent, or that none has a model (`specs/Smallest`). A size of which the cells or the instances are too many ends
//! it with their count, as `Job::new` tells it. So a model that is answered is the first one of the smallest size that has
//! one, and a size that was spent leaves open whether it has a model, but no smaller one has. Each size has the budget for
//! each of its pieces. Who searches is a `Searchers`: `find_smallest_alone` is the thread that asks, which waits for
//! nobody, and `find_smallest` has workers on threads; what they answer has one meaning.
//!
//! It stands on `sc_find` alone, which makes the job of a size and searches it.
#![tactic(auto)]

mod answer;
mod searchers;
mod sizes;

pub use answer::{Smallest, SmallestError};
pub use searchers::{Alone, Searchers, Workers};
pub use sizes::{find_smallest, find_smallest_alone, find_smallest_by};
