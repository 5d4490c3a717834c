//! Subsumption and tautologies.
//!
//! It stands on the terms, literals and instances that sc_term defines and proves laws of, on sc_term's comparisons,
//! and on sc_unify's laws of bindings; specs/Subsumption says what the two calls decide. Callers may rest on these:
//! `subsumes` answers true exactly where the first clause has no more literals than the second and some terms take
//! each of its literals to a literal of the second, and want of memory is its one other answer; `is_tautology` takes no
//! memory.
//!
//! The search takes one literal after another, fewest candidates first, each to the first literal that it can be made
//! under the bindings so far, and goes back to the last choice where there is none; a literal that binds nothing is no
//! choice. The order serves speed alone, so no clause speaks of the counts. Choices and bindings are two stacks, so
//! neither a long clause nor a deep search takes the stack of calls, and bindings are undone by cutting theirs.
#![tactic(auto)]

mod bound;
mod like;
mod matching;
mod order;
mod search;
mod subsumption;
mod tautology;

pub use subsumption::subsumes;
pub use tautology::is_tautology;
