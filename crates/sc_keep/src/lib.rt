//! What becomes of a conclusion: it is simplified, and dropped or kept in the prover's lists.
//!
//! `Book` keeps the lists and the demodulators for a problem: `start` puts the input clauses into them and finds the first
//! that ends the run at once, `process` is the whole of processing, `give` moves a clause of sos to usable, and `proof`
//! puts together the proof of a goal. It stands on the definitions of `sc_core_rules` (`Starts`, `Processes`, `Book`), on
//! sc_subsume's tests, on sc_unify's joint instances and on sc_demod's rewriting.
//!
//! Callers may rest on this: each call answers exactly what the definition in its contract says, and want of memory is its
//! one other answer; a derivation whose lines and literals together are 2^32 - 4 or more counts as that. `Book::keeps` tells
//! what stays so from call to call while the book is whole (`IsState`, `AreReady`). After want of memory it isn't whole,
//! and nothing is known of its clauses. A demodulator stays one when its clause is deleted. Clauses are scanned where they
//! stand, each at most once a scan, and at the start in pairs.
#![tactic(auto)]

mod adding;
mod book;
mod canonical;
mod copies;
mod deleting;
mod dropping;
mod fate;
mod forward;
mod given;
mod keeping;
mod lists;
mod live;
mod merge;
mod parts;
mod rival;
mod simplify;
mod start;
mod sweep;
mod units;
mod units_in_order;

pub use book::Book;
