//! The prover: turns of the given-clause loop, under the best of the versions that it has seen.
//!
//! `Prover::new` makes the start of a problem's run, `add` shows it one more version of a finder and `receive` gives it
//! one, `turn` makes one turn, `ended` and `outcome` say whether and how the run has ended, and `proof` puts the proof of
//! a run that ended with one together. `guide_name` and `guide` tell the guide of what is seen, and `into_seen` gives what
//! is seen away. It stands on sc_keep's `Book`, which processes conclusions, on sc_core_sites for the sites and their
//! conclusions, on sc_guide for what is seen and the guide, on sc_mark for the marks of the clauses of sos in the guide,
//! on sc_sos for the look-ups by which a clause is chosen, and on sc_core_laws for the law that no clause waits without
//! end.
//!
//! Callers may rest on this: the contract of `turn` is the definition of a turn (`Turns` of sc_core_rules), with the
//! versions that the prover has seen. `add` and `receive` may come at any time and change what is seen alone. The run of a
//! prover that is whole is that over the looks that its rows tell (`IsReached`): what is proved of all runs is proved of
//! each that it makes, as that clauses leave sos in time (`leaves_in_time`). Want of memory is the one other answer; after
//! a turn that answered it the prover isn't whole, and nothing is known of its run.
//!
//! Marks are taken when they are needed: where a version is seen and the turn doesn't choose by age, the clauses of sos
//! that aren't marked in the guide are. They last until the clause is given or the guide changes; a clause that leaves sos
//! otherwise keeps its mark. While no version is seen none is taken.
//!
//! The clauses that a site names are copied out of the book by their numbers, each once, so that one which was usable when
//! the turn began serves still after it was deleted; what is concluded over them is concluded over the usable ones.
#![tactic(auto)]

mod choosing;
mod end;
mod finish;
mod item;
mod parents;
mod prover;
mod selecting;
mod turning;
mod working;

pub use end::TurnEnd;
pub use prover::Prover;
