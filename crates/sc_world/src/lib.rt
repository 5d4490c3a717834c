//! Whole runs of the prover, and their records.
//!
//! `prove_alone` makes the run of a problem with one model finder that works between the turns: the prover (`sc_core`)
//! turns until the run has ended, which is at the latest when as many clauses were given as may be; after each turn after
//! which the run went on, the finder (`sc_worker`) works its next candidate, if it has one and isn't too wide, and a
//! version that it publishes is seen from the next turn on. The rows of the run become a value that `print_run` writes.
//! `specs/Recorded` says when such a value tells a run of the given-clause machine (`Tells`), and when it is the record of a
//! problem's run with such a finder (`IsRecord`): the rows are those of a run over the looks that they tell; the printed
//! list is the finder's over as many candidates as were worked; where the run ended with a proof, the lines are put
//! together for the empty clause, they are a proof and refute the input clauses, and the marks are those of the lines in
//! the guide at the end; and every clause leaves the set of support in time.
//!
//! `prove_with_finders` makes the run beside 1 to 8 finders, each on a thread of its own with a shelf (`sc_shelf`): before
//! each turn the prover looks at every shelf once, and adds what is new to what it sees; when its run has ended it sets a
//! word by which the finders, who work their first candidates in any case, stop; and when all have ended each shelf is
//! closed and looked at once more. The record (`specs/Beside`) tells a run over the looks at the printed lists, which are
//! all that was published, with the marks in the guide of these. `specs/Abreast` says what is kept from turn to turn,
//! `specs/Acting` what a finder's thread does. A press is no `Drop`, so `prove_with_finders` ends all on its one way out.
//!
//! `World` is the machine of three kinds of event without threads: a finder publishes a version, the prover looks at a
//! finder's list, and it makes a turn. Each call is the event of its name (`specs/Events`), or changes nothing that a
//! refused one may not, and `keeps` tells what holds after any calls (`specs/Kept`): each seen list begins its finder's
//! published list; while the prover is whole, its run is the one over a look for each turn that was made; each given row
//! has the mark of its clause in the version that it names, which was published or is the opening one; every clause leaves
//! the set of support in time; and a proof refutes the problem's clauses. `events_are_one` and `events_keep` are laws of the
//! machine itself: so many finders and a list of events lead to one state, and the same holds of it. `text_is_of_events` is
//! the law that every text which tells a run tells events by which the machine comes to that run (`specs/EventsTold`).
//! `proofs/WorldExample` has a worked case.
//!
//! It stands on the prover, on the chooser of candidates, on the marks of any clause (`sc_interp`), on the laws of
//! `sc_core_laws`, and on the value of a run (`sc_text_run_rules`). `specs/Underway` says what is kept from turn to turn.
//! Callers may rest on the record alone: where no search for a model is spent, a problem and a plan have one
//! (`proofs/OneInline`), and a text is decided by the versions that it lists and by how many of them each turn saw
//! (`text_is_one`). Want of memory is the one other answer; a proof of 2^32 lines or more counts as that.
#![tactic(auto)]

ghost use Rattle.sc_world.specs.EventsTold.{TextIsOfEvents};
ghost use Rattle.sc_world.specs.OneText.{TextIsOne};

mod actors;
mod beside;
mod closing;
mod copies;
mod lines;
mod opening;
mod printed;
mod record;
mod running;
mod side;
mod turns;
mod world;

pub use beside::{Beside, prove_with_finders};
pub use record::{Ended, prove_alone};
pub use world::{World, events_are_one, events_keep};

/// The law that two texts which tell runs over the same versions, with the same lengths in their given rows, are equal but
/// for the ends of the finders.
pub fn text_is_one()
    ensures { TextIsOne }
{}

/// The law that every text which tells a run tells events by which the machine comes to that run (`TextIsOfEvents`).
pub fn text_is_of_events()
    ensures { TextIsOfEvents }
{}
