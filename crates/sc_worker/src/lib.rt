//! A model finder: which input clauses it tries to make true at once, and what it publishes.
//!
//! A finder works candidates one after another: the first input clauses that weigh at most 100. Where the claims so far
//! have a model together with the candidate, it joins them, and the version of the first model is what is published. A
//! candidate is skipped where there is no such model, where the search for one was given up, or where there are too many
//! ground instances. `Chooser::next` works the next one. `specs/FinderList` says which lists a finder may publish.
//!
//! It stands on the search for first models (`sc_find`) and on versions (`sc_interp`). Callers may rest on this: `next` is
//! the definition of a finder's answers, candidate by candidate (`IsWorked`); what it tells joined is a version over the
//! problem's symbols. Where memory is wanting the chooser stays as it was. Its memory is that of the claims and of the
//! tables of the last version: where these make the candidate true, they are those of the first model with it too
//! (`proofs/PresentLaws`), and no search is made. For every other candidate a job is made anew, with copies of the claims'
//! clauses.
//!
//! A `Finder` works the candidates of a chooser and publishes the versions on a shelf, on a thread of its own. `work` ends
//! where none is left, where it is asked to stop, where there are too many cells, or where memory is wanting; on each end
//! the shelf is open and has exactly the versions of the candidates worked, of which the end tells how many (`IsFound`). It
//! asks its `Halt` before each candidate but the first, so that the first is always worked; `Stop` asks an atomic word. It
//! passes its `Gate` before the first candidate and after each. `close` closes the shelf, and its window then sees all.
//! `specs/Underway` says what holds between two candidates, `proofs/WorkingLaws` how one more keeps it, and
//! `proofs/Crossing` that a finder may go to another thread.
//!
//! `proofs/FinderLaws` has what follows of answers: those of one candidate more, as many as candidates, and that each
//! version is over the problem's symbols, with input clauses as its claims (`IsPublished`). `proofs/DecidedLaws` has that
//! they are decided where no search is spent, `proofs/ChooserLaws` that a chooser goes through the work of its finder
//! (`IsAlong`).
#![tactic(auto)]

mod choosing;
mod copies;
mod finder;
mod gate;
mod halt;
mod light;
mod plan;
mod present;
mod trying;
mod worked;
mod working;

pub use choosing::Chooser;
pub use finder::Finder;
pub use gate::{Gate, Open};
pub use halt::{Halt, Stop};
pub use plan::Plan;
pub use sc_text_run_rules::FinderEnd;
pub use worked::{Skip, Worked};
