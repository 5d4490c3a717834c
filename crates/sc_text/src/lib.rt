//! All printed texts, and proof sections and run texts read back.
//!
//! `print_clause`, `print_proof`, `print_model` and `print_run` are those of sc_text_print: exactly the bytes of the
//! definitions. `read_proof` answers the lines that the bytes from one on spell over the symbols of a problem, and
//! `read_run` the run, or where and why they are refused, exactly as `proof_of` of sc_text_rules and `run_of` of
//! sc_text_run_rules define it. Want of memory alone is free.
//!
//! Limits are looked for first (sc_text_limits), over the tokens (sc_input_scan); then the productions (sc_text_section,
//! sc_text_run_section) read no further than the first limit that is passed, so that no recursion is deeper than the limit
//! on depth. The two are joined as those of a problem are (sc_input). Where no limit is passed each number fits its 32
//! bits, so nothing that the productions clip is lost (`proofs/LinesRead`, `proofs/ExactRuns`). Time is in proportion to
//! the bytes; memory is too, but for the tables of a run's last version.
#![tactic(auto)]

mod read;
mod runs;

pub use read::read_proof;
pub use runs::read_run;
pub use sc_core_rules::{Cause, GivenRow, KeptRow, Outcome};
pub use sc_input::{InputError, InputKind, Place};
pub use sc_text_print::{print_clause, print_model, print_proof, print_run};
pub use sc_text_run_rules::{FinderEnd, MarkRow, RunText, VersionText};
