//! Readers of the productions of a run text, from tokens. Each answers exactly what the definition of its name in
//! `sc_text_run_rules` gives: a value and the tokens behind it, or with how many tokens left it fails, and why (`Stop`). Want
//! of memory alone is free.
//!
//! A number of a row is answered as it is, since one that is out of range is refused where it stands. The number of a
//! variable in a kept clause, and those of the lines of a proof, are answered as `sc_text_section` answers them: one greater
//! than 4,294,967,295 as that (`specs/Seen.antt`). Tables are made with every entry 0 when the size is read, no more
//! than 1,048,576 entries of one version at a time, and filled when the entries are read; so memory is in proportion
//! to the text but for those of the last version.
//!
//! It stands on the readers of one token (`sc_input_scan`), of clauses and proof sections (`sc_text_section`), and on the tables
//! of `sc_interp`. Callers may rest on the clause of `read_run_section` and on two laws (`proofs/`): what a run text
//! leaves is an end of what it was given (`run-end`), and the first tokens of a text decide what is read of it
//! (`good_run`). `RowsSpelt` says what a row spells. Time is linear in the tokens read but for the look at each symbol's
//! name.
#![tactic(auto)]

mod fill;
mod number;
mod run;
mod table;
mod turns;
mod version;
mod words;

pub use run::read_run_section;
