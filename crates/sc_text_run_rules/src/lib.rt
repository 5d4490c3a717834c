//! The texts of tables and of runs, as definitions: which bytes they are printed as, and how run texts are read back.
//!
//! `ModelText` and `RunText` say which bytes the tables over a signature and the record of a run with the versions that it
//! saw are printed as. What is printed of a run is one value, `RunText`; `RunValue` has the same value as contracts of
//! readers see it, with lists of entries in place of tables. Which run a text spells over the symbols of a problem, or
//! where and why it is refused, is said by `RowWords` (numbers and words of rows), `VersionGrammar` (versions with their
//! tables), `RowGrammar` (the other rows), `RunSection` (the whole in its order) and `RunReading`, which joins it with the
//! limits: those of a proof section, as a number of a row that is outside its range is refused by the production that
//! reads it. `proofs/` has worked examples.
//!
//! It stands on the text of clauses and of proof sections (`sc_text_rules`), on the rows of a run (`sc_core_rules`) and on
//! tables (`sc_interp`). Callers may rest on the types, which are plain data. There is no code here.
#![tactic(auto)]

mod run;

pub use run::{FinderEnd, MarkRow, RunText, VersionText};
