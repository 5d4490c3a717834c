//! Finite interpretations given by tables, and what is true in them.
//!
//! `Tables` are a size of 1 to 8 and, for each symbol of a signature other than `=`, a table of size^arity entries: the
//! elements are the numbers below the size, `=` is identity. `specs/Structure` reads them as an interpretation and says
//! what they keep (`IsStructure`); `specs/Marks` has the mark of a clause, `specs/Versions` what a `Version` keeps: its
//! claims are true in its tables (`IsVersion`).
//!
//! It stands on `sc_term`, whose definition of truth under an assignment (`Interpretation`) it uses, with its signatures,
//! copies and comparisons, and on `sqlite_items` for lists, which contracts see as lists.
//!
//! Callers may rest on this: `truth` is the mark, for every canonical clause, also one with symbols that have no table,
//! whose entries count as 0; `mark_of` is that of any clause; `Version::make` answers `Ok` exactly where every claim is true, and otherwise the first
//! that isn't; a copy is the same version. What takes memory says so by its type.
#![tactic(auto)]

mod assign;
mod claims;
mod compare;
mod copies;
mod evaluate;
mod mark;
mod marking;
mod plain;
mod satisfied;
mod table;
mod tables;
mod version;

pub use mark::{Assign, truth};
pub use marking::mark_of;
pub use plain::{Claim, Truth, VersionName};
pub use table::Table;
pub use tables::{Tables, TablesError};
pub use version::{ClaimError, Version, same};

#[cfg(test)]
mod tests;
