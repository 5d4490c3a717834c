//! Partial interpretations: values for the first cells of a size, one after another, and whether an instance of a clause
//! is false by them, or which cell it waits for.
//!
//! `Given` is seen as a `Prefix`: the cells of the size in order, and values for the first of them. `specs/Keeping` says
//! what its fields keep, `specs/Lookup` how terms are evaluated over them, `specs/Waiting` which cell a clause waits for.
//!
//! It stands on `sc_cells`, whose definitions of cells and of evaluation from the inside (`IsFalseBy`) the contracts cite,
//! on `sc_term` for signatures, on the places of entries of `sc_interp`, and on `sqlite_items` for lists.
//!
//! Callers may rest on this: after `new` nothing allocates; `push` and `pop` give and take back one value; `waits` says
//! exactly whether all literals are false and all that they read is given, also of symbols with a wrong number of
//! arguments and of elements that there aren't, which have no entry; and otherwise a cell without a value, up to which no
//! more values make all literals false.
#![tactic(auto)]

mod evaluate;
mod given;
mod number;
mod row;
mod slot;

pub use given::Given;
