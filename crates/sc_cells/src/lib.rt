//! The cells of a finite interpretation and the ground instances of clauses: what a search for a model gives values to,
//! and what it has to keep true.
//!
//! A cell is an entry of a symbol other than `=`: the symbol with a list of elements, as many as its arity. `cells_of`
//! lists the cells of a size in the order in which they are to get their values: by the greatest argument, so that the
//! cells of a smaller size come first, then by symbol, then by the arguments. `ground` lists the instances of clauses
//! over the elements of a size, clause by clause, in rising order of the assignments.
//!
//! `specs/Cells` says what cells are (`AreCells`) and what values for the first of them decide: terms are evaluated from
//! the inside, and a literal is false only where every entry that it reads is given (`IsFalseBy`, `IsConsistent`).
//! `specs/Ground` says what instances are (`AreInstances`), `specs/Order` what an order of lists is.
//!
//! It stands on `sc_term` for clauses and signatures, on `sc_interp` for the places of entries, and on
//! `sqlite_items` for lists, which contracts see as lists.
//!
//! Callers may rest on this: each list is the one list in that order, and it is complete; both calls count before they
//! list, and refuse exactly above 4,096 cells or 200,000 instances. The count of cells is told exactly, that of instances
//! up to a billion. Clauses needn't be canonical. Want of memory is the one other answer.
#![tactic(auto)]

mod cells;
mod digits;
mod instances;
mod listing;

pub use cells::{Cell, CellsError, cells_of};
pub use instances::{Ground, GroundError, GroundInstance};
pub use listing::ground;
