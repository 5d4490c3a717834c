//! The marks of clauses in one version, by clause number.
//!
//! `Marks` holds a version and, for each of some clauses, whether it is true there. `mark` adds a clause, `of` tells its
//! mark, `forget` drops one, and `carry` goes on to another version, in which every clause that is marked is marked anew.
//! Contracts see the version, its name and the marked clauses (`specs/Marked`).
//!
//! It stands on the truth of a clause in tables (`sc_interp`). Callers may rest on this: after any list of calls each
//! marked number has the mark, by definition, of the clause that it was marked with, in the one version that all marks
//! name; a number isn't marked exactly where `of` tells nothing. What takes memory says so by its type, and where memory
//! is wanting the marks stay as they were.
//!
//! The truth of clause n stands at place n of a list (`specs/Marking`): `of` is one look, however many clauses are
//! marked. That takes eight to twelve bytes for each number up to the greatest. `forget` takes one pass over the
//! clauses where the clause is marked. Where a clause is false, the number of an assignment that makes it so stands
//! with it (`specs/Known`). `carry` compares the tables of the two versions, and finds a truth anew only where a
//! symbol of the clause has another entry (`specs/Changes`) and that assignment doesn't make the clause false any
//! more, or the clause was true; in a version of another size always. A clause that is kept costs one walk over its
//! symbols, and one assignment where they changed.
#![tactic(auto)]

mod carrying;
mod changes;
mod evaluate;
mod known;
mod marks;
mod truths;
mod trying;

pub use marks::{Mark, Marks};

#[cfg(test)]
mod tests;
