//! The input language: what a problem is, and which problem a text spells. Every reader of problems answers what is
//! defined here, and no code of this crate reads a text.
//!
//! `problem_of` in `specs/Reading.antt` gives of all bytes the problem that they spell, or the byte at which they are
//! refused and why. Its parts have a file each: tokens (`Tokens`), productions (`Reader`, `ClauseGrammar`,
//! `ProblemGrammar`), the limits in the order in which they are told (`Measures`, `ClauseLimits`, `ProblemLimits`), the
//! fault that comes first (`Faults`), and what the items state (`Numbering`, `Settings`, `Problem`). The types are
//! those that readers hand on: tokens that point into the text, names and literals as they are written, and `Problem`.
//!
//! It stands on the clauses and signatures of `sc_term` alone. Callers may rest on this: every `Problem` keeps
//! `IsProblem` (`specs/WellFormed.antt`): a home for each clause, canonical clauses over its signature, the form of
//! demodulators, the ranges and the limits. Whoever makes one shows that first; the laws in `proofs/` show it of every
//! problem that is read. They show too that the first tokens of a text up to a limit decide the answer on the whole
//! text, that the tokens which spell a clause are read as that clause, and what each count is with one token more.
#![tactic(auto)]

mod fault;
mod lexeme;
mod problem;
mod settings;
mod token;
mod written;

pub use fault::{InputKind, Place};
pub use lexeme::Lexeme;
pub use problem::Problem;
pub use settings::{Flags, Home, Params};
pub use token::{Sign, Token};
pub use written::{Occurrence, WrittenLiteral};
