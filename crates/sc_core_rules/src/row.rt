//! The record of a run: a row for each given and each kept clause, and how it ended.

use sc_interp::{Truth, VersionName};
use sc_term::{Clause, List};

/// Why a clause was given: it was the oldest, the lightest of those that are false in the guide, or the lightest.
#[derive(Clone, Copy, Debug, PartialEq, Eq)]
pub enum Cause {
    Age,
    False,
    Weight,
}

/// The clause given in a turn, from 1, with the name of the guide, its truth there, and how many versions of each finder
/// were seen.
#[derive(Debug, Drop)]
pub struct GivenRow {
    pub turn: u32,
    pub number: u32,
    pub cause: Cause,
    pub name: VersionName,
    pub truth: Truth,
    pub lengths: List<u32>,
}

/// A clause that was kept in a turn.
#[derive(Debug, Drop)]
pub struct KeptRow {
    pub number: u32,
    pub turn: u32,
    pub weight: u32,
    pub clause: Clause,
}

/// How a run ended: by an empty clause, for want of clauses in sos, or at a limit, with the number of given clauses, of
/// kept clauses, or of the turn.
#[derive(Clone, Copy, Debug, PartialEq, Eq)]
pub enum Outcome {
    Proof,
    SosEmpty,
    GivenLimit(u32),
    KeptLimit(u32),
    WorkLimit(u32),
}
