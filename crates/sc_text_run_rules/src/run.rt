//! A run, as it is written.

use sc_core_rules::{GivenRow, KeptRow, Outcome};
use sc_interp::{Tables, Truth, VersionName};
use sc_term::{Line, List};

/// How a finder ended: all its candidates were worked, it was stopped, its size was too wide, or it found no memory.
#[derive(Clone, Copy, Debug, PartialEq, Eq)]
pub enum FinderEnd {
    Done,
    Stopped,
    Wide,
    Memory,
}

/// The mark of a line of a proof, from 1, in the version of that name.
#[derive(Clone, Copy, Debug, PartialEq, Eq)]
pub struct MarkRow {
    pub line: u32,
    pub name: VersionName,
    pub truth: Truth,
}

/// A version: its size, its tables, which are of that size, and the numbers of the input clauses that they make true.
#[derive(Debug, Drop)]
pub struct VersionText {
    pub size: u8,
    pub tables: Tables,
    pub claims: List<u32>,
}

/// A run: in every how many turns the oldest clause was given, the versions that each finder published, the rows of
/// given and kept clauses, how each finder and the run ended, and, where that was with a proof, its lines and their
/// marks.
#[derive(Debug, Drop)]
pub struct RunText {
    pub ratio: u32,
    pub lists: List<List<VersionText>>,
    pub given: List<GivenRow>,
    pub kept: List<KeptRow>,
    pub ends: List<FinderEnd>,
    pub outcome: Outcome,
    pub proof: List<Line>,
    pub marks: List<MarkRow>,
}
