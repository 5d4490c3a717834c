//! What is asked of a job, and the answers.

use sc_interp::Tables;
use thiserror::Error;

/// The whole job, or the piece of that number, from 1: piece p is the part in which cell 0 has the value p - 1. A job
/// without cells has piece 1 alone, which is the whole.
#[derive(Clone, Copy, Debug, PartialEq, Eq)]
pub enum Piece {
    Whole,
    First(u8),
}

/// What a search in a piece came to: the first model, that there is none, or that there are more nodes than the budget.
#[derive(Debug, Drop)]
pub enum Found {
    Model(Tables),
    None,
    Spent,
}

/// What searches in one piece after another came to. The piece that was spent has that number.
#[derive(Debug, Drop)]
pub enum FoundAll {
    Model(Tables),
    None,
    Spent { piece: u32 },
}

/// Why a job wasn't made.
#[derive(Clone, Copy, Debug, PartialEq, Eq, Error)]
pub enum JobError {
    /// It would have so many cells.
    #[error("{count} cells are more than 4096")]
    Cells { count: u64 },
    /// It would have so many instances, or a billion where there are more.
    #[error("{count} instances are more than 200000")]
    Instances { count: u64 },
    #[error("out of memory")]
    OutOfMemory,
}
