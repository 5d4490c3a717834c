//! What searches at one size after another come to.

use sc_interp::Tables;
use thiserror::Error;

/// The first model of the smallest size that has one; that no size has one; or the size and its piece, from 1, of which
/// the plain count of nodes is more than the budget.
#[derive(Debug, Drop)]
pub enum Smallest {
    Model(Tables),
    None,
    Spent { size: u8, piece: u32 },
}

/// Why a size couldn't be searched, where no smaller one has a model.
#[derive(Clone, Copy, Debug, PartialEq, Eq, Error)]
pub enum SmallestError {
    /// It has so many cells.
    #[error("{count} cells are more than 4096")]
    Cells { count: u64 },
    /// It has so many instances, or a billion where there are more.
    #[error("{count} instances are more than 200000")]
    Instances { count: u64 },
    #[error("out of memory")]
    OutOfMemory,
}
