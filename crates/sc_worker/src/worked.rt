//! What became of a candidate.

use sc_interp::Version;

/// Why a candidate was skipped: the claims have no model with it, the search for one was given up, or there would be too
/// many ground instances.
#[derive(Clone, Copy, Debug, PartialEq, Eq)]
pub enum Skip {
    NoModel,
    Spent,
    Instances,
}

/// The next candidate joined the claims, and this is the version of their first model; it was skipped; all were worked; or
/// there are too many cells to search.
#[derive(Debug, Drop)]
pub enum Worked {
    Joined(Version),
    Skipped(Skip),
    Done,
    Wide,
}
