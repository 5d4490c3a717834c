//! How the work of a turn ends.

/// All items were worked, the empty clause of that number was found, or there are more items than may be worked.
#[derive(Clone, Copy, Debug, PartialEq, Eq)]
pub enum Finish {
    Done,
    Found(u32),
    TooMany,
}
