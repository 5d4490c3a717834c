//! How models are sought beside the prover.

/// How many finders there are, 0 to 8, where 0 means one that works between the turns; the size of the first one's models,
/// 1 to 8; the budget of nodes of each search, 1 to 10,000,000; and of how many input clauses at most a model is sought,
/// 0 to 128.
#[derive(Clone, Copy, Debug, PartialEq, Eq)]
pub struct Plan {
    pub finders: u32,
    pub first_size: u8,
    pub nodes: u64,
    pub candidates: u32,
}
