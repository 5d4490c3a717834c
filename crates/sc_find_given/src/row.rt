//! What a symbol's entries have as cells.

use sc_term::List;

/// For the place of each entry of a symbol, the number of its cell.
#[derive(Debug, Drop)]
pub struct Row {
    pub arity: u8,
    pub numbers: List<usize>,
}
