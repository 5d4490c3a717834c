//! A cell with its arguments.

use sc_term::{List, SymId};

/// A cell: a symbol, and an element for each of its arguments.
#[derive(Debug, Drop)]
pub struct Slot {
    pub sym: SymId,
    pub indices: List<u8>,
}
