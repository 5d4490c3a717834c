//! What tables are, as plain data.

use sc_term::{List, Role};

/// The values of one symbol. The entry of the arguments i1 to ik stands at the place that starts at 0 and, for each
/// argument in order, becomes the size times itself plus that argument.
#[derive(Debug, Drop)]
pub struct Table {
    pub role: Role,
    pub arity: u8,
    pub entries: List<u8>,
}
