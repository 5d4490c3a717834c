//! What is known of a shelf.

use crate::entry::Entry;
use sc_term::{List, Symbol};

/// The entries met last, and the symbols of the shelf, if any step on it was taken. No value of it is made: it stands in
/// contracts alone.
pub struct View {
    pub met: List<Entry>,
    pub symbols: Option<List<Symbol>>,
}
