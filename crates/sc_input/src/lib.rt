//! Problems, read from their bytes. `read_problem` answers the one problem that the bytes spell, or where and why they
//! are refused, exactly as `problem_of` of sc_input_rules defines it; `read_items` reads what may stand before a section
//! of a proof or a run, and tells the byte where it stopped (`items_of`). Want of memory alone is free.
//!
//! Limits are looked for first (sc_input_limits), over the tokens (sc_input_scan); then the productions (sc_input_grammar) read no
//! further than the first limit that is passed, so that no recursion is deeper than the limit on depth; from what was
//! written the value is made (sc_input_values). A `Problem` keeps what the language says of every problem (`IsProblem`).
//! Time and memory are in proportion to the bytes.
//!
//! `first_byte`, `last_tokens` and `fault_at` make the answer from what a production reads of the tokens up to the first
//! limit. Readers of other texts join their limits and productions by them too: the laws (`proofs/Judging`) hold of
//! every production whose reading is decided by the first tokens.
#![tactic(auto)]

mod read;
mod refusal;

pub use read::{Items, fault_at, first_byte, last_tokens, read_items, read_problem};
pub use refusal::InputError;
pub use sc_input_rules::{Flags, Home, InputKind, Params, Place, Problem};
