//! The words of the command line.
//!
//! `read_words` tells the command that the words ask for, and None exactly where they ask for none (`Asks`): `check`;
//! `prove`, whose options are `--finders`, `--size`, `--nodes` and `--candidates`; `model`, whose options are `--size`,
//! `--upto`, `--nodes` and `--workers`; and `bench` with a number of rungs. The options stand behind the command's word in any
//! order, each name once at most; name and value are two words, or one with `=` between them. A value is 1 to 10 decimal
//! digits, so leading zeros are allowed. Which numbers a name takes, and which is taken where it isn't given, is one table
//! (`row_of`); a last size (`--upto`) is told only where it is given, and words in which it is below the first size ask for
//! nothing. What is told is in its ranges (`IsInRange`).
//!
//! `specs/Options` says which options words spell (`Spell`) and which value they ask for (`IsChoice`). Words spell one list
//! of options at most (`proofs/OptionLaws`), and ask for one command at most (`proofs/WordLaws`). It takes no memory, goes
//! through the words once, and stops at the first that doesn't fit. It stands on the plan of `sc_worker` and on the reader
//! of digits of `sc_input_scan`.
#![tactic(auto)]

mod commands;
mod options;
mod taking;

pub use commands::{Command, read_words};
