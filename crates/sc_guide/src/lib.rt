//! The versions that a prover has seen, and the guide: the best of them.
//!
//! `Guide` holds a list of versions for each finder. `add` puts a copy of one more at the end of a list, `receive` the
//! version itself; `name` and `version` tell the guide: the version of greatest score, then of least finder, then of
//! greatest place, and the opening version where none is seen, whose name is `OPENING`. `into_seen` gives the lists away.
//! Contracts see the opening version, the lists, the guide and its name (`specs/Guided`).
//!
//! It stands on versions (`sc_interp`) and on the definition of the guide (`sc_core_rules`). Callers may rest on this:
//! what is told is the guide of the lists as they are (`IsGuideOver`); `add` and `receive` change one list, by one version
//! at its end. Where memory is wanting everything stays as it was. They compare the new version with the guide alone.
#![tactic(auto)]

mod guide;

pub use guide::{Guide, OPENING};
