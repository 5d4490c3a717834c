//! Why reading stopped.

ghost use Rattle.std.specs.Prelude.{◌≡◌};
ghost use Rattle.sc_input_scan.specs.declared.stop.Stop.TheVariants.{Memory};

use sc_input_rules::InputKind;
use std::alloc::{AllocError, AllocFailed};

/// Want of memory, or a fault with so many tokens left.
#[derive(Debug, Drop)]
pub enum Stop {
    Memory,
    At(usize, InputKind),
}

impl From<AllocError> for Stop {
    ghost from_gives = { λ _ e. e ≡ Memory };

    fn from(_e: AllocError) -> Stop {
        Stop::Memory
    }
}

impl<T: Drop> From<AllocFailed<T>> for Stop {
    ghost from_gives = { λ _ e. e ≡ Memory };

    fn from(_e: AllocFailed<T>) -> Stop {
        Stop::Memory
    }
}
