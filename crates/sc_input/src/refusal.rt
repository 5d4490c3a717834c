//! Why an input isn't read.

ghost use Rattle.std.specs.Prelude.{◌≡◌};
ghost use Rattle.sc_input.specs.declared.refusal.InputError.TheVariants.{OutOfMemory};

use sc_input_rules::Place;
use sc_term::OutOfMemory;
use thiserror::Error;

/// The first fault of an input, or want of memory.
#[derive(Clone, Copy, Debug, PartialEq, Eq, Error)]
pub enum InputError {
    /// The input is refused at this byte, for this kind of fault.
    #[error("the input is refused")]
    Refused(Place),
    #[error("out of memory")]
    OutOfMemory,
}

impl From<OutOfMemory> for InputError {
    ghost from_gives = { λ _ e. e ≡ OutOfMemory };

    fn from(_: OutOfMemory) -> InputError {
        InputError::OutOfMemory
    }
}
