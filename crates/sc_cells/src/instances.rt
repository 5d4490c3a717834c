//! What ground instances are.

ghost use Rattle.std.specs.Prelude.{◌≡◌};

use sc_term::List;
use std::marker::Model;
use thiserror::Error;

/// An instance of a clause over elements: the clause's place, from 0, in a list, and the element of each of its
/// variables, variable 0 first.
#[derive(Debug, Drop)]
pub struct GroundInstance {
    pub place: u32,
    pub values: List<u8>,
}

/// Why instances weren't listed.
#[derive(Clone, Copy, Debug, PartialEq, Eq, Error)]
pub enum GroundError {
    /// There are so many, or a billion where there are more.
    #[error("{count} instances are more than 200000")]
    TooWide { count: u64 },
    #[error("out of memory")]
    OutOfMemory,
}

/// All instances of the clauses of a list. Contracts see the list of them.
#[derive(Debug, Drop)]
pub struct Ground {
    pub(crate) instances: List<GroundInstance>,
}

impl Model for Ground {
    ghost use Rattle.std.specs.Prelude.{List as AList};
    ghost use Rattle.sc_cells.specs.declared.instances.GroundInstance.{GroundInstance};

    ghost Value = { AList GroundInstance };

    ghost view = { λ g. g.instances };
}

impl Ground {
    /// The instances, in order.
    pub fn instances(&self) -> &List<GroundInstance>
        ensures { result.now ≡ self.now }
    {
        &self.instances
    }
}
