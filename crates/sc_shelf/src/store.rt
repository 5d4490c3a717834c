//! What each of the two copies holds that a press and its readers share.

ghost use Rattle.std.specs.Prelude.{◌≡◌, [], ◌∷◌, ◌++◌};

use crate::entry::{Entry, copy_entry};
use left_right::Absorb;
use sc_term::{List, Signature};
use std::alloc::{AllocError, Global};
use std::snapshot::Snapshot;

/// The published entries. The signature of the shelf is there for contracts alone: it has no bytes.
#[derive(Drop)]
pub struct Store {
    pub alloc: Global,
    pub signature: Snapshot<Signature>,
    pub entries: List<Entry>,
}

impl Absorb<Entry> for Store {
    type State = Store;

    ghost state = { λ s. s };

    ghost applied = { λ s e. record s { entries = s.entries ++ e ∷ [] } };

    fn absorb_first(&mut self, operation: &Entry, _other: &Store) -> Result<(), AllocError> {
        let Ok(entry) = copy_entry(self.alloc, operation) else {
            return Err(AllocError);
        };
        self.entries.push(entry)
    }
}

pub fn empty_store(alloc: Global, signature: &Signature) -> Store
    ensures { (result.signature.value ≡ signature.now) × (result.entries ≡ []) × (result.alloc ≡ alloc) }
{
    Store {
        alloc,
        signature: Snapshot::of(signature),
        entries: List::new(alloc),
    }
}
