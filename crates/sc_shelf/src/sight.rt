//! A reader of a shelf with the versions that were copied through it.

ghost use Rattle.std.specs.Prelude.{◌≡◌, ◌≤◌, ◌^◌, [], Some, None, length, All, OnOk, MatchOption, IfSome};
ghost use Rattle.left_right.specs.Sides.{view as knowledge};
ghost use Rattle.sc_shelf.specs.Entries.{versions, AreEntries, IsVersionOver, StartsWith};
ghost use Rattle.sc_shelf.specs.Kept.{IsNoteOver, learnt_by};
ghost use Rattle.sc_shelf.specs.State.{StaysLearnt};

use crate::compare::begins;
use crate::copies::catch_up;
use crate::rule::{Sees, ShelfReader};
use crate::told::Told;
use sc_interp::Version;
use sc_term::{List, Mem, OutOfMemory, Signature};
use std::alloc::Global;
use std::marker::Model;
use std::snapshot::Snapshot;

/// A reader, and the versions that it saw. Contracts see the symbols of the shelf, these versions, and the entries that
/// the reader met last (`SightState`).
#[derive(Drop)]
pub struct Sight {
    reader: ShelfReader,
    seen: List<Version>,
    signature: Snapshot<Signature>,
}

impl Model for Sight {
    ghost use Rattle.std.specs.Coded.{codes};
    ghost use Rattle.sc_term.specs.contracts.Term as term;
    ghost use Rattle.left_right.specs.Sides.{view as knowledge};
    ghost use Rattle.sc_shelf.specs.Kept.{SightState, IsSight};

    ghost Value = { SightState };

    ghost coded = { Prim.hlevel (codes, term.the_row.coded) };

    ghost view = { λ s. record { symbols = s.signature.value; seen = s.seen; met = (knowledge s.reader.place).met } };

    ghost invariant = { λ s. IsSight s.signature.value (knowledge s.reader.place) s.seen };
}

impl Sight {
    /// The sight of a reader that has met nothing.
    pub fn new(alloc: Global, reader: ShelfReader, signature: &Signature) -> Sight
        requires nothing { (knowledge reader.place).met ≡ [] }
        requires named { (knowledge reader.place).symbols ≡ Some signature.now }
        ensures { result ≡ record { symbols = signature.now; seen = []; met = [] } }
    {
        Sight {
            reader,
            seen: List::new(alloc),
            signature: Snapshot::of(signature),
        }
    }

    /// The versions seen.
    pub fn seen(&self) -> &List<Version>
        ensures value { result.now ≡ self.now.seen }
        ensures over { All (IsVersionOver self.now.symbols) self.now.seen }
        ensures few { length self.now.seen ≤ 2 ^ 31 }
        ensures front { StartsWith (versions self.now.met) self.now.seen }
        ensures entries { AreEntries self.now.symbols self.now.met }
    {
        &self.seen
    }
}

/// Enters once, and copies what wasn't seen yet.
pub fn look_once(sight: Sight, alloc: Global) -> (Sight, Mem<()>)
    ensures same { result.0.symbols ≡ sight.symbols }
    ensures met { StartsWith result.0.met sight.met }
    ensures grows { StartsWith result.0.seen sight.seen }
    ensures ok { OnOk result.1 (result.0.seen ≡ versions result.0.met) }
{
    let Sight {
        reader,
        mut seen,
        signature,
    } = sight;
    match reader.enter_as::<Sees>() {
        Ok(reading) => {
            let done = catch_up(alloc, reading.get().entries.as_slice(), &mut seen);
            let sight = Sight {
                reader: reading.leave(),
                seen,
                signature,
            };
            (sight, done)
        }
        Err(reader) => {
            let sight = Sight {
                reader,
                seen,
                signature,
            };
            (sight, Err(OutOfMemory))
        }
    }
}

/// Enters by the reader of what was told, and looks through it from now on. The reader comes back where it was refused,
/// or where the entries don't begin with what was seen.
fn adopt(sight: Sight, told: ShelfReader) -> (Sight, Option<ShelfReader>)
    requires { (knowledge told.place).symbols ≡ Some sight.symbols }
    ensures same { (result.0.symbols ≡ sight.symbols) × (result.0.seen ≡ sight.seen) }
    ensures adopted { MatchOption result.1 (StartsWith result.0.met (knowledge told.place).met) (λ r. ((knowledge r.place).symbols ≡ Some sight.symbols) × StartsWith (knowledge r.place).met (knowledge told.place).met) }
{
    match told.enter_as::<Sees>() {
        Err(told) => (sight, Some(told)),
        Ok(reading) => {
            let fits = begins(reading.get().entries.as_slice(), sight.seen.as_slice());
            let reader = reading.leave();
            if !fits {
                return (sight, Some(reader));
            }
            let Sight {
                reader: _,
                seen,
                signature,
            } = sight;
            let sight = Sight {
                reader,
                seen,
                signature,
            };
            (sight, None)
        }
    }
}

/// Takes over what was told, if anything was. It is left where that was refused.
pub fn settle(sight: Sight, pending: Option<Told>) -> (Sight, Option<Told>)
    requires { IfSome pending (IsNoteOver sight.symbols) }
    ensures same { (result.0.symbols ≡ sight.symbols) × (result.0.seen ≡ sight.seen) }
    ensures left { IfSome result.1 (IsNoteOver sight.symbols) }
    ensures learnt { StaysLearnt (learnt_by pending sight.met) (learnt_by result.1 result.0.met) }
{
    match pending {
        None => (sight, None),
        Some(told) => {
            let Told { reader } = told;
            match reader {
                None => (sight, Some(Told { reader: None })),
                Some(reader) => {
                    let (sight, left) = adopt(sight, reader);
                    match left {
                        None => (sight, None),
                        Some(reader) => (
                            sight,
                            Some(Told {
                                reader: Some(reader),
                            }),
                        ),
                    }
                }
            }
        }
    }
}
