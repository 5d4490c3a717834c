//! Learning and looking.

ghost use Rattle.std.specs.Prelude.{◌≡◌, ◌<◌, ◌^◌, [], ◌∷◌, ◌++◌, Some, None, length, All, OnOk, IfSome, MatchResult};
ghost use Rattle.std.specs.Option.{option_map};
ghost use Rattle.sc_shelf.specs.Entries.{versions, AreEntries, IsVersionOver, StartsWith};
ghost use Rattle.sc_shelf.specs.Kept.{IsNoteOver, learnt_by};
ghost use Rattle.sc_shelf.specs.State.{StaysLearnt, new_window};

use super::Window;
use crate::sight::{Sight, look_once, settle};
use crate::told::Told;
use core::mem::replace_with;
use sc_interp::Version;
use sc_term::{List, Mem, OutOfMemory};
use std::alloc::Global;

/// Takes over what was told, in place. What is left of it is the answer.
fn settle_in(sight: &mut Sight, pending: Option<Told>) -> Option<Told>
    requires { IfSome pending (IsNoteOver sight.old.symbols) }
    ensures same { (sight.new.symbols ≡ sight.old.symbols) × (sight.new.seen ≡ sight.old.seen) }
    ensures left { IfSome result (IsNoteOver sight.old.symbols) }
    ensures learnt { StaysLearnt (learnt_by pending sight.old.met) (learnt_by result sight.new.met) }
{
    replace_with(
        sight,
        pending,
        |sight: Sight, pending: Option<Told>| -> (Sight, Option<Told>)
            requires { IfSome pending (IsNoteOver sight.symbols) }
            ensures same { (result.0.symbols ≡ sight.symbols) × (result.0.seen ≡ sight.seen) }
            ensures left { IfSome result.1 (IsNoteOver sight.symbols) }
            ensures learnt { StaysLearnt (learnt_by pending sight.met) (learnt_by result.1 result.0.met) }
        { settle(sight, pending) },
    )
}

/// Enters once, in place.
fn look_in(sight: &mut Sight, alloc: Global) -> Mem<()>
    ensures same { sight.new.symbols ≡ sight.old.symbols }
    ensures met { StartsWith sight.new.met sight.old.met }
    ensures grows { StartsWith sight.new.seen sight.old.seen }
    ensures ok { OnOk result (sight.new.seen ≡ versions sight.new.met) }
{
    replace_with(
        sight,
        alloc,
        |sight: Sight, alloc: Global| -> (Sight, Mem<()>)
            ensures same { result.0.symbols ≡ sight.symbols }
            ensures met { StartsWith result.0.met sight.met }
            ensures grows { StartsWith result.0.seen sight.seen }
            ensures ok { OnOk result.1 (result.0.seen ≡ versions result.0.met) }
        { look_once(sight, alloc) },
    )
}

impl Window {
    /// A window that has seen nothing.
    pub(crate) fn new(alloc: Global, sight: Sight) -> Window
        requires nothing { (sight.seen ≡ []) × (sight.met ≡ []) }
        ensures { result ≡ new_window sight.symbols }
    {
        Window {
            alloc,
            sight,
            pending: None,
            looks: List::new(alloc),
        }
    }

    /// Learns what a press of the same shelf told: the next look that is Ok can't miss it. What was learnt before and
    /// wasn't looked at yet is forgotten. It takes no memory.
    pub fn learn(&mut self, told: Told)
        requires shelf { IsNoteOver self.old.symbols told }
        ensures { self.new ≡ record self.old { learnt = option_map (λ note. note.entries) told } }
    {
        self.pending = Some(told);
    }

    /// Looks at the shelf, and waits for nobody. Where it is Ok, what is seen is the list of the versions that were
    /// published at one step of this call. After want of memory it is a front of such a list.
    pub fn look(&mut self) -> Mem<()>
        requires room { length self.old.looks < 2 ^ 31 }
        ensures symbols { self.new.symbols ≡ self.old.symbols }
        ensures grows { StartsWith self.new.seen self.old.seen }
        ensures front { StartsWith (versions self.new.met) self.new.seen }
        ensures entries { AreEntries self.new.symbols self.new.met }
        ensures learnt { StaysLearnt self.old.learnt self.new.learnt }
        ensures all { OnOk result (self.new.seen ≡ versions self.new.met) }
        ensures met { OnOk result (self.new.learnt ≡ Some self.new.met) }
        ensures looks { MatchResult result (λ _. self.new.looks ≡ self.old.looks ++ length self.new.seen ∷ []) (λ _. self.new.looks ≡ self.old.looks) }
    {
        let pending = self.pending.take();
        self.pending = settle_in(&mut self.sight, pending);
        if self.pending.is_some() {
            let _ = self.sight.seen();
            return Err(OutOfMemory);
        }
        let done = look_in(&mut self.sight, self.alloc);
        let count = self.sight.seen().len() as u32;
        done?;
        self.looks.push(count)?;
        Ok(())
    }

    /// The versions seen, each of which makes its claims true, and is over the symbols of the shelf.
    pub fn seen(&self) -> &List<Version>
        ensures value { result.now ≡ self.now.seen }
        ensures over { All (IsVersionOver self.now.symbols) self.now.seen }
    {
        self.sight.seen()
    }

    /// How many versions were seen after each look that was Ok, in order.
    pub fn looks(&self) -> &List<u32>
        ensures { result.now ≡ self.now.looks }
    {
        &self.looks
    }
}
