//! A finder that publishes on a shelf what it finds.

ghost use Rattle.std.specs.Prelude.{◌≡◌, ◌<◌, ◌≤◌, ◌^◌, ◌++◌, ◌∷◌, [], ℕ, false, length, OnOk};
ghost use Rattle.sc_base.specs.Causes.{Rose};
ghost use Rattle.sc_shelf.specs.Entries.{StartsWith};
ghost use Rattle.sc_shelf.specs.State.{listed, is_closed, new_press};
ghost use Rattle.sc_text_run_rules.specs.declared.run.FinderEnd.TheVariants as ends;
ghost use Rattle.sc_worker.specs.declared.plan.Plan.{Plan as APlan};
ghost use Rattle.sc_worker.specs.Choosing.{at_first};
ghost use Rattle.sc_worker.specs.Finding.{IsFound};

use crate::choosing::Chooser;
use crate::gate::Gate;
use crate::halt::Halt;
use crate::working::work_all;
use sc_shelf::{Press, Window, look_last};
use sc_term::{Mem, OutOfMemory};
use sc_text_run_rules::FinderEnd;
use std::alloc::Global;
use std::marker::Model;
use std::sync::Wait;

/// Works the candidates of a chooser, and publishes what joins. Contracts see the chooser and the press (`FinderState`).
/// It isn't `Drop`, as a press isn't: whoever has one takes the press and ends it, on every way out.
pub struct Finder<'a> {
    number: u32,
    chooser: Chooser<'a>,
    press: Press,
}

impl<'a> Model for Finder<'a> {
    ghost use Rattle.std.specs.Coded.{codes};
    ghost use Rattle.sc_term.specs.contracts.Term as term;
    ghost use Rattle.sc_worker.specs.Finding.{FinderState};

    ghost Value = { FinderState };

    ghost coded = { Prim.hlevel (codes, term.the_row.coded) };

    ghost view = { λ f. record { choice = f.chooser; press = f.press } };
}

impl<'a> Finder<'a> {
    /// The finder of that number, by which it passes gates.
    pub fn new(number: u32, chooser: Chooser<'a>, press: Press) -> Finder<'a>
        ensures { result ≡ record { choice = chooser.entry; press = press } }
    {
        Finder {
            number,
            chooser,
            press,
        }
    }

    /// The press, as it is, not closed.
    pub fn into_press(self) -> Press
        ensures { result ≡ self.entry.press }
    {
        let Finder {
            number: _,
            chooser: _,
            press,
        } = self;
        press
    }
}

impl Finder<'_> {
    /// Works candidate after candidate, and publishes each version. It asks before each but the first whether to stop; want
    /// of memory ends it too. It passes point 0 of the gate before its first candidate and point c after candidate c. It may
    /// wait for a reader inside a look.
    pub fn work<R: Wait, H: Halt, G: Gate>(
        &mut self,
        rt: &R,
        alloc: Global,
        halt: &mut H,
        gate: &G,
    ) -> FinderEnd
        requires new { self.old.press ≡ new_press self.old.choice.problem.symbols }
        requires few { length self.old.choice.left ≤ 128 }
        ensures found { (plan : APlan) (f : ℕ) → self.old.choice ≡ at_first self.old.choice.problem plan f → IsFound self.old.choice.problem plan f result (listed self.new.press) }
        ensures stopped { result ≡ ends.Stopped → Rose (H.requests halt.old) (H.requests halt.new) }
        ensures later { H.requests halt.old ≤ H.requests halt.new }
        ensures symbols { self.new.press.symbols ≡ self.old.press.symbols }
        ensures open { is_closed self.new.press ≡ false }
    {
        work_all(
            rt,
            alloc,
            &mut self.chooser,
            &mut self.press,
            halt,
            gate,
            self.number,
        )
    }

    /// Closes the shelf, and has the window on it look for the last time: where that is Ok, the window has seen all that was
    /// published. It is refused where a publish was.
    pub fn close<R: Wait>(&mut self, rt: &R, window: &mut Window) -> Mem<()>
        requires open { is_closed self.old.press ≡ false }
        requires shelf { window.old.symbols ≡ self.old.press.symbols }
        requires room { length window.old.looks < 2 ^ 31 }
        ensures all { OnOk result (window.new.seen ≡ listed self.old.press) }
        ensures looks { OnOk result (window.new.looks ≡ window.old.looks ++ length window.new.seen ∷ []) }
        ensures grows { StartsWith window.new.seen window.old.seen }
        ensures list { listed self.new.press ≡ listed self.old.press }
        ensures choice { self.new.choice ≡ self.old.choice }
    {
        if !self.press.is_whole() {
            return Err(OutOfMemory);
        }
        self.press.close(rt)?;
        look_last(&mut self.press, window)?;
        Ok(())
    }
}
