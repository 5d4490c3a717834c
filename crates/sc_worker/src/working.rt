//! Working candidates, and publishing what joins.

ghost use Rattle.std.specs.Prelude.{◌≡◌, ◌<◌, ◌≤◌, ℕ, false, length, IsTrue, IfOk, OnErr};
ghost use Rattle.sc_base.specs.Causes.{Rose};
ghost use Rattle.sc_shelf.specs.State.{listed, is_closed, new_press};
ghost use Rattle.sc_text_run_rules.specs.declared.run.FinderEnd.TheVariants as ends;
ghost use Rattle.sc_worker.specs.declared.plan.Plan.{Plan as APlan};
ghost use Rattle.sc_worker.specs.Choosing.{at_first};
ghost use Rattle.sc_worker.specs.Finding.{IsFound};
ghost use Rattle.sc_worker.specs.Underway.{IsReady, Stepped};

use crate::choosing::Chooser;
use crate::gate::Gate;
use crate::halt::Halt;
use crate::worked::Worked;
use sc_shelf::Press;
use sc_term::Mem;
use sc_text_run_rules::FinderEnd;
use std::alloc::Global;
use std::sync::Wait;

/// What became of one step of the work.
#[derive(Clone, Copy, Debug, PartialEq, Eq)]
pub enum Step {
    Went,
    Done,
    Wide,
}

/// Asks whether to stop, if a candidate was worked.
fn stops<H: Halt>(halt: &mut H, worked: u64) -> bool
    ensures later { H.requests halt.old ≤ H.requests halt.new }
    ensures rose { IsTrue result → Rose (H.requests halt.old) (H.requests halt.new) }
    ensures some { IsTrue result → 0 < worked }
{
    if worked == 0 {
        return false;
    }
    halt.asked()
}

/// Works the next candidate, and publishes its version, if it joins.
fn work_next<R: Wait>(
    rt: &R,
    alloc: Global,
    chooser: &mut Chooser<'_>,
    press: &mut Press,
) -> Mem<Step>
    requires { IsReady chooser.old press.old }
    ensures stepped { IfOk result (λ step. Stepped chooser.old chooser.new press.old press.new step) }
    ensures refused { OnErr result (listed press.new ≡ listed press.old) }
    ensures symbols { press.new.symbols ≡ press.old.symbols }
    ensures unclosed { is_closed press.new ≡ false }
{
    match chooser.next(alloc)? {
        Worked::Done => Ok(Step::Done),
        Worked::Wide => Ok(Step::Wide),
        Worked::Skipped(_) => Ok(Step::Went),
        Worked::Joined(version) => {
            press.publish(rt, version)?;
            Ok(Step::Went)
        }
    }
}

/// Works candidate after candidate, and publishes each version (`Finder::work`).
#[tactic(auto, using(crate::proofs::WorkingLaws::underway_on, crate::proofs::WorkingLaws::fewer_on))]
pub fn work_all<R: Wait, H: Halt, G: Gate>(
    rt: &R,
    alloc: Global,
    chooser: &mut Chooser<'_>,
    press: &mut Press,
    halt: &mut H,
    gate: &G,
    actor: u32,
) -> FinderEnd
    requires new { press.old ≡ new_press chooser.old.problem.symbols }
    requires few { length chooser.old.left ≤ 128 }
    ensures found { (plan : APlan) (f : ℕ) → chooser.old ≡ at_first chooser.old.problem plan f → IsFound chooser.old.problem plan f result (listed press.new) }
    ensures stopped { result ≡ ends.Stopped → Rose (H.requests halt.old) (H.requests halt.new) }
    ensures later { H.requests halt.old ≤ H.requests halt.new }
    ensures symbols { press.new.symbols ≡ press.old.symbols }
    ensures unclosed { is_closed press.new ≡ false }
{
    gate.pass(actor, 0);
    let mut worked: u64 = 0;
    while chooser.has_more() {
        if stops(halt, worked) {
            return FinderEnd::Stopped;
        }
        match work_next(rt, alloc, chooser, press) {
            Ok(Step::Went) => {}
            Ok(Step::Done) => return FinderEnd::Done,
            Ok(Step::Wide) => return FinderEnd::Wide,
            Err(_) => return FinderEnd::Memory,
        }
        worked = worked.saturating_add(1);
        gate.pass(actor, worked);
    }
    FinderEnd::Done
}
