//! The last look at a closed shelf.

ghost use Rattle.std.specs.Prelude.{◌≡◌, ◌<◌, ◌^◌, [], ◌∷◌, ◌++◌, length, true, OnOk, MatchResult};
ghost use Rattle.sc_shelf.specs.Entries.{StartsWith};
ghost use Rattle.sc_shelf.specs.State.{listed, is_closed};

use crate::press::Press;
use crate::window::Window;
use sc_term::Mem;

/// Has the window learn what its closed press has published, and look once: where that is Ok, the window has seen all of
/// it.
pub fn look_last(press: &mut Press, window: &mut Window) -> Mem<()>
    requires closed { is_closed press.old ≡ true }
    requires shelf { window.old.symbols ≡ press.old.symbols }
    requires room { length window.old.looks < 2 ^ 31 }
    ensures all { OnOk result (window.new.seen ≡ listed press.old) }
    ensures looks { MatchResult result (λ _. window.new.looks ≡ window.old.looks ++ length window.new.seen ∷ []) (λ _. window.new.looks ≡ window.old.looks) }
    ensures grows { StartsWith window.new.seen window.old.seen }
    ensures press { press.new ≡ press.old }
    ensures symbols { window.new.symbols ≡ window.old.symbols }
{
    window.learn(press.told());
    window.look()
}
