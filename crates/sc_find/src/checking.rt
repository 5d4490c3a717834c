//! Which cell an instance waits for.

ghost use Rattle.std.specs.Prelude.{◌<◌, length};
ghost use Rattle.sc_find.specs.Watching.{Waits};

use sc_cells::GroundInstance;
use sc_find_given::Given;
use sc_term::Clause;

/// The cell without a value up to which no more values make the instance false; none, where it is false.
pub fn waits(given: &Given, clauses: &[Clause], instance: &GroundInstance) -> Option<usize>
    requires { instance.now.place < length clauses.now }
    ensures { Waits clauses.now given.now instance.now result }
{
    given.waits(
        &clauses[instance.place as usize],
        instance.values.as_slice(),
    )
}
