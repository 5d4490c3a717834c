//! What a command asks for on threads.

ghost use Rattle.std.specs.Prelude.{◌≡◌, MatchOption};
ghost use Rattle.sc_top.specs.Told.{IsAlone};
ghost use Rattle.sc_top.specs.OnThreads.{AsksOnThreads};

use sc_top_words::Command;
use sc_worker::Plan;

/// What runs on threads of its own.
#[derive(Clone, Copy, Debug)]
pub enum OnThreads {
    /// The finders of the plan, beside the prover.
    Finders(Plan),
    /// So many workers, at least two, which search the pieces of a size, or of each size up to the last one.
    Workers {
        size: u8,
        upto: Option<u8>,
        nodes: u64,
        count: u32,
    },
}

/// What the command asks for on threads, where it asks for some.
pub fn on_threads(command: Command) -> Option<OnThreads>
    ensures { MatchOption result (IsAlone command) (AsksOnThreads command) }
{
    match command {
        Command::Prove(plan) => {
            if plan.finders == 0 {
                None
            } else {
                Some(OnThreads::Finders(plan))
            }
        }
        Command::Model {
            size,
            upto,
            nodes,
            workers,
        } => {
            if workers <= 1 {
                None
            } else {
                Some(OnThreads::Workers {
                    size,
                    upto,
                    nodes,
                    count: workers,
                })
            }
        }
        Command::Check => None,
        Command::Bench { .. } => None,
    }
}
