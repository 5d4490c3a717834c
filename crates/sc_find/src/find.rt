//! The first model of a job or of a piece of it.

ghost use Rattle.std.specs.Prelude.{◌≡◌, ℕ, [], Option as AnOption, IfOk};
ghost use Rattle.sc_cells.specs.Cells.{AreCells, IsConsistent};
ghost use Rattle.sc_find.specs.Answers.{IsAsked, IsFound, value_in};
ghost use Rattle.sc_find.specs.Watching.{IsWatching};

use crate::answer::{Found, Piece};
use crate::job::Job;
use crate::search::{SearchEnd, search};
use crate::watches::Watches;
use sc_find_given::Given;
use sc_term::Mem;
use std::alloc::Global;

/// The value that cell 0 has in the piece of a job with so many cells, if it has to have one.
fn value_of(piece: Piece, cells: usize) -> Option<u8>
    ensures { result ≡ value_in piece cells }
{
    match piece {
        Piece::Whole => None,
        Piece::First(number) => {
            if cells == 0 {
                None
            } else {
                Some(number.saturating_sub(1))
            }
        }
    }
}

/// The search where no cell has a value, and no instance is false.
fn found(
    alloc: Global,
    job: &Job,
    value: Option<u8>,
    budget: u64,
    given: &mut Given,
    watches: &mut Watches,
) -> Mem<Found>
    requires cells { AreCells job.now.sig job.now.size given.old.cells }
    requires empty { given.old.values ≡ [] }
    requires consistent { IsConsistent job.now.clauses job.now.size given.old }
    requires watched { IsWatching job.now given.old watches.old }
    ensures { IfOk result (λ found. IsFound job.now value budget found) }
{
    match search(job, value, budget, given, watches)? {
        SearchEnd::Full => Ok(Found::Model(job.tables_with(alloc, given.values())?)),
        SearchEnd::Exhausted => Ok(Found::None),
        SearchEnd::Spent => Ok(Found::Spent),
    }
}

/// The first model of the job, or of the piece; that there is none; or that the plain count of nodes is more than the
/// budget (`IsFound`). The piece has to be one of the job's. A node's time is that of the instances that wait for its cell;
/// memory is taken for watches alone, of which no instance has more at a time than entries that it reads.
pub fn find_first(alloc: Global, job: &Job, piece: Piece, budget: u64) -> Mem<Found>
    requires { (value : AnOption ℕ) × IsAsked job.now piece value }
    ensures { IfOk result (λ found. (value : AnOption ℕ) → IsAsked job.now piece value → IsFound job.now value budget found) }
{
    let mut given = job.no_values(alloc)?;
    let mut watches = Watches::new(alloc, given.cell_len())?;
    if !job.watch(&given, &mut watches)? {
        return Ok(Found::None);
    }
    let value = value_of(piece, given.cell_len());
    Ok(found(alloc, job, value, budget, &mut given, &mut watches)?)
}
