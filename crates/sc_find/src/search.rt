//! The search, depth first, for the first model.

ghost use Rattle.std.specs.Prelude.{◌≡◌, ◌≤◌, [], Some, IfOk, length, slice_get};
ghost use Rattle.sc_cells.specs.Cells.{Entry, AreCells, IsConsistent, values_below};
ghost use Rattle.sc_least.specs.Bound.{least_number};
ghost use Rattle.sc_find.specs.Search.{HasEnded, first_of, end_of};
ghost use Rattle.sc_find.specs.Watching.{IsWatching};

use crate::job::Job;
use crate::waking::take_back;
use crate::watches::Watches;
use sc_find_given::Given;
use sc_term::{MAX_SIZE, Mem};

/// How a search ended: all cells have values, every value was tried, or there would be more nodes than the budget.
#[derive(Clone, Copy, Debug, PartialEq, Eq)]
pub enum SearchEnd {
    Full,
    Exhausted,
    Spent,
}

/// The least value to try for cell 0.
fn first_value(piece: Option<u8>) -> u8
    ensures { result ≡ first_of piece }
{
    match piece {
        Some(value) => value.min(MAX_SIZE),
        None => 0,
    }
}

/// The number after the last value to try for a cell that has so many and that bound.
fn end_value(piece: Option<u8>, number: usize, count: u8, bound: u8) -> u8
    requires { count ≤ 8 }
    ensures { result ≡ end_of piece number count bound }
{
    match piece {
        Some(value) if number == 0 => count.min(value.saturating_add(1)),
        _ => count.min(bound.saturating_add(1)),
    }
}

/// The number after the last value to try for the next cell, if there is one.
fn end_behind(job: &Job, piece: Option<u8>, given: &Given) -> u8
    requires { AreCells job.now.sig job.now.size given.now.cells }
    ensures { (cell : Entry) → slice_get given.now.cells (length given.now.values) ≡ Some cell
        → result ≡ end_of piece (length given.now.values) (values_below job.now.sig job.now.size cell) (least_number job.now.sig job.now.size given.now.cells given.now.values) }
{
    let number = given.len();
    if number >= given.cell_len() {
        return 0;
    }
    let count = job.count_values_at(number);
    end_value(piece, number, count, job.bound_behind(given.values()))
}

/// Gives the cells the values of the first model in which cell 0 has the value of the piece, if one is asked for, or
/// says that there is none or that the plain count of nodes exceeds the budget. No value above its bound is tried, but for
/// that of the piece: whatever model has one, another has a smaller one in its place (`BeginsWithinBound`). It gives up before it enters more nodes
/// than the budget, which no clause says: a better search may go on.
pub fn search(
    job: &Job,
    piece: Option<u8>,
    budget: u64,
    given: &mut Given,
    watches: &mut Watches,
) -> Mem<SearchEnd>
    requires cells { AreCells job.now.sig job.now.size given.old.cells }
    requires empty { given.old.values ≡ [] }
    requires consistent { IsConsistent job.now.clauses job.now.size given.old }
    requires watched { IsWatching job.now given.old watches.old }
    ensures { IfOk result (HasEnded job.now piece budget given.old.cells given.new) }
{
    job.keeps();
    let mut next = first_value(piece);
    let mut end = end_behind(job, piece, given);
    let mut nodes: u64 = 0;
    while given.len() < given.cell_len() {
        let number = given.len();
        if next < end {
            let enters = job.enters(given, watches, next)?;
            if enters {
                if nodes == budget {
                    return Ok(SearchEnd::Spent);
                }
                nodes += 1;
                next = 0;
                end = end_behind(job, piece, given);
            } else {
                next += 1;
            }
        } else {
            if number == 0 {
                return Ok(SearchEnd::Exhausted);
            }
            next = take_back(given, watches) + 1;
            end = end_behind(job, piece, given);
        }
    }
    Ok(SearchEnd::Full)
}
