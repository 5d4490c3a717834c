//! What the bound keeps: laws without a body's work.

ghost use Rattle.sc_least.specs.Full.{BeginsWithinBound, FirstIsWithinBound, NoneWithinBoundMeansNone};

/// A law: where values for the first cells begin a list of values for all cells that makes every clause true, they begin
/// one whose next value is at most the bound.
pub fn begins_within_bound()
    ensures { BeginsWithinBound }
{}

/// A law: in the first of the lists for all cells that make every clause true, each value is at most its bound. The same
/// holds of the first of those that begin with some fixed values, as those of a piece do, of the values after these.
pub fn first_is_within_bound()
    ensures { FirstIsWithinBound }
{}

/// A law: where no list for all cells that makes every clause true goes on with a value up to the bound, none goes on at
/// all. So a search needn't try a greater value.
pub fn none_within_bound_means_none()
    ensures { NoneWithinBoundMeansNone }
{}
