//! How a turn ends.

/// The run goes on, or has ended: by an empty clause, for want of clauses in sos, or at a limit.
#[derive(Clone, Copy, Debug, PartialEq, Eq)]
pub enum TurnEnd {
    Went,
    Proof,
    SosEmpty,
    GivenLimit,
    KeptLimit,
    WorkLimit,
}
