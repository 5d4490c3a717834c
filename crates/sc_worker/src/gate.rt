//! Where a caller may hold the actors of a run, to test what it does whatever their order is.

/// What the prover, actor 0, passes before each turn, and finder f, actor f, before its first candidate and after each.
/// It gives nothing.
pub trait Gate: Sync {
    fn pass(&self, actor: u32, point: u64);
}

/// Lets everybody pass.
#[derive(Clone, Copy, Debug)]
pub struct Open;

impl Gate for Open {
    fn pass(&self, _actor: u32, _point: u64) {}
}
