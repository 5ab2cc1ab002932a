//! Where a worker comes by before and after its attempt.

/// Where a worker comes by before and after its attempt. The rounds of a desk are numbered from 0.
pub trait Gate: Sync {
    /// Called once the worker's Begin is accepted.
    fn arrive(&self, lane: u32, round: u64);

    /// Called once the event of its attempt was accepted or refused.
    fn leave(&self, lane: u32, round: u64);
}

/// A gate that is open.
#[derive(Clone, Copy)]
pub struct NoGate;

impl Gate for NoGate {
    fn arrive(&self, _lane: u32, _round: u64) {}

    fn leave(&self, _lane: u32, _round: u64) {}
}
