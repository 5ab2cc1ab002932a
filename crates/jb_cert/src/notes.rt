//! What is noted of a plan that was run.

use crate::certificates::Certificate;

/// A plan of rounds, and how much of it was run.
#[derive(Clone, Copy, Debug, PartialEq, Eq)]
pub struct PlanNote {
    /// Why no plan has fewer rounds.
    pub certificate: Certificate,
    /// How many rounds were planned.
    pub planned: u64,
    /// How many of them were run.
    pub ran: u64,
}
