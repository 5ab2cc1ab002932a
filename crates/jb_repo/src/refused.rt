//! Why an event is refused.

use thiserror::Error;

/// Why an event is refused. `Repo::apply` lists the refusals of each event, and the first that holds is answered. `BadDelta` comes last
/// of those of a `Commit`, a `Roll` or a `Fail`, after `LaneRange` and `NotRunning`. It refuses a `Commit` that isn't one of the
/// partition's next block, and any of the three after more than 100,000 repeats in place.
#[derive(Clone, Copy, Debug, PartialEq, Eq, Error)]
pub enum Refused {
    /// A stop was asked for.
    #[error("Stopping")]
    Stopping,
    /// There is no such partition.
    #[error("NoPartition")]
    NoPartition,
    /// There is no such lane.
    #[error("LaneRange")]
    LaneRange,
    /// The lane has started a chunk in this round.
    #[error("LaneBusy")]
    LaneBusy,
    /// The partition's chunk of this round was started, or the partition is finished or has failed.
    #[error("NotIdle")]
    NotIdle,
    /// The lane runs no chunk.
    #[error("NotRunning")]
    NotRunning,
    /// The counts or the number of results are not those of a commit of the partition's next chunk. Or more than 100,000 calls of the
    /// chunk were repeated in place.
    #[error("BadDelta")]
    BadDelta,
    /// A lane runs, or a plan is open.
    #[error("StillRunning")]
    StillRunning,
    /// No plan is open.
    #[error("PastPlan")]
    PastPlan,
    /// The number of rounds is not the least one for the chunks that are left, or the certificate doesn't hold.
    #[error("BadPlan")]
    BadPlan,
    /// There was no memory for the event.
    #[error("no memory")]
    Memory,
    /// The history would pass 1,000,000,000 events, or the partition has as many rollbacks as it may have, or no room for 100,000
    /// repeats in place.
    #[error("Full")]
    Full,
}
