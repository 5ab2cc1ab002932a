//! What a repository shows of itself.

ghost use Rattle.jb_repo.specs.Sound.{IsTable};

use jb_rules::{Counts, Row};

/// A copy of a repository's rows, and what its history says as a whole.
///
/// The rows are 1 to 1,024, sound and of disjoint ranges, and `totals` is their sum: each snapshot keeps this.
#[derive(Debug, Drop)]
pub struct Snapshot {
    /// The rows of the partitions.
    pub rows: Vec<Row>,
    /// The sums of the rows' counts.
    pub totals: Counts,
    /// How many events the history has.
    pub events: u64,
    /// How many of them are plans.
    pub plans: u64,
    /// Whether a stop was asked for.
    pub stopping: bool,
    pub ghost sound: { IsTable rows.items totals },
}
