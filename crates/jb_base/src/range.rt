//! Ranges of records.

use crate::listed::Listed;

/// The records numbered from `lo` to `hi - 1`.
#[derive(Clone, Copy, Debug, PartialEq, Eq)]
pub struct Range {
    /// The first record.
    pub lo: u64,
    /// One past the last record.
    pub hi: u64,
}

/// The ranges of a partition plan, in order.
pub type Ranges = Listed<Range>;
