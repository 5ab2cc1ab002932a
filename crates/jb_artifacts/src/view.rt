//! What a collector sees.

use jb_rules::Counts;

/// A partition just after one of its chunks.
#[derive(Clone, Copy, Debug, PartialEq, Eq)]
pub struct RowView {
    /// The partition's number.
    pub partition: u32,
    /// The first record of its range.
    pub lo: u64,
    /// The number after its last record's.
    pub hi: u64,
    /// Its checkpoint: the number of the next record.
    pub at: u64,
    /// Its counts, including those of the chunk.
    pub counts: Counts,
    /// Whether this is the last call for the partition.
    pub last: bool,
}
