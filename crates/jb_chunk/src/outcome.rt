//! How an attempt at a chunk ends.

use crate::task::Task;
use jb_artifacts::Item;
use jb_base::ClassId;
use jb_rules::Counts;

/// How an attempt ended.
#[derive(Clone, Copy, Debug, PartialEq, Eq)]
pub enum Outcome {
    /// The chunk was committed, with what it adds to the counts.
    Committed(Counts),
    /// The chunk was rolled back for a fault of this class, and is to be retried.
    Rolled(ClassId),
    /// The partition failed with a fault of this class.
    Failed(ClassId),
    /// There was no memory for the chunk.
    NoMemory,
}

/// A task after an attempt.
#[derive(Drop)]
pub struct Done<T = Task> {
    /// The task as the attempt left it.
    pub task: T,
    /// How the attempt ended.
    pub outcome: Outcome,
    /// The collector's texts: one for a chunk that was committed, and one more where it finished the partition.
    pub values: Vec<Item>,
    /// How often the attempt repeated a call in place: at most 100,000 times. Each repeat was a retry.
    pub again: u64,
}
