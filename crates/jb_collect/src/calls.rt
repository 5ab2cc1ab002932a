//! What an analyzer and a reducer are called with.

use jb_artifacts::Item;

/// The status of a step or a partition (Jakarta Batch 2.1, "Batch and Exit Status"; of its statuses, those that a step shows
/// here).
#[derive(Clone, Copy, Debug, PartialEq, Eq)]
pub enum Status {
    /// It runs.
    Started,
    /// It was stopped before its end.
    Stopped,
    /// A fault ended it.
    Failed,
    /// It came to its end.
    Completed,
}

/// How a partitioned step ended (Jakarta Batch 2.1, "Partition Reducer").
#[derive(Clone, Copy, Debug, PartialEq, Eq)]
pub enum PartitionStatus {
    /// Each partition is completed, and no callback failed.
    Commit,
    /// Anything else.
    Rollback,
}

/// A call of an analyzer, with the number of the partition, counted from 0.
#[derive(Drop)]
pub enum AnalyzerCall {
    /// A text of the partition's collector.
    Collected(u32, Item),
    /// How the partition ended, or that a stop left it unfinished.
    Status(u32, Status),
}

/// A call of a reducer.
#[derive(Clone, Copy, Debug, PartialEq, Eq)]
pub enum ReducerCall {
    /// The step begins.
    Begin,
    /// All partitions are completed, and the step is about to be.
    Before,
    /// The step is rolled back.
    Rollback,
    /// The step has ended.
    After(PartitionStatus),
}
