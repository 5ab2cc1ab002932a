//! What is new of a slice's partitions, and what they have.

use crate::fault::Fault;
use crate::header::SliceLimits;
use jb_base::PackedList;

/// Results of a partition, faults that it skipped, and the fault by which it failed.
#[derive(Drop)]
pub struct PartitionOutput {
    pub results: PackedList,
    pub skips: Vec<Fault>,
    pub stop: Option<Fault>,
}

/// What some intervals of a slice have: the limits of the last one, and for each partition the results and the skipped faults of all of them,
/// and the stop of the last one.
#[derive(Drop)]
pub struct HeldSlice {
    pub limits: SliceLimits,
    pub partitions: Vec<PartitionOutput>,
}
