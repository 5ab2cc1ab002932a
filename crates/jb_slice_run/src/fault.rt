//! A fault of a slice's item, and those of a partition.

use jb_base::ClassId;

/// A fault: the number of its item in the job, the first being 0, and its class.
#[derive(Clone, Copy, Debug)]
pub struct Fault {
    pub number: u64,
    pub class: ClassId,
}

/// The faults of a partition, by the stored checkpoints.
#[derive(Drop)]
pub struct PartitionFaults {
    /// The faults that it skipped.
    pub skips: Vec<Fault>,
    /// The fault by which it failed in the last interval.
    pub stop: Option<Fault>,
}
