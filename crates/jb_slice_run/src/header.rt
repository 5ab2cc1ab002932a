//! What a header says.

/// A job's limits.
#[derive(Clone, Copy, Debug)]
pub struct SliceLimits {
    /// How many faults a partition of a slice may skip. `None` is no limit.
    pub skips: Option<u64>,
    /// How many faults the job may skip. `None` is no limit.
    pub job_skips: Option<u64>,
    /// How many retries a partition of a slice may make.
    pub retries: u64,
}

/// What a header says: the job's identity, its limits, the function's stamp, and which slice it is.
#[derive(Clone, Copy)]
pub struct SliceHeader<'a> {
    /// The job's name.
    pub name: &'a str,
    /// How many items each slice but the last one has.
    pub slice_length: u64,
    /// How many partitions a slice has.
    pub partitions: u32,
    /// How many items a chunk has.
    pub item_count: u64,
    /// The names of the classes of faults: the first has the number 0.
    pub classes: &'a [&'a str],
    /// The classes that may be skipped, one bit for each.
    pub skippable: u64,
    /// Those that may be retried.
    pub retryable: u64,
    /// Those that roll nothing back.
    pub no_rollback: u64,
    pub limits: SliceLimits,
    /// A text that the author changes with the function.
    pub stamp: &'a str,
    /// The slice's number, the first being 0.
    pub number: u64,
    /// How many items it has.
    pub items: u64,
    /// The digest of these items.
    pub digest: [u8; 32],
}
