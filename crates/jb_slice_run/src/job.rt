//! What a run of a slice needs of its job.

ghost use Rattle.std.specs.Prelude.{◌≤◌};
ghost use Rattle.std.specs.Option.{ForSome};
ghost use Rattle.jb_base.specs.Limits.{max_item_count, max_partitions_asked, max_retry_limit, max_skip_limit, max_threads_asked};

use crate::header::SliceLimits;
use jb_base::Name;

/// What a run of a slice needs of its job: its identity and limits, the stamp of its function, the other stamps that it accepts, and its threads.
#[derive(Clone, Copy)]
pub struct SliceJob<'a> {
    /// The job's name.
    pub name: &'a Name,
    /// How many items each slice but the last one has.
    pub slice_length: u64,
    /// How many partitions a slice has: 1 to 4,096. A step takes 1,024 at most.
    pub partitions: u32,
    /// How many items a chunk has: 1 to 1,000,000.
    pub item_count: u64,
    /// The names of the classes of faults: the first has the number 0.
    pub classes: &'a [&'a str],
    /// The classes that may be skipped, one bit for each.
    pub skippable: u64,
    /// Those that may be retried.
    pub retryable: u64,
    /// Those that roll nothing back.
    pub no_rollback: u64,
    /// At most 10,000,000 skips in a partition, and 100,000 retries.
    pub limits: SliceLimits,
    /// A text that the author changes with the function.
    pub stamp: &'a str,
    /// The stamps of functions that do the same. A slice with one of them is resumed.
    pub stamps: &'a [&'a str],
    /// At most 4,096, of which a step uses 64. 0 means one for each partition.
    pub threads: u32,
    pub ghost some: { 1 ≤ partitions },
    pub ghost few: { partitions ≤ max_partitions_asked },
    pub ghost few_threads: { threads ≤ max_threads_asked },
    pub ghost some_items: { 1 ≤ item_count },
    pub ghost few_items: { item_count ≤ max_item_count },
    pub ghost few_skips: { ForSome limits.skips (λ limit. limit ≤ max_skip_limit) },
    pub ghost few_retries: { limits.retries ≤ max_retry_limit },
}
