//! What a job over CSV is called, and how it runs.

ghost use Rattle.std.specs.Prelude.{◌≤◌, length};
ghost use Rattle.std.specs.Option.{ForSome};
ghost use Rattle.jb_base.specs.Limits.{max_classes, max_item_count, max_partitions_asked, max_records, max_retry_limit, max_skip_limit};
ghost use Rattle.jb_base.specs.Name.{IsName};

use jb_ready::FaultClass;
use jb_rows::RowsOptions;

/// How many records a slice has, if the job has no reason for another number.
pub const DEFAULT_SLICE_LENGTH: u64 = 100_000;

/// What a job over CSV is called, and how it runs. Its identity is its name, the slice length, the partitions, the item count and the classes
/// of faults: a folder's slices are of one identity. Its limits may be raised later.
#[derive(Clone, Copy)]
pub struct CsvJob<'a> {
    /// The name of the program and of its step, of 1 to 64 bytes.
    pub name: &'a str,
    /// What the usage calls the text on standard input, as `SHEETS`.
    pub input: &'a str,
    /// What its records are, as `time sheets`.
    pub records: &'a str,
    /// What its results are, as `pay slips`.
    pub results: &'a str,
    /// How the text is read, and the results are written.
    pub options: RowsOptions,
    /// How many records a slice has, but for the last one: 1 to 10,000,000. The memory that a job takes is that of one slice.
    pub slice_length: u64,
    /// How many partitions a slice has: 1 to 4,096, of which a step takes 1,024 at most.
    pub partitions: u32,
    /// How many records a chunk has, 1 to 1,000,000.
    pub item_count: u64,
    /// The classes of faults, at most 64: the first has the number 0.
    pub classes: &'a [FaultClass<'a>],
    /// How many faults a partition of a slice skips, at most 10,000,000. With none there is no limit.
    pub skip_limit: Option<u64>,
    /// How many faults all slices that are done skip. With none there is no limit.
    pub job_skip_limit: Option<u64>,
    /// How many retries a partition of a slice makes, at most 100,000.
    pub retry_limit: u64,
    /// A text that the author changes with the function, as `1`. A slice that another stamp's function ran is refused, unless the call keeps that
    /// stamp.
    pub stamp: &'a str,
    pub ghost named: { IsName name.now },
    pub ghost some_records: { 1 ≤ slice_length },
    pub ghost few_records: { slice_length ≤ max_records },
    pub ghost some: { 1 ≤ partitions },
    pub ghost few: { partitions ≤ max_partitions_asked },
    pub ghost items: { 1 ≤ item_count },
    pub ghost few_items: { item_count ≤ max_item_count },
    pub ghost few_classes: { length classes.now ≤ max_classes },
    pub ghost few_skips: { ForSome skip_limit (λ limit. limit ≤ max_skip_limit) },
    pub ghost few_retries: { retry_limit ≤ max_retry_limit },
}
