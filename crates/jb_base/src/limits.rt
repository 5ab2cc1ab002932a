//! The limits as constants of the code. Definitions and contracts have them as numbers, in `specs/Limits`.

ghost use Rattle.std.specs.Prelude.{◌≡◌};
ghost use Rattle.jb_base.specs.Limits.{max_steps, max_name, max_classes, max_class_names, max_item_count, default_item_count, max_skip_limit, max_retry_limit, default_retry_limit, max_partitions_asked, max_threads_asked, max_ranges, max_records, max_partitions, max_threads, max_rollbacks, max_in_place, max_load_partitions, max_chunks, max_events, max_parts, max_rounds, max_record, max_affix, max_entries, max_entry_classes, max_place};

/// The most steps of a job.
pub const MAX_STEPS: usize = 16;

/// The most bytes of the name of a job, of a step or of a fault class.
pub const MAX_NAME: usize = 64;

/// The most fault classes that a job declares, repeated ones included.
pub const MAX_CLASSES: usize = 64;

/// The most names of an include or exclude list.
pub const MAX_CLASS_NAMES: usize = 128;

/// The most items of a chunk.
pub const MAX_ITEM_COUNT: u64 = 1_000_000;

/// The item count where the key is absent (Jakarta Batch 2.1, "Chunk").
pub const DEFAULT_ITEM_COUNT: u64 = 10;

/// The most faults that a partition skips, where it has a limit.
pub const MAX_SKIP_LIMIT: u64 = 10_000_000;

/// The most retries of a partition: chunks that are rolled back to be done again, and calls repeated in place.
pub const MAX_RETRY_LIMIT: u64 = 100_000;

/// The retry limit where the key is absent.
pub const DEFAULT_RETRY_LIMIT: u64 = 1_000;

/// The most even partitions that a plan may ask for.
pub const MAX_PARTITIONS_ASKED: u32 = 4_096;

/// The most threads that a plan may ask for.
pub const MAX_THREADS_ASKED: u32 = 4_096;

/// The most ranges that a plan may ask for.
pub const MAX_RANGES: usize = 4_096;

/// The most records of a step.
pub const MAX_RECORDS: u64 = 10_000_000;

/// The most partitions of a step.
pub const MAX_PARTITIONS: usize = 1_024;

/// The most threads that a step uses, however many its plan asks for, and the most threads of a load.
pub const MAX_THREADS: u32 = 64;

/// The most rollbacks of a partition, over all restarts.
pub const MAX_ROLLBACKS: u64 = 1_000_000_000_000;

/// The most calls of a partition that are repeated in place, over all restarts.
pub const MAX_IN_PLACE: u64 = 1_000_000_000_000;

/// The most partitions of a load, of which rounds are planned.
pub const MAX_LOAD_PARTITIONS: usize = 4_096;

/// The most chunks of a load, all partitions together.
pub const MAX_CHUNKS: u64 = 10_000_000;

/// The most events of a history, with the places that are reserved for outcomes.
pub const MAX_EVENTS: usize = 1_000_000_000;

/// The parts of the ledger of a desk's commits: as many commits can be in progress at once.
pub const MAX_PARTS: u64 = 1_000_000_000_000;

/// The most rounds that a command line may ask for.
pub const MAX_ROUNDS: u64 = 1_000_000_000;

/// The most bytes of a record.
pub const MAX_RECORD: usize = 4_096;

/// The most bytes of a prefix, and of the text with which filtered items begin.
pub const MAX_AFFIX: usize = 64;

/// The most entries of a list of faults.
pub const MAX_ENTRIES: usize = 10_000_000;

/// The most classes of an entry of a list of faults.
pub const MAX_ENTRY_CLASSES: usize = 1_000;

/// The largest number of a lane or of a partition in a document.
pub const MAX_PLACE: u64 = 4_294_967_295;

/// The law of the limits: each constant equals the number in the definitions.
pub fn limits_are_as_defined()
    ensures steps { MAX_STEPS ≡ max_steps }
    ensures name { MAX_NAME ≡ max_name }
    ensures classes { MAX_CLASSES ≡ max_classes }
    ensures class_names { MAX_CLASS_NAMES ≡ max_class_names }
    ensures item_count { MAX_ITEM_COUNT ≡ max_item_count }
    ensures own_item_count { DEFAULT_ITEM_COUNT ≡ default_item_count }
    ensures skip_limit { MAX_SKIP_LIMIT ≡ max_skip_limit }
    ensures retry_limit { MAX_RETRY_LIMIT ≡ max_retry_limit }
    ensures own_retry_limit { DEFAULT_RETRY_LIMIT ≡ default_retry_limit }
    ensures partitions_asked { MAX_PARTITIONS_ASKED ≡ max_partitions_asked }
    ensures threads_asked { MAX_THREADS_ASKED ≡ max_threads_asked }
    ensures ranges { MAX_RANGES ≡ max_ranges }
    ensures records { MAX_RECORDS ≡ max_records }
    ensures partitions { MAX_PARTITIONS ≡ max_partitions }
    ensures threads { MAX_THREADS ≡ max_threads }
    ensures rollbacks { MAX_ROLLBACKS ≡ max_rollbacks }
    ensures in_place { MAX_IN_PLACE ≡ max_in_place }
    ensures load_partitions { MAX_LOAD_PARTITIONS ≡ max_load_partitions }
    ensures chunks { MAX_CHUNKS ≡ max_chunks }
    ensures events { MAX_EVENTS ≡ max_events }
    ensures parts { MAX_PARTS ≡ max_parts }
    ensures rounds { MAX_ROUNDS ≡ max_rounds }
    ensures record_bytes { MAX_RECORD ≡ max_record }
    ensures affix { MAX_AFFIX ≡ max_affix }
    ensures entries { MAX_ENTRIES ≡ max_entries }
    ensures entry_classes { MAX_ENTRY_CLASSES ≡ max_entry_classes }
    ensures place { MAX_PLACE ≡ max_place }
{}
