//! How a step runs its records.

ghost use Rattle.std.specs.Prelude.{◌≡◌, ◌≤◌, IfOk};
ghost use Rattle.jb_base.specs.Limits.{max_item_count, max_partitions_asked, max_threads_asked};

use jb_base::{Name, Rules};
use std::alloc::{AllocError, Global};

/// A step over records: its name in its saved rows, its partitions (which divide the records evenly), its threads, the number of records in
/// a chunk, and what is skipped and retried.
#[derive(Drop)]
pub struct RecordsStep {
    pub id: Name,
    /// 1 to 4,096, of which a step takes 1,024 at most.
    pub partitions: u32,
    /// At most 4,096, of which a step uses 64. At 0 it is the number of partitions.
    pub threads: u32,
    /// 1 to 1,000,000.
    pub item_count: u64,
    pub rules: Rules,
    pub ghost some: { 1 ≤ partitions },
    pub ghost few: { partitions ≤ max_partitions_asked },
    pub ghost few_threads: { threads ≤ max_threads_asked },
    pub ghost items: { 1 ≤ item_count },
    pub ghost few_items: { item_count ≤ max_item_count },
}

impl RecordsStep {
    /// The same step once more.
    pub(crate) fn copy(&self, alloc: Global) -> Result<RecordsStep, AllocError>
        ensures { IfOk result (λ step. step ≡ self.now) }
    {
        let id = Name::new(String::from_str(alloc, self.id.as_str())?);
        Ok(RecordsStep {
            id,
            partitions: self.partitions,
            threads: self.threads,
            item_count: self.item_count,
            rules: self.rules,
        })
    }
}
