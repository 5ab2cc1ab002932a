//! What the rounds of the tests are made of.

ghost use Rattle.std.specs.Prelude.{◌≡◌, [], IfSome};
ghost use Rattle.jb_rules.specs.declared.row.RowState.TheVariants.{Waiting};
ghost use Rattle.jb_chunk.specs.TaskState.{IsReady};
ghost use Rattle.jb_workers.specs.Works.{AllCanBegin};

use jb_artifacts::{
    CountCollector, FaultPlans, Item, ItemProcessor, ListWriter, PrefixProcessor, TableReader,
};
use jb_base::{ArtifactError, MAX_ITEM_COUNT, PackedList, Range, Rules};
use jb_chunk::PartitionTask;
use jb_repo::{Repo, can_open};
use jb_rules::{Row, RowState};
use jb_workers::Work;
use std::alloc::{AllocError, Global};

/// No record is skipped, and no chunk is retried.
pub(crate) const RULES: Rules = Rules {
    skippable: 0,
    retryable: 0,
    no_rollback: 0,
    skip_limit: None,
    retry_limit: 0,
};

/// Two partitions of two letters each, of which none is read.
pub(crate) fn fresh_rows() -> [Row; 2] {
    [
        Row::fresh(Range { lo: 0, hi: 2 }),
        Row::fresh(Range { lo: 2, hi: 4 }),
    ]
}

/// A repository of these rows for two threads and chunks of two letters, if there is memory.
pub(crate) fn repository(alloc: Global, rows: &[Row]) -> Option<Repo>
    ensures { IfSome result (λ repo. repo.past ≡ []) }
{
    let rows = Vec::from_slice(alloc, rows).ok()?;
    if can_open(rows.as_slice(), 2, 2) {
        Some(Repo::new(rows, 2, 2))
    } else {
        None
    }
}

/// The letters a, b, c and d.
pub(crate) fn letters(alloc: Global) -> Result<TableReader, AllocError> {
    let mut records = PackedList::new(alloc);
    for byte in b"abcd" {
        records.push(&[*byte])?;
    }
    Ok(TableReader::new(alloc, 0, records, FaultPlans::new(alloc)))
}

/// A processor that puts an x before each item, or is out of memory at each.
#[derive(Drop)]
pub(crate) struct Processor {
    prefix: PrefixProcessor,
    memory: bool,
}

impl ItemProcessor for Processor {
    ghost processor = { λ p. ⟦<PrefixProcessor as ItemProcessor>⟧.processor p.prefix };

    fn process_item(&mut self, number: u64, item: &[u8]) -> Result<Option<Item>, ArtifactError> {
        if !self.memory {
            return Err(ArtifactError::Memory);
        }
        self.prefix.process_item(number, item)
    }
}

pub(crate) fn prefixing(
    alloc: Global,
    faults: FaultPlans,
    memory: bool,
) -> Result<Processor, AllocError> {
    let prefix = Item::copy_of(alloc, b"x")?;
    Ok(Processor {
        prefix: PrefixProcessor::new(alloc, prefix, None, faults),
        memory,
    })
}

/// A writer with no result yet.
pub(crate) fn writer(alloc: Global) -> ListWriter {
    ListWriter::new(PackedList::new(alloc), FaultPlans::new(alloc))
}

/// The artifacts of a partition, each in its own box. A test hands them on as objects.
#[derive(Drop)]
pub(crate) struct Boxed {
    pub(crate) reader: Box<TableReader>,
    pub(crate) processor: Box<Processor>,
    pub(crate) writer: Box<ListWriter>,
    pub(crate) collector: Box<CountCollector>,
}

/// The boxes of the letters, of a processor without faults, of a writer with no result yet, and of a collector.
pub(crate) fn boxes(alloc: Global) -> Result<Boxed, AllocError> {
    let reader = Box::new(alloc, letters(alloc)?)?;
    let processor = Box::new(alloc, prefixing(alloc, FaultPlans::new(alloc), true)?)?;
    let writer = Box::new(alloc, writer(alloc))?;
    let collector = Box::new(alloc, CountCollector::new(alloc))?;
    Ok(Boxed {
        reader,
        processor,
        writer,
        collector,
    })
}

/// The task of this row, if the row is sound and waits, and the artifacts serve it.
pub(crate) fn task_of<T: PartitionTask>(
    partition: u32,
    row: Row,
    rules: Rules,
    item_count: u64,
    artifacts: T::Artifacts,
) -> Option<T>
    ensures ready { IfSome result (λ task. IsReady (T.task_state task)) }
    ensures row { IfSome result (λ task. (T.task_state task).row ≡ row) }
    ensures waiting { IfSome result (λ task. row.state ≡ Waiting) }
{
    if row.sound()
        && row.state.is_waiting()
        && T::fits(&artifacts, &row)
        && 1 <= item_count
        && item_count <= MAX_ITEM_COUNT
    {
        Some(T::start(partition, row, rules, item_count, artifacts))
    } else {
        None
    }
}

/// The works with one more, if its row waits and there is memory.
pub(crate) fn with_work<T: PartitionTask>(
    works: Vec<Work<T>>,
    lane: u32,
    task: T,
) -> Option<Vec<Work<T>>>
    requires ready { IsReady (T.task_state task) }
    requires all { AllCanBegin T.task_state works.items }
    ensures { IfSome result (λ more. AllCanBegin T.task_state more.items) }
{
    if task.row().state != RowState::Waiting {
        return None;
    }
    let mut works = works;
    works.push(Work { lane, task }).ok()?;
    Some(works)
}
