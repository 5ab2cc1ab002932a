//! Partitions given as a row of text: the records with commas between them, and after each, after a stroke, what goes wrong at it.
//!
//! `m`: the processor finds no memory for it once. `r`, `p` or `w`, a fault in reading, processing or writing it, and the letter of its
//! class: `s` is skipped, `t` retried, `i` repeated in place, and `f` fails the partition. A capital fails each call, and a small letter the
//! first alone.

use jb_artifacts::{
    ArtifactsOf, CountCollector, FaultList, FaultPlan, FaultPlans, Item, ListWriter,
    PrefixProcessor, TableReader,
};
use jb_base::{ClassId, MAX_ITEM_COUNT, PackedList, Range, Rules};
use jb_chunk::{PartitionArtifacts, PartitionTask, Task};
use jb_rules::Row;
use std::alloc::{AllocError, Global};
use std::test::*;

/// What a partition works with.
pub(super) type ReadyArtifacts = ArtifactsOf<
    TableReader,
    PrefixProcessor,
    ListWriter,
    CountCollector,
>;

/// What a row says.
#[derive(Drop)]
struct Told {
    records: PackedList,
    reads: FaultPlans,
    processes: FaultPlans,
    writes: FaultPlans,
    forgets: Option<u64>,
}

/// What comes of the calls by the letter of a class.
fn plan_of(alloc: Global, letter: u8) -> Result<FaultPlan, AllocError> {
    let class = match letter.to_ascii_lowercase() {
        b's' => ClassId::new(0),
        b't' => ClassId::new(1),
        b'i' => ClassId::new(2),
        _ => ClassId::new(3),
    };
    if letter.is_ascii_uppercase() {
        return Ok(FaultPlan::Bad(class));
    }
    let once = Vec::from_slice(alloc, &[class])?;
    Ok(FaultPlan::Shaky(FaultList::from_vec(once)))
}

impl Told {
    /// Notes what goes wrong at the record of this number.
    fn add_mark(&mut self, alloc: Global, number: u64, mark: &[u8]) -> Result<(), Fail> {
        match mark {
            [b'm'] => self.forgets = Some(number),
            [b'r', class] => self.reads.insert(number, plan_of(alloc, *class)?)?,
            [b'p', class] => self.processes.insert(number, plan_of(alloc, *class)?)?,
            [b'w', class] => self.writes.insert(number, plan_of(alloc, *class)?)?,
            _ => return Err(Fail::from("a mark")),
        }
        Ok(())
    }

    /// Adds a record with what goes wrong at it.
    fn add(&mut self, alloc: Global, told: &str) -> Result<(), Fail> {
        let number = self.records.len() as u64;
        let mut parts = told.split('/');
        let text = parts.next().ok_or("a text")?;
        self.records.push(text.as_bytes())?;
        for mark in parts {
            self.add_mark(alloc, number, mark.as_bytes())?;
        }
        Ok(())
    }
}

fn told_by(alloc: Global, row: &str) -> Result<Told, Fail> {
    let mut told = Told {
        records: PackedList::new(alloc),
        reads: FaultPlans::new(alloc),
        processes: FaultPlans::new(alloc),
        writes: FaultPlans::new(alloc),
        forgets: None,
    };
    for record in row.split(',') {
        told.add(alloc, record)?;
    }
    Ok(told)
}

/// Artifacts over what a row says, and the record at which the processor is to find no memory. The processor puts an x before each record
/// and filters those that begin with z.
pub(super) fn artifacts_of(
    alloc: Global,
    row: &str,
) -> Result<(ReadyArtifacts, Option<u64>), Fail> {
    let told = told_by(alloc, row)?;
    let prefix = Item::copy_of(alloc, b"x")?;
    let dropped = Some(Item::copy_of(alloc, b"z")?);
    let artifacts = ArtifactsOf {
        reader: TableReader::new(alloc, 0, told.records, told.reads),
        processor: PrefixProcessor::new(alloc, prefix, dropped, told.processes),
        writer: ListWriter::new(PackedList::new(alloc), told.writes),
        collector: CountCollector::new(alloc),
    };
    Ok((artifacts, told.forgets))
}

/// A task over so many records, in chunks of so many, if the artifacts serve them.
pub(super) fn begun<A: PartitionArtifacts + Send>(
    hi: u64,
    item_count: u64,
    artifacts: A,
) -> Option<Task<A>> {
    if item_count < 1 || item_count > MAX_ITEM_COUNT {
        return None;
    }
    let row = Row::fresh(Range { lo: 0, hi });
    if !row.sound() || !row.state.is_waiting() || !Task::fits(&artifacts, &row) {
        return None;
    }
    let rules = Rules {
        skippable: 0b01,
        retryable: 0b110,
        no_rollback: 0b100,
        skip_limit: None,
        retry_limit: 10,
    };
    Some(Task::start(0, row, rules, item_count, artifacts))
}
