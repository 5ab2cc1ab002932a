//! The records of a step, and what its partitions work with.

use crate::lines::value;
use crate::step::meeting::Meetings;
use jb_artifacts::{
    ArtifactsOf, CountCollector, FaultList, FaultPlan, FaultPlans, Item, ItemProcessor, ListWriter,
    PrefixProcessor, TableReader,
};
use jb_base::{ArtifactError, ClassId, PackedList, Range, Ranges};
use jb_chunk::Task;
use jb_plan::PartitionPlan;
use jb_rules::Row;
use std::alloc::{AllocError, Global};
use std::sync::Arc;

/// What a partition works with.
pub(crate) type GivenArtifacts = ArtifactsOf<TableReader, Processor, ListWriter, CountCollector>;

/// A partition's task.
pub(crate) type Letters = Task<GivenArtifacts>;

/// A processor that puts an x before each record. It is out of memory the first time that it gets the record of this number. Before that it
/// comes to its meetings, if it has some.
#[derive(Drop)]
pub(crate) struct Processor {
    prefix: PrefixProcessor,
    wanting: Option<u64>,
    pub(crate) meetings: Option<Arc<Meetings>>,
}

impl ItemProcessor for Processor {
    ghost processor = { λ p. ⟦<PrefixProcessor as ItemProcessor>⟧.processor p.prefix };

    fn process_item(&mut self, number: u64, item: &[u8]) -> Result<Option<Item>, ArtifactError> {
        if let Some(meetings) = &self.meetings {
            meetings.come(number);
        }
        if self.wanting == Some(number) {
            self.wanting = None;
            return Err(ArtifactError::Memory);
        }
        self.prefix.process_item(number, item)
    }
}

/// The records of a line, and their partitions.
///
/// They are written as a text: each letter is a record, and each `/` ends a partition. The mark after a letter says how its processing
/// fails: `!` each time, `?` and `*` the first time. The class of `?` is 1, that of the others 0. `~` is no fault: the first time that the
/// record is processed, there is no memory.
#[derive(Drop)]
pub(crate) struct Given {
    records: PackedList,
    ranges: Vec<Range>,
    processes: FaultPlans,
    wanting: Option<u64>,
    /// The records that fail each time that they are processed.
    bad: Vec<u64>,
}

impl Given {
    pub(crate) fn read(alloc: Global, line: &str) -> Result<Given, AllocError> {
        let mut given = Given {
            records: PackedList::new(alloc),
            ranges: Vec::new(alloc),
            processes: FaultPlans::new(alloc),
            wanting: None,
            bad: Vec::new(alloc),
        };
        for sign in value(line, "records").unwrap_or("").as_bytes() {
            given.take(alloc, *sign)?;
        }
        Ok(given)
    }

    fn take(&mut self, alloc: Global, sign: u8) -> Result<(), AllocError> {
        let last = self.count().saturating_sub(1);
        match sign {
            b'!' => self.take_bad(last),
            b'*' => self.processes.insert(last, once(alloc, ClassId::new(0))?),
            b'?' => self.processes.insert(last, once(alloc, ClassId::new(1))?),
            sign => self.take_record(last, sign),
        }
    }

    fn take_bad(&mut self, last: u64) -> Result<(), AllocError> {
        self.bad.push(last)?;
        let bad = FaultPlan::Bad(ClassId::new(0));
        self.processes.insert(last, bad)
    }

    fn take_record(&mut self, last: u64, sign: u8) -> Result<(), AllocError> {
        match sign {
            b'/' => {
                let lo = self.ranges.last().map_or(0, |range| range.hi);
                let hi = self.count();
                self.ranges.push(Range { lo, hi })?;
            }
            b'~' => self.wanting = Some(last),
            letter => self.records.push(&[letter])?,
        }
        Ok(())
    }

    /// How many records there are.
    pub(crate) fn count(&self) -> u64 {
        self.records.len() as u64
    }

    /// The plan of these partitions.
    pub(crate) fn plan(self, threads: u32, replace: bool) -> PartitionPlan {
        PartitionPlan {
            ranges: Ranges::new(self.ranges),
            threads,
            replace,
        }
    }

    /// The results of the row's records before its checkpoint, but for those that fail each time.
    fn written(&self, alloc: Global, row: &Row) -> Result<PackedList, AllocError> {
        let mut written = PackedList::new(alloc);
        for index in 0..self.records.len() {
            let number = index as u64;
            if row.lo <= number && number < row.at && !self.bad.contains(&number) {
                written.push_joined(b"x", self.records.at(index))?;
            }
        }
        Ok(written)
    }

    /// The artifacts of one partition, whose writer has these results.
    fn artifacts(self, alloc: Global, written: PackedList) -> Result<GivenArtifacts, AllocError> {
        let prefix = Item::copy_of(alloc, b"x")?;
        let processor = Processor {
            prefix: PrefixProcessor::new(alloc, prefix, None, self.processes),
            wanting: self.wanting,
            meetings: None,
        };
        Ok(ArtifactsOf {
            reader: TableReader::new(alloc, 0, self.records, FaultPlans::new(alloc)),
            processor,
            writer: ListWriter::new(written, FaultPlans::new(alloc)),
            collector: CountCollector::new(alloc),
        })
    }
}

/// A fault of this class, once.
fn once(alloc: Global, class: ClassId) -> Result<FaultPlan, AllocError> {
    let classes = Vec::from_slice(alloc, &[class])?;
    Ok(FaultPlan::Shaky(FaultList::from_vec(classes)))
}

/// The artifacts of one partition of the line's records.
pub(crate) fn artifacts(alloc: Global, line: &str) -> Result<GivenArtifacts, AllocError> {
    Given::read(alloc, line)?.artifacts(alloc, PackedList::new(alloc))
}

/// The artifacts of one partition of records. Only the records that fail each time that they are processed were left out. The writer has
/// what was written up to the row's checkpoint.
pub(crate) fn artifacts_from(
    alloc: Global,
    line: &str,
    row: &Row,
) -> Result<GivenArtifacts, AllocError> {
    let given = Given::read(alloc, line)?;
    let written = given.written(alloc, row)?;
    given.artifacts(alloc, written)
}
