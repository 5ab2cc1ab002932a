//! The reader of a partition's records.

ghost use Rattle.std.specs.Prelude.{◌≡◌, ◌≤◌, ◌+◌, ◌<◌, ◌^◌, length};
ghost use Rattle.std.specs.Arc.{arc_value};
ghost use Rattle.jb_artifacts.specs.declared.faults.FaultPlan.TheVariants.{Sound};

use jb_artifacts::{Item, ItemReader, LendingReader, record_of};
use jb_base::{ArtifactError, PackedList};
use std::alloc::Global;
use std::sync::Arc;

/// The reader of a partition's records, which it shares with the processor. No read fails.
#[derive(Drop)]
pub struct RecordsReader {
    alloc: Global,
    first: u64,
    records: Arc<PackedList, Global>,
    place: u64,
    ghost numbered: { first + length (arc_value records) < 2 ^ 64 },
    ghost from: { first ≤ place },
    ghost to: { place ≤ first + length (arc_value records) },
}

impl RecordsReader {
    /// The reader of these records, the first of which has the number `first`. It is at the first record. Takes no memory.
    pub(crate) fn new(alloc: Global, first: u64, records: Arc<PackedList, Global>) -> RecordsReader
        requires { first + length (arc_value records) < 2 ^ 64 }
        ensures { ⟦<RecordsReader as ItemReader>⟧.reader result ≡ record { first = first; records = arc_value records; place = first; faults = λ _. Sound } }
    {
        RecordsReader {
            alloc,
            first,
            records,
            place: first,
        }
    }
}

impl ItemReader for RecordsReader {
    ghost reader = { λ r. record { first = r.first; records = arc_value r.records; place = r.place; faults = λ _. Sound } };

    fn first(&self) -> u64 {
        self.first
    }

    fn end(&self) -> u64 {
        self.first + self.records.len() as u64
    }

    fn place(&self) -> u64 {
        self.place
    }

    fn open_at(&mut self, at: u64) {
        self.place = at;
    }

    fn read_item(&mut self) -> Result<Option<Item>, ArtifactError> {
        if self.place >= self.end() {
            return Ok(None);
        }
        let item = Item::copy_of(self.alloc, self.record(self.place))?;
        self.place += 1;
        Ok(Some(item))
    }
}

impl LendingReader for RecordsReader {
    fn pass_item(&mut self) -> Result<(), ArtifactError> {
        self.place += 1;
        Ok(())
    }

    fn record(&self, number: u64) -> &[u8] {
        record_of(&self.records, self.first, number)
    }
}
