//! A reader over a table of records.

ghost use Rattle.std.specs.Prelude.{◌≡◌, ◌≤◌, ◌+◌, ◌<◌, ◌^◌, length};
ghost use Rattle.jb_artifacts.specs.Faults.{plans_of};

use crate::fault_plans::FaultPlans;
use crate::interfaces::ItemReader;
use crate::item::Item;
use crate::lending_reader::{LendingReader, record_of};
use jb_base::{ArtifactError, PackedList};
use std::alloc::Global;

/// A reader over a table of records, with a fault plan for the reading of each.
#[derive(Drop)]
pub struct TableReader {
    alloc: Global,
    first: u64,
    end: u64,
    records: PackedList,
    place: u64,
    faults: FaultPlans,
    ghost numbered: { end ≡ first + length records },
    ghost from: { first ≤ place },
    ghost to: { place ≤ end },
}

impl TableReader {
    /// A reader of these records, the first of which has the number `first`. It begins at the first. Where
    /// `first` isn't 0, the number after the last one must fit in a `u64`. Takes no memory.
    pub fn new(alloc: Global, first: u64, records: PackedList, faults: FaultPlans) -> TableReader
        requires numbered { 0 < first → first + length records < 2 ^ 64 }
        ensures { ⟦<TableReader as ItemReader>⟧.reader result
            ≡ record { first = first; records = records; place = first; faults = plans_of faults } }
    {
        TableReader {
            alloc,
            first,
            end: first + records.len() as u64,
            records,
            place: first,
            faults,
        }
    }
}

impl ItemReader for TableReader {
    ghost reader = { λ t. record { first = t.first; records = t.records; place = t.place; faults = plans_of t.faults } };

    fn first(&self) -> u64 {
        self.first
    }

    fn end(&self) -> u64 {
        self.end
    }

    fn place(&self) -> u64 {
        self.place
    }

    fn open_at(&mut self, at: u64) {
        self.place = at;
    }

    fn read_item(&mut self) -> Result<Option<Item>, ArtifactError> {
        if self.place == self.end {
            return Ok(None);
        }
        if let Some(class) = self.faults.strike(self.place) {
            self.place += 1;
            return Err(ArtifactError::Fault(class));
        }
        let record = Item::copy_of(self.alloc, self.record(self.place))?;
        self.place += 1;
        Ok(Some(record))
    }
}

impl LendingReader for TableReader {
    fn pass_item(&mut self) -> Result<(), ArtifactError> {
        let number = self.place;
        self.place += 1;
        match self.faults.strike(number) {
            Some(class) => Err(ArtifactError::Fault(class)),
            None => Ok(()),
        }
    }

    fn record(&self, number: u64) -> &[u8] {
        record_of(&self.records, self.first, number)
    }
}
