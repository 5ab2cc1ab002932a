//! A reader of records that are shared.

ghost use Rattle.std.specs.Prelude.{◌≡◌, ◌≤◌, ◌-◌, [], length, slice_index_or};
ghost use Rattle.std.specs.Arc.{arc_value};
ghost use Rattle.jb_artifacts.specs.Faults.{plans_of};
ghost use Rattle.jb_plan.specs.Plans.{IsWithin};
ghost use Rattle.jb_program.specs.PartitionRun.{records_in};

use jb_artifacts::{FaultPlans, Item, ItemReader, LendingReader};
use jb_base::{ArtifactError, PackedList, Range};
use std::alloc::Global;
use std::sync::Arc;

/// A reader of a range of records, which all partitions of a step share, with a fault plan for the reading of each.
#[derive(Drop)]
pub struct SharedReader {
    alloc: Global,
    records: Arc<PackedList>,
    range: Range,
    place: u64,
    faults: FaultPlans,
    ghost within: { IsWithin (length (arc_value records)) range },
    ghost from: { range.lo ≤ place },
    ghost to: { place ≤ range.hi },
}

impl SharedReader {
    /// A reader of the range's records, at the first. Takes no memory.
    pub fn new(
        alloc: Global,
        records: Arc<PackedList>,
        range: Range,
        faults: FaultPlans,
    ) -> SharedReader
        requires { IsWithin (length (arc_value records)) range }
        ensures { ⟦<SharedReader as ItemReader>⟧.reader result
            ≡ record { first = range.lo; records = records_in (arc_value records) range; place = range.lo; faults = plans_of faults } }
    {
        SharedReader {
            alloc,
            records,
            range,
            place: range.lo,
            faults,
        }
    }
}

impl ItemReader for SharedReader {
    ghost reader = { λ t. record { first = t.range.lo; records = records_in (arc_value t.records) t.range; place = t.place; faults = plans_of t.faults } };

    fn first(&self) -> u64 {
        self.range.lo
    }

    fn end(&self) -> u64 {
        self.range.hi
    }

    fn place(&self) -> u64 {
        self.place
    }

    fn open_at(&mut self, at: u64) {
        self.place = at;
    }

    fn read_item(&mut self) -> Result<Option<Item>, ArtifactError> {
        if self.place == self.range.hi {
            return Ok(None);
        }
        if let Some(class) = self.faults.strike(self.place) {
            self.place += 1;
            return Err(ArtifactError::Fault(class));
        }
        let record = Item::copy_of(self.alloc, self.record(self.place))?;
        self.place += 1;
        Ok(Some(record))
    }
}

impl LendingReader for SharedReader {
    fn pass_item(&mut self) -> Result<(), ArtifactError> {
        let number = self.place;
        // Unused, but it brings the type's invariant into the proof: how high the end may be.
        let _end = self.range.hi;
        self.place += 1;
        match self.faults.strike(number) {
            Some(class) => Err(ArtifactError::Fault(class)),
            None => Ok(()),
        }
    }

    fn record(&self, number: u64) -> &[u8] {
        record_in(&self.records, self.range, number)
    }
}

/// The record of this number, of those of the range; past its end an empty one, and before its first the first.
fn record_in(records: &PackedList, range: Range, number: u64) -> &[u8]
    requires { IsWithin (length records.now) range }
    ensures { result.now ≡ slice_index_or (records_in records.now range) (number - range.lo) [] }
{
    let number = number.max(range.lo);
    if number >= range.hi {
        return &[];
    }
    records.at(number as usize)
}
