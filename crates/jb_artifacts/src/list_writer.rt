//! A writer that puts what is written in a list.

ghost use Rattle.std.specs.Prelude.{◌≡◌};
ghost use Rattle.jb_artifacts.specs.Faults.{plans_of};
ghost use Rattle.jb_artifacts.specs.Writer.{Writer, Appends};

use crate::fault_plans::FaultPlans;
use crate::interfaces::ItemWriter;
use crate::item::Item;
use crate::packed_results::PackedResults;
use crate::packed_writer::PackedWriter;
use jb_base::{ArtifactError, PackedList};

/// A writer that keeps the results in a list, with a fault plan for the writing of each record's result.
#[derive(Drop)]
pub struct ListWriter {
    written: PackedList,
    faults: FaultPlans,
}

impl ListWriter {
    /// A writer whose list begins with these results. Takes no memory.
    pub fn new(written: PackedList, faults: FaultPlans) -> ListWriter
        ensures { ⟦<ListWriter as ItemWriter>⟧.writer result ≡ record { written = written; faults = plans_of faults } }
    {
        ListWriter { written, faults }
    }

    /// The results, given back. Takes no memory.
    pub fn into_written(self) -> PackedList
        ensures { result ≡ (⟦<ListWriter as ItemWriter>⟧.writer self).written }
    {
        let ListWriter { written, faults: _ } = self;
        written
    }

    /// Appends this record's result, unless the record's plan has a fault.
    fn write_one(&mut self, number: u64, item: &[u8]) -> Result<(), ArtifactError>
        ensures { let old : Writer = record { written = self.old.written; faults = plans_of self.old.faults } in
            Appends result number item.now old (record { written = self.new.written; faults = plans_of self.new.faults }) }
    {
        if let Some(class) = self.faults.strike(number) {
            return Err(ArtifactError::Fault(class));
        }
        self.written.push(item)?;
        Ok(())
    }
}

impl ItemWriter for ListWriter {
    ghost writer = { λ w. record { written = w.written; faults = plans_of w.faults } };

    fn count(&self) -> u64 {
        self.written.len() as u64
    }

    fn open_at(&mut self, count: u64) {
        self.written.truncate(count as usize);
    }

    fn write_items(&mut self, results: &[(u64, Item)]) -> Result<(), ArtifactError> {
        for result in results {
            self.write_one(result.0, result.1.as_slice())?;
        }
        Ok(())
    }

    fn item_at(&self, i: u64) -> Option<&[u8]> {
        self.written.get(i as usize)
    }
}

impl PackedWriter for ListWriter {
    fn write_packed(&mut self, results: &PackedResults) -> Result<(), ArtifactError> {
        if self.faults.is_empty() {
            self.written.append(results.texts())?;
            return Ok(());
        }
        for index in 0..results.len() {
            self.write_one(results.number(index), results.text(index))?;
        }
        Ok(())
    }
}
