//! The writer: it keeps the bills.

ghost use Rattle.jb_artifacts.specs.declared.faults.FaultPlan.TheVariants.{Sound};
ghost use Rattle.jb_artifacts.specs.Writer.{Writer, Appends};

use jb_artifacts::{Item, ItemWriter};
use jb_base::{ArtifactError, PackedList};

/// A writer that keeps the bills in the order in which they were written. It never fails.
#[derive(Drop)]
pub struct BillWriter {
    pub bills: PackedList,
}

impl BillWriter {
    /// Puts one bill after the others. If there is no memory, nothing changes.
    fn append(&mut self, number: u64, bill: &Item) -> Result<(), ArtifactError>
        ensures { let old : Writer = record { written = self.old.bills; faults = λ _. Sound } in
            Appends result number bill.now old (record { written = self.new.bills; faults = λ _. Sound }) }
    {
        self.bills.push(bill.as_slice())?;
        Ok(())
    }
}

impl ItemWriter for BillWriter {
    ghost writer = { λ w. record { written = w.bills; faults = λ _. Sound } };

    fn count(&self) -> u64 {
        self.bills.len() as u64
    }

    fn open_at(&mut self, count: u64) {
        self.bills.truncate(count as usize);
    }

    fn write_items(&mut self, results: &[(u64, Item)]) -> Result<(), ArtifactError> {
        for result in results {
            self.append(result.0, &result.1)?;
        }
        Ok(())
    }

    fn item_at(&self, i: u64) -> Option<&[u8]> {
        self.bills.get(i as usize)
    }
}
