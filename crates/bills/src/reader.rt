//! The reader: records of usage, which all partitions share.

ghost use Rattle.std.specs.Prelude.{◌≡◌, ◌≤◌, length, IfOk};
ghost use Rattle.std.specs.Arc.{arc_value};
ghost use Rattle.bills.specs.Checks.{checked_plans};
ghost use Rattle.bills.specs.Bills.{refusal_of, unbilled_class};

use crate::bill::{Tariff, bill_of};
use jb_artifacts::{Item, ItemReader};
use jb_base::{ArtifactError, ClassId, PackedList};
use std::alloc::{AllocError, Global};
use std::sync::Arc;

/// A reader of records of usage, with its own place. A record that has no bill can't be read.
#[derive(Drop)]
pub struct UsageReader {
    pub alloc: Global,
    pub tariff: Tariff,
    /// The first one has the number 0.
    pub usage: Arc<PackedList, Global>,
    pub place: u64,
    pub ghost within: { place ≤ length (arc_value usage) },
}

/// The class of the fault of a record that has no bill.
pub fn unbilled() -> ClassId
    ensures { result ≡ unbilled_class }
{
    ClassId::new(0)
}

/// The class with which the read of a record fails, if it does.
fn refusal_of(alloc: Global, tariff: Tariff, usage: &[u8]) -> Result<Option<ClassId>, AllocError>
    ensures { IfOk result (λ class. class ≡ refusal_of tariff usage.now) }
{
    match bill_of(alloc, tariff, usage)? {
        Some(_) => Ok(None),
        None => Ok(Some(unbilled())),
    }
}

impl ItemReader for UsageReader {
    ghost reader = { λ r. record { first = 0; records = arc_value r.usage; place = r.place; faults = checked_plans (refusal_of r.tariff) 0 (arc_value r.usage) } };

    fn first(&self) -> u64 {
        0
    }

    fn end(&self) -> u64 {
        self.usage.len() as u64
    }

    fn place(&self) -> u64 {
        self.place
    }

    fn open_at(&mut self, at: u64) {
        self.place = at;
    }

    fn read_item(&mut self) -> Result<Option<Item>, ArtifactError> {
        let index = self.place as usize;
        if index >= self.usage.len() {
            return Ok(None);
        }
        let bytes = self.usage.at(index);
        if let Some(class) = refusal_of(self.alloc, self.tariff, bytes)? {
            self.place += 1;
            return Err(ArtifactError::Fault(class));
        }
        let item = Item::copy_of(self.alloc, bytes)?;
        self.place += 1;
        Ok(Some(item))
    }
}
