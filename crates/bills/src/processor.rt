//! The processor: it makes the bills.

ghost use Rattle.jb_artifacts.specs.declared.faults.FaultPlan.TheVariants.{Sound};
ghost use Rattle.bills.specs.Bills.{bill_of};

use crate::bill::{Tariff, bill_of};
use jb_artifacts::{Item, ItemProcessor};
use jb_base::ArtifactError;
use std::alloc::Global;

/// A processor that makes the bill for the usage in a record. It never fails.
#[derive(Drop)]
pub struct BillProcessor {
    pub alloc: Global,
    pub tariff: Tariff,
}

impl ItemProcessor for BillProcessor {
    ghost processor = { λ p. record { answer = λ _ usage. bill_of p.tariff usage; faults = λ _. Sound } };

    fn process_item(&mut self, _number: u64, usage: &[u8]) -> Result<Option<Item>, ArtifactError> {
        let bill = bill_of(self.alloc, self.tariff, usage)?;
        Ok(bill)
    }
}
