//! Who takes the results of slices, and adds them up.

ghost use Rattle.std.specs.Prelude.{◌≡◌, List, [], None, IfOk};
ghost use Rattle.jb_csv_job.specs.declared.failure.CsvJobError.TheVariants.{Memory};
ghost use Rattle.jb_rows.specs.Answers.{all_results};
ghost use Rattle.jb_rows.specs.Fields.{Fields};
ghost use Rattle.sales.specs.Amounts.{Amount};
ghost use Rattle.sales.specs.Sales.{answer_by, payments_in};
ghost use Rattle.sales.specs.Totals.{AreTotals, AreTotalsSoFar};
ghost use Rattle.totals.specs.Adding.{HasAdded, nothing-added};

use jb_base::PackedList;
use jb_csv_job::{CsvJobError, Sink};
use jb_rows::Rows;
use sales::{SumsError, Totals};
use std::alloc::Global;

/// The totals of the slices that were taken. Their memory is of the customers, however many sales there are.
#[derive(Drop)]
pub struct Adding {
    pub totals: Totals,
    /// Why there are no totals, if so. The job continues all the same: its results are stored.
    pub refusal: Option<SumsError>,
}

impl Adding {
    /// Of no slice. Takes no memory.
    pub fn new(alloc: Global) -> Adding
        ensures { result.totals.by_customer ≡ [] }
    {
        Adding {
            totals: Totals::new(alloc),
            refusal: None,
        }
    }

    /// The totals as records `CUSTOMER,TOTAL`, in the order of the customers' first results.
    pub fn rows(self) -> Result<Rows, SumsError>
        ensures sold { (prices : List Amount) (lines : List Fields) → (self.refusal ≡ None → AreTotalsSoFar (all_results (answer_by prices) lines) self.totals.by_customer)
            → IfOk result (AreTotals (payments_in prices lines)) }
    {
        match self.refusal {
            Some(error) => Err(error),
            None => Ok(self.totals.rows()?),
        }
    }
}

impl Sink for Adding {
    ghost took = { HasAdded };

    ghost may_refuse = { λ failure. failure ≡ Memory };

    fn take(&mut self, results: &PackedList) -> Result<(), CsvJobError> {
        if self.refusal.is_some() {
            return Ok(());
        }
        match self.totals.add(results) {
            Ok(()) => Ok(()),
            Err(SumsError::Memory) => Err(CsvJobError::Memory),
            Err(error) => {
                self.refusal = Some(error);
                Ok(())
            }
        }
    }

    ghost none = { nothing-added };
}
