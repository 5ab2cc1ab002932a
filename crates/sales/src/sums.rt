//! The total of each customer.

ghost use Rattle.std.specs.Prelude.{◌≡◌, ◌≤◌, ◌+◌, ◌++◌, ◌^◌, ℕ, List, [], map, unwrap_or, IfErr, IfOk, OnOk};
ghost use Rattle.jb_rows.specs.Answers.{all_results};
ghost use Rattle.jb_rows.specs.Fields.{Fields, fields_in};
ghost use Rattle.sales.specs.Amounts.{Amount, amount_at, amounts_in, with_amount};
ghost use Rattle.sales.specs.Sales.{answer_by, payments_in};
ghost use Rattle.sales.specs.Totals.{AreTotals, AreTotalsSoFar, HaveAdded, IfTooLarge, total_in};

use crate::amounts::{Amounts, amount_of};
use jb_base::PackedList;
use jb_rows::numbers::sum_of;
use jb_rows::{Row, Rows};
use std::alloc::{AllocError, Global};
use thiserror::Error;

/// Why there are no totals.
#[derive(Debug, Drop, Error)]
pub enum SumsError {
    /// The result of this number, the first being 0, is no `CUSTOMER,CENTS`.
    #[error("result {number} is no customer and cents")]
    NoAmount { number: u64 },
    /// With the result of this number the total of its customer is 2^64 or more.
    #[error("with result {number} the total of its customer is 2^64 or more")]
    TooLarge { number: u64 },
    /// There was no memory.
    #[error("no memory")]
    Memory,
}

impl From<AllocError> for SumsError {
    ghost use Rattle.std.specs.Prelude.{◌≡◌};
    ghost use Rattle.sales.specs.declared.sums.SumsError.TheVariants.{Memory};

    ghost from_gives = { λ _ error. error ≡ Memory };

    fn from(_: AllocError) -> SumsError {
        SumsError::Memory
    }
}

/// Adds an amount, which is that of the result of this number, to the total of its customer.
fn add(totals: &mut Amounts, number: u64, customer: &[u8], cents: u64) -> Result<(), SumsError>
    ensures added { OnOk result (totals.new ≡ with_amount totals.old customer.now (unwrap_or (amount_at totals.old customer.now) 0 + cents)) }
    ensures refused { IfErr result (λ error. IfTooLarge error (2 ^ 64 ≤ unwrap_or (amount_at totals.old customer.now) 0 + cents)) }
{
    let before = totals.get(customer).unwrap_or(0);
    match sum_of(before, cents) {
        Some(total) => totals.put(customer, total)?,
        None => return Err(SumsError::TooLarge { number }),
    }
    Ok(())
}

/// The total of each customer, as results are added.
#[derive(Drop)]
pub struct Totals {
    /// The customers in the order of their first results, each with the sum of its results so far.
    pub by_customer: Amounts,
    /// How many results were added: the number of the next one, the first being 0.
    pub results: u64,
}

impl Totals {
    /// Those of no results. Takes no memory.
    pub fn new(alloc: Global) -> Totals
        ensures { result.by_customer ≡ [] }
    {
        Totals {
            by_customer: Amounts::new(alloc),
            results: 0,
        }
    }

    /// Adds some results, `CUSTOMER,CENTS`, each packed.
    ///
    /// # Errors
    /// The first result that is none, or with which the total of its customer is too large. The totals are then lost.
    pub fn add(&mut self, results: &PackedList) -> Result<(), SumsError>
        ensures added { OnOk result (HaveAdded self.old.by_customer self.new.by_customer (map fields_in results.now)) }
        ensures refused { IfErr result (λ error. IfTooLarge error ((earlier : List Fields) → AreTotalsSoFar earlier self.old.by_customer
            → (customer : List ℕ) × (2 ^ 64 ≤ total_in (amounts_in (earlier ++ map fields_in results.now)) customer))) }
    {
        add_all(&mut self.by_customer, &mut self.results, results)
    }

    /// They as records `CUSTOMER,TOTAL`, in the order of the customers' first results.
    pub fn rows(&self) -> Result<Rows, AllocError>
        ensures totals { (results : List Fields) → AreTotalsSoFar results self.now.by_customer → IfOk result (AreTotals (amounts_in results)) }

        // Of the results of a job they are the totals of what is paid for each sale in its lines.
        ensures sold { (prices : List Amount) (lines : List Fields) → AreTotalsSoFar (all_results (answer_by prices) lines) self.now.by_customer → IfOk result (AreTotals (payments_in prices lines)) }
    {
        self.by_customer.rows()
    }
}

/// Adds some results to these totals, and counts them.
fn add_all(totals: &mut Amounts, number: &mut u64, results: &PackedList) -> Result<(), SumsError>
    ensures added { OnOk result (HaveAdded totals.old totals.new (map fields_in results.now)) }
    ensures refused { IfErr result (λ error. IfTooLarge error ((earlier : List Fields) → AreTotalsSoFar earlier totals.old
        → (customer : List ℕ) × (2 ^ 64 ≤ total_in (amounts_in (earlier ++ map fields_in results.now)) customer))) }
{
    for place in 0..results.len() {
        let row = Row::of(results.at(place));
        let Some((customer, cents)) = amount_of(&row) else {
            return Err(SumsError::NoAmount { number: *number });
        };
        match add(totals, *number, customer, cents) {
            Ok(()) => *number = number.saturating_add(1),
            Err(error) => return Err(error),
        }
    }
    Ok(())
}
