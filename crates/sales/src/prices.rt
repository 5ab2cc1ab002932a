//! The list of prices, which is read before the step begins.

ghost use Rattle.std.specs.Prelude.{ℕ, List, [], IfOk, IfSome};
ghost use Rattle.jb_rows.specs.Streams.{HasGivenRows};
ghost use Rattle.jb_rows.specs.Texts.{AreRowsOf};
ghost use Rattle.jb_rows.specs.declared.rows_options.RowsOptions.{RowsOptions};
ghost use Rattle.sales.specs.Prices.{ArePrices, ArePricesOf};

use crate::amounts::{Amounts, amount_of};
use jb_base::MAX_RECORDS;
use jb_rows::{Rows, RowsError, RowsOptions, RowsReader};
use std::alloc::{AllocError, Global};
use std::io;
use std::io::Read;
use thiserror::Error;

/// Why there is no list of prices.
#[derive(Debug, Drop, Error)]
pub enum PricesError {
    /// The file isn't opened.
    #[error("{0}")]
    File(io::Error),
    /// Its records aren't read.
    #[error("{0}")]
    Rows(RowsError),
    /// There are more than 10,000,000.
    #[error("more than 10,000,000 records")]
    Records,
    /// The record of this number, the first being 0, is no `ITEM,CENTS`.
    #[error("record {number} is no item and its cents")]
    NoPrice { number: usize },
    /// The item of the record of this number has a price already.
    #[error("the item of record {number} has two prices")]
    TwoPrices { number: usize },
    /// There was no memory.
    #[error("no memory")]
    Memory,
}

impl From<io::Error> for PricesError {
    fn from(error: io::Error) -> PricesError {
        PricesError::File(error)
    }
}

impl From<RowsError> for PricesError {
    fn from(error: RowsError) -> PricesError {
        match error {
            RowsError::Memory => PricesError::Memory,
            error => PricesError::Rows(error),
        }
    }
}

impl From<AllocError> for PricesError {
    fn from(_: AllocError) -> PricesError {
        PricesError::Memory
    }
}

/// The prices in these records `ITEM,CENTS`. The first that is none, or whose item has one already, is refused.
fn prices_in(alloc: Global, rows: &Rows) -> Result<Amounts, PricesError>
    ensures { IfOk result (ArePrices rows.now) }
{
    let mut prices = Amounts::new(alloc);
    for number in 0..rows.len() {
        let row = rows.row(number);
        let Some((item, cents)) = amount_of(&row) else {
            return Err(PricesError::NoPrice { number });
        };
        if prices.get(item).is_some() {
            return Err(PricesError::TwoPrices { number });
        }
        prices.put(item, cents)?;
    }
    Ok(prices)
}

/// The records of a stream, read to its end.
fn records_in<R: Read>(alloc: Global, reader: &mut RowsReader<R>) -> Result<Rows, PricesError>
    ensures { IfOk result (λ rows. (options : RowsOptions) (text : List ℕ) → HasGivenRows options R.remaining reader.old text [] → AreRowsOf options text rows) }
{
    let mut rows = Rows::new(alloc);
    let more = reader.next_rows(&mut rows, MAX_RECORDS as usize + 1)?;
    if more {
        return Err(PricesError::Records);
    }
    Ok(rows)
}

/// The prices of a stream of CSV, `ITEM,CENTS`, read to its end.
pub fn read_prices<R: Read + Drop>(alloc: Global, from: R) -> Result<Amounts, PricesError>
    ensures { IfOk result (λ prices. IfSome (R.remaining from) (λ text. ArePricesOf RowsOptions.CSV text prices)) }
{
    let mut reader = RowsReader::new(alloc, &RowsOptions::CSV, from)?;
    let rows = records_in(alloc, &mut reader)?;
    prices_in(alloc, &rows)
}
