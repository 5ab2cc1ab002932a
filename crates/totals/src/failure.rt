//! Why there is no answer.

use jb_csv_job::CsvJobError;
use jb_rows::RowsError;
use sales::{PricesError, SumsError};
use std::alloc::AllocError;
use thiserror::Error;

/// Why there is no answer.
#[derive(Debug, Drop, Error)]
pub enum TotalsError {
    /// There is no list of prices.
    #[error("Prices: {0}")]
    Prices(PricesError),
    /// The job has no answer.
    #[error("{0}")]
    Job(CsvJobError),
    /// There are no totals.
    #[error("Totals: {0}")]
    Sums(SumsError),
}

impl From<AllocError> for TotalsError {
    fn from(_: AllocError) -> TotalsError {
        TotalsError::Job(CsvJobError::Memory)
    }
}

impl From<PricesError> for TotalsError {
    fn from(error: PricesError) -> TotalsError {
        match error {
            PricesError::Memory => TotalsError::Job(CsvJobError::Memory),
            error => TotalsError::Prices(error),
        }
    }
}

impl From<CsvJobError> for TotalsError {
    fn from(error: CsvJobError) -> TotalsError {
        TotalsError::Job(error)
    }
}

impl From<RowsError> for TotalsError {
    fn from(error: RowsError) -> TotalsError {
        TotalsError::Job(CsvJobError::Rows(error))
    }
}

impl From<SumsError> for TotalsError {
    fn from(error: SumsError) -> TotalsError {
        match error {
            SumsError::Memory => TotalsError::Job(CsvJobError::Memory),
            error => TotalsError::Sums(error),
        }
    }
}
