//! Why records are not read or not written.

ghost use Rattle.std.specs.Prelude.{◌≡◌};
ghost use Rattle.jb_rows.specs.Refusals.{IfTooLong};
ghost use Rattle.jb_rows.specs.declared.rows_error.RowsError.TheVariants.{Memory, Stream};

use std::alloc::{AllocError, AllocFailed};
use std::io;
use thiserror::Error;

/// Why records are not read or not written.
#[derive(Debug, Drop, Error)]
pub enum RowsError {
    /// The record of this number, the first after the header row being 0, is longer than a record may be. The number stops at
    /// 2^64 - 1.
    #[error("record {number} is too long")]
    TooLong { number: u64 },
    /// The header row is longer than a record may be.
    #[error("the header row is too long")]
    LongHeader,
    /// The stream failed.
    #[error("{0}")]
    Stream(io::Error),
    /// There was no memory.
    #[error("out of memory")]
    Memory,
}

impl From<AllocError> for RowsError {
    ghost from_gives = { λ _ error. error ≡ Memory };

    fn from(_: AllocError) -> RowsError {
        RowsError::Memory
    }
}

impl<T: Drop> From<AllocFailed<T>> for RowsError {
    ghost from_gives = { λ _ error. error ≡ Memory };

    fn from(_: AllocFailed<T>) -> RowsError {
        RowsError::Memory
    }
}

impl From<io::Error> for RowsError {
    ghost from_gives = { λ why error. error ≡ Stream why };

    fn from(why: io::Error) -> RowsError {
        RowsError::Stream(why)
    }
}

/// A failure of a writer of `csv`, which is of the stream or of memory: records may differ in their number of fields, and are no text.
pub(crate) fn failure_of(error: csv::Error) -> RowsError
    ensures { IfTooLong result (λ _. ⊥) }
{
    match error.into_kind() {
        csv::ErrorKind::Io(why) => RowsError::Stream(why),
        _ => RowsError::Memory,
    }
}
