//! Why a call on the checkpoints has no answer.

ghost use Rattle.std.specs.Prelude.{◌≡◌};
ghost use Rattle.jb_slice_file.specs.Errors.{refusal_named};
ghost use Rattle.jb_slice_file.specs.Texts.{store_error_text};
ghost use Rattle.jb_slice_file.specs.declared.error.StoreError.TheVariants.{Memory};

use sqlite::{Constraint, Error as SqlError, ErrorCode};
use std::alloc::{AllocError, AllocFailed};
use std::fmt;
use thiserror::Error;

/// Why a call on the checkpoints has no answer. After `Foreign`, `Version`, `Gap` and `Altered` the file is as it was.
#[derive(Clone, Copy, Debug, PartialEq, Eq, Error)]
pub enum StoreError {
    /// The database isn't empty, and it has no table `checkpoint`.
    Foreign,
    /// It has a table `checkpoint`, but another version or another program defined it.
    Version,
    /// The numbers of the checkpoints aren't 1, 2, 3 and so on.
    Gap,
    /// The checkpoint with this number has a wrong link: it was changed, or one before it.
    Altered(u64),
    /// The file isn't a database, or is damaged.
    Damaged,
    /// Another process has the file open.
    Busy,
    /// The folder doesn't exist, the file may not be read and written, or the path isn't that of a file.
    CannotOpen,
    /// The disk or the file is full.
    Full,
    /// The disk failed to read or to write.
    Disk,
    /// An earlier failure of the disk has shut the connection: open the file again.
    Shut,
    /// The saved text with the results is longer than a row may be.
    TooLong,
    /// There is a checkpoint with this number already.
    Taken,
    /// There are 4,294,967,295 checkpoints.
    TooMany,
    /// Out of memory.
    Memory,
    /// SQLite refused a statement for another reason.
    Sql(SqlError),
}

/// A short message. If SQLite refused a statement for another reason, SQLite's message follows.
impl fmt::Display for StoreError {
    ghost output = { store_error_text };

    fn fmt<W: fmt::Write>(&self, f: &mut fmt::Formatter<W>) -> fmt::Result {
        f.write_str(match self {
            StoreError::Foreign =>
                "the database is another program's: it has no table of checkpoints",
            StoreError::Version =>
                "the database has a table of checkpoints in another form: finish it by the program that made it, or delete it and begin anew",
            StoreError::Gap => "a checkpoint is missing: their numbers have a gap",
            StoreError::Altered(number) => return write!(
                f,
                "checkpoint {number} was changed: its digest is another one"
            ),
            StoreError::Damaged => "the file is no database, or a damaged one",
            StoreError::Busy => "another process has the file open",
            StoreError::CannotOpen => "the file can't be opened to be read and written",
            StoreError::Full => "the disk is full",
            StoreError::Disk => "the disk failed",
            StoreError::Shut => "an earlier failure of the disk has shut the file",
            StoreError::TooLong => "the checkpoint is longer than a row may be",
            StoreError::Taken => "there is a checkpoint with this number already",
            StoreError::TooMany => "there are 4,294,967,295 checkpoints",
            StoreError::Memory => "out of memory",
            StoreError::Sql(error) => return write!(f, "SQLite refused a statement: {error}"),
        })
    }
}

impl From<SqlError> for StoreError {
    ghost from_gives = { λ error e. e ≡ refusal_named error };

    fn from(error: SqlError) -> StoreError {
        match error {
            SqlError::SqliteFailure(code) => match code {
                ErrorCode::NotADatabase | ErrorCode::DatabaseCorrupt => StoreError::Damaged,
                ErrorCode::DatabaseBusy => StoreError::Busy,
                ErrorCode::CannotOpen => StoreError::CannotOpen,
                ErrorCode::DiskFull => StoreError::Full,
                ErrorCode::SystemIoFailure => StoreError::Disk,
                ErrorCode::Closed => StoreError::Shut,
                ErrorCode::TooBig => StoreError::TooLong,
                ErrorCode::ConstraintViolation(Constraint::PrimaryKey) => StoreError::Taken,
                ErrorCode::OutOfMemory => StoreError::Memory,
                _ => StoreError::Sql(error),
            },
            _ => StoreError::Sql(error),
        }
    }
}

impl From<AllocError> for StoreError {
    ghost from_gives = { λ _ e. e ≡ Memory };

    fn from(_: AllocError) -> StoreError {
        StoreError::Memory
    }
}

impl<T: Drop> From<AllocFailed<T>> for StoreError {
    ghost from_gives = { λ _ e. e ≡ Memory };

    fn from(_: AllocFailed<T>) -> StoreError {
        StoreError::Memory
    }
}
