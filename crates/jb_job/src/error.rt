//! Why a job record, or a document of the program, can't be read.

ghost use Rattle.std.specs.Prelude.{◌≡◌};
ghost use Rattle.jb_job.specs.declared.error.JobError.TheVariants.{Memory};

use crate::field::Field;
use std::alloc::{AllocError, AllocFailed};
use std::fmt;
use thiserror::Error;

/// The first fault of a text or a tree that is read by a table of fields.
#[derive(Clone, Copy, Debug, PartialEq, Eq, Error)]
pub enum JobError {
    /// The text has no JSON tree.
    NotJson,
    /// A field that is missing or of the wrong kind, or, under `unknown`, a key that no field has.
    WrongShape(Field),
    /// A value out of its field's range.
    OutOfRange(Field),
    /// A list longer than its field takes.
    TooMany(Field),
    /// A fault class that the job doesn't declare.
    UnknownClass,
    /// There was no memory for the answer.
    Memory,
}

/// The fault's name as the program's refusal has it, and its field in parentheses; or `no memory`.
impl fmt::Display for JobError {
    ghost use Rattle.std.specs.Prelude.{Some};
    ghost use Rattle.jb_job.specs.Names.{fault_text};

    ghost output = { λ fault. Some (fault_text fault) };

    fn fmt<W: fmt::Write>(&self, f: &mut fmt::Formatter<W>) -> fmt::Result {
        match self {
            JobError::NotJson => f.write_str("NotJson"),
            JobError::WrongShape(field) => write!(f, "WrongShape({field})"),
            JobError::OutOfRange(field) => write!(f, "OutOfRange({field})"),
            JobError::TooMany(field) => write!(f, "TooMany({field})"),
            JobError::UnknownClass => f.write_str("UnknownClass"),
            JobError::Memory => f.write_str("no memory"),
        }
    }
}

impl From<AllocError> for JobError {
    ghost from_gives = { λ _ e. e ≡ Memory };

    fn from(_: AllocError) -> JobError {
        JobError::Memory
    }
}

impl<T: Drop> From<AllocFailed<T>> for JobError {
    ghost from_gives = { λ _ e. e ≡ Memory };

    fn from(_: AllocFailed<T>) -> JobError {
        JobError::Memory
    }
}
