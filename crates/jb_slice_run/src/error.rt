//! Why a slice has no end: it isn't resumed, an interval has no checkpoint, or its file fails.

ghost use Rattle.std.specs.Prelude.{◌≡◌};
ghost use Rattle.jb_records.specs.declared.error.RecordsStepError.TheVariants as fault;
ghost use Rattle.jb_slice_run.specs.Refusals.{store_refusal};
ghost use Rattle.jb_slice_run.specs.Texts.{slice_error_text};
ghost use Rattle.jb_slice_run.specs.declared.error.SliceError.TheVariants.{Memory, Step};

use jb_records::RecordsStepError;
use jb_slice_file::StoreError;
use jb_step::StepError;
use std::alloc::{AllocError, AllocFailed};
use std::fmt;
use thiserror::Error;

/// A part of a job's identity.
#[derive(Clone, Copy, Debug, PartialEq, Eq)]
pub enum IdentityPart {
    Name,
    SliceLength,
    Partitions,
    ItemCount,
    Classes,
}

/// Why a slice has no end, isn't resumed, or has no next checkpoint. The stored checkpoints stay, and the next process run resumes after them.
#[derive(Clone, Copy, Debug, PartialEq, Eq, Error)]
pub enum SliceError {
    /// A fault of the file. After `Foreign`, `Version`, `Gap` and `Altered` the file is as it was.
    Store(StoreError),
    /// Its step can't start, or broke off.
    Step(RecordsStepError),
    /// The checkpoints are of another job, which differs in this part of its identity.
    OtherJob(IdentityPart),
    /// They are of another slice of the job.
    OtherSlice,
    /// They are of a slice of other items.
    OtherItems,
    /// They have the stamp of another function.
    OtherStamp,
    /// A limit is lower than that of the last checkpoint.
    LoweredLimit,
    /// The bytes of a checkpoint aren't its lists.
    Damaged,
    /// A string has more than 4,294,967,295 bytes, or a list more strings.
    TooLong,
    /// The number after its last item isn't below 2^64.
    NoNumbers,
    /// There are 4,294,967,295 checkpoints.
    TooMany,
    /// The listener stopped it.
    Stopped,
    /// Out of memory.
    Memory,
}

/// A short message. A fault of the file gives its own.
impl fmt::Display for SliceError {
    ghost output = { slice_error_text };

    fn fmt<W: fmt::Write>(&self, f: &mut fmt::Formatter<W>) -> fmt::Result {
        f.write_str(match self {
            SliceError::Store(error) => return write!(f, "{error}"),
            SliceError::Step(error) => return write!(f, "the slice's step: {error}"),
            SliceError::OtherJob(part) => match part {
                IdentityPart::Name => "the slice is of a job with another name",
                IdentityPart::SliceLength =>
                    "the slice is of a job with another number of items in a slice",
                IdentityPart::Partitions =>
                    "the slice is of a job with another number of partitions",
                IdentityPart::ItemCount => "the slice is of a job with another item count",
                IdentityPart::Classes => "the slice is of a job with other classes of faults",
            },
            SliceError::OtherSlice => "the slice has another number",
            SliceError::OtherItems => "the slice is of other items",
            SliceError::OtherStamp => "the slice was run by a function with another stamp",
            SliceError::LoweredLimit => "a limit is lower than the slice's",
            SliceError::Damaged => "a checkpoint of the slice is damaged",
            SliceError::TooLong =>
                "a string has more than 4,294,967,295 bytes, or a list more strings",
            SliceError::NoNumbers =>
                "the slice's items have no numbers below 18,446,744,073,709,551,616",
            SliceError::TooMany => "there are 4,294,967,295 checkpoints",
            SliceError::Stopped => "the run was stopped",
            SliceError::Memory => "out of memory",
        })
    }
}

impl From<AllocError> for SliceError {
    ghost from_gives = { λ _ e. e ≡ Memory };

    fn from(_: AllocError) -> SliceError {
        SliceError::Memory
    }
}

impl<T: Drop> From<AllocFailed<T>> for SliceError {
    ghost from_gives = { λ _ e. e ≡ Memory };

    fn from(_: AllocFailed<T>) -> SliceError {
        SliceError::Memory
    }
}

impl From<RecordsStepError> for SliceError {
    ghost from_gives = { λ error e. e ≡ Step error };

    fn from(error: RecordsStepError) -> SliceError {
        SliceError::Step(error)
    }
}

impl From<StepError> for SliceError {
    ghost from_gives = { λ error e. e ≡ Step (fault.Step error) };

    fn from(error: StepError) -> SliceError {
        SliceError::Step(RecordsStepError::Step(error))
    }
}

impl From<StoreError> for SliceError {
    ghost from_gives = { λ error e. e ≡ store_refusal error };

    fn from(error: StoreError) -> SliceError {
        match error {
            StoreError::TooMany => SliceError::TooMany,
            _ => SliceError::Store(error),
        }
    }
}
