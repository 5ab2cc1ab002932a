//! Why a step over records has no end.

ghost use Rattle.std.specs.Prelude.{◌≡◌};
ghost use Rattle.jb_records.specs.declared.error.RecordsStepError.TheVariants.{Memory, Step};

use jb_step::StepError;
use std::alloc::{AllocError, AllocFailed};
use thiserror::Error;

/// Why a step over records has no end.
#[derive(Clone, Copy, Debug, PartialEq, Eq, Error)]
pub enum RecordsStepError {
    /// There are more than 10,000,000 records.
    #[error("there are more than 10,000,000 records")]
    Records,
    /// The earlier results aren't as many as the saved rows say.
    #[error("the earlier results aren't those of the saved rows")]
    Results,
    /// A first try would fail with a class that the rules skip.
    #[error("a try fails with a class that is skipped")]
    SkippedTry,
    /// The step has no end.
    #[error("the step has no end: {0}")]
    Step(StepError),
    /// Out of memory.
    #[error("out of memory")]
    Memory,
}

impl From<AllocError> for RecordsStepError {
    ghost from_gives = { λ _ e. e ≡ Memory };

    fn from(_: AllocError) -> RecordsStepError {
        RecordsStepError::Memory
    }
}

impl<T: Drop> From<AllocFailed<T>> for RecordsStepError {
    ghost from_gives = { λ _ e. e ≡ Memory };

    fn from(_: AllocFailed<T>) -> RecordsStepError {
        RecordsStepError::Memory
    }
}

impl From<StepError> for RecordsStepError {
    ghost from_gives = { λ error e. e ≡ Step error };

    fn from(error: StepError) -> RecordsStepError {
        RecordsStepError::Step(error)
    }
}
