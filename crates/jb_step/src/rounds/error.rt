//! Why the rounds of a step have no end.

ghost use Rattle.std.specs.Prelude.{◌≡◌};
ghost use Rattle.jb_step.specs.Answers.{IsRunError};
ghost use Rattle.jb_step.specs.declared.error.StepError.TheVariants.{WrongArtifacts};

use crate::error::StepError;
use jb_repo::Refused;
use jb_workers::RoundError;
use std::alloc::{AllocError, AllocFailed};

/// Why the rounds of a step have no end.
#[derive(Clone, Copy, Debug, PartialEq, Eq)]
pub(crate) enum StepRunError {
    /// The desk's row of this partition isn't the step's own.
    Row(u32),
    /// The desk was used by another, or it refused an event.
    Desk,
    /// A worker could not be started.
    Workers,
    /// Out of memory.
    Memory,
}

impl StepRunError {
    /// The same, as a step of so many rows answers it.
    pub(crate) fn of_step(self, rows: u32) -> StepError
        ensures wrong { result ≡ WrongArtifacts → ⊥ }
        ensures causes { IsRunError result }
    {
        match self {
            StepRunError::Row(partition) => StepError::Repository(partition),
            StepRunError::Desk => StepError::Repository(rows),
            StepRunError::Workers => StepError::Workers,
            StepRunError::Memory => StepError::Memory,
        }
    }
}

impl From<Refused> for StepRunError {
    fn from(refused: Refused) -> StepRunError {
        match refused {
            Refused::Memory => StepRunError::Memory,
            _ => StepRunError::Desk,
        }
    }
}

impl From<RoundError> for StepRunError {
    fn from(error: RoundError) -> StepRunError {
        match error {
            RoundError::Refused(refused) => refused.into(),
            RoundError::WorkerNotStarted => StepRunError::Workers,
            RoundError::Memory => StepRunError::Memory,
        }
    }
}

impl From<AllocError> for StepRunError {
    fn from(_: AllocError) -> StepRunError {
        StepRunError::Memory
    }
}

impl<T: Drop> From<AllocFailed<T>> for StepRunError {
    fn from(_: AllocFailed<T>) -> StepRunError {
        StepRunError::Memory
    }
}
