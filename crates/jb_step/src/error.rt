//! Why a step has no answer.

ghost use Rattle.std.specs.Prelude.{◌≡◌};
ghost use Rattle.jb_step.specs.declared.error.StepError.TheVariants.{Memory};
ghost use Rattle.jb_step.specs.restarts.Saving.{step_error};

use jb_base::ClassId;
use jb_plan::PlanError;
use jb_saved::{SavedError, SavedPlace};
use std::alloc::{AllocError, AllocFailed};
use thiserror::Error;

/// Why a step has no answer. The first error in this order that holds is answered:
///
/// - `prepare`: `Reducer` (its `begin`); `Mapper`; `Plan`; `Saved` (`Step`, then `Records`); `Reducer` (its `rollback`, under `override`).
/// - `run_step`: `WrongArtifacts`; `Repository` (the desk's rows, as the step finds them); then the first of `Workers`, `Repository`
///   and `Memory` that ends a round; `Repository` (the desk's rows, as the step leaves them).
/// - Calls on saved rows: `Saved` alone.
///
/// Each of them answers `Memory` at the first call that is out of memory.
#[derive(Clone, Copy, Debug, PartialEq, Eq, Error)]
pub enum StepError {
    /// The mapper's plan can't be run.
    #[error("the mapper's plan can't be run: {0}")]
    Plan(PlanError),
    /// The mapper answered a fault of this class.
    #[error("the mapper failed with a fault of class {}", .0.number())]
    Mapper(ClassId),
    /// The reducer's `begin` or `rollback` answered a fault of this class.
    #[error("the reducer's begin failed with a fault of class {}", .0.number())]
    Reducer(ClassId),
    /// The artifacts aren't those that the unfinished partitions need.
    #[error("the artifacts aren't those that the unfinished partitions need")]
    WrongArtifacts,
    /// The desk's row of this partition isn't the step's own. Or, with the number of rows: the desk was used by another, or it refused an event.
    #[error("the repository's row of partition {0} isn't the step's own, or it refused an event")]
    Repository(u32),
    /// A worker could not be started.
    #[error("a worker could not be started")]
    Workers,
    /// The saved rows are refused.
    #[error("the saved rows are refused: {0}")]
    Saved(SavedPlace),
    /// Out of memory.
    #[error("no memory")]
    Memory,
}

impl From<SavedError> for StepError {
    ghost from_gives = { λ error e. e ≡ step_error error };

    fn from(error: SavedError) -> StepError {
        match error {
            SavedError::Refused(place) => StepError::Saved(place),
            SavedError::Memory => StepError::Memory,
        }
    }
}

impl From<AllocError> for StepError {
    ghost from_gives = { λ _ e. e ≡ Memory };

    fn from(_: AllocError) -> StepError {
        StepError::Memory
    }
}

impl<T: Drop> From<AllocFailed<T>> for StepError {
    ghost from_gives = { λ _ e. e ≡ Memory };

    fn from(_: AllocFailed<T>) -> StepError {
        StepError::Memory
    }
}
