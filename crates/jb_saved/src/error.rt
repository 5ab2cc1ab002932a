//! Why there are no saved rows.

ghost use Rattle.std.specs.Prelude.{◌≡◌};
ghost use Rattle.jb_saved.specs.declared.error.SavedError.TheVariants.{Memory};

use crate::place::SavedPlace;
use std::alloc::{AllocError, AllocFailed};
use thiserror::Error;

/// Why there are no saved rows, or none to resume from.
#[derive(Clone, Copy, Debug, PartialEq, Eq, Error)]
pub enum SavedError {
    /// This of the saved rows is refused.
    #[error("the saved rows are refused: {0}")]
    Refused(SavedPlace),
    /// There was no memory.
    #[error("no memory")]
    Memory,
}

impl From<AllocError> for SavedError {
    ghost from_gives = { λ _ e. e ≡ Memory };

    fn from(_: AllocError) -> SavedError {
        SavedError::Memory
    }
}

impl<T: Drop> From<AllocFailed<T>> for SavedError {
    ghost from_gives = { λ _ e. e ≡ Memory };

    fn from(_: AllocFailed<T>) -> SavedError {
        SavedError::Memory
    }
}
