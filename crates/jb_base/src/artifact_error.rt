//! What a call of an artifact answers in place of its result.

ghost use Rattle.std.specs.Prelude.{◌≡◌};
ghost use Rattle.jb_base.specs.declared.artifact_error.ArtifactError.TheVariants.{Memory};

use crate::class::ClassId;
use std::alloc::{AllocError, AllocFailed};
use thiserror::Error;

/// Why an artifact (a reader, a processor, a writer, a mapper, an analyzer or a reducer) has no result.
#[derive(Clone, Copy, Debug, PartialEq, Eq, Error)]
pub enum ArtifactError {
    /// The artifact failed with a fault of this class.
    #[error("a fault of class {}", .0.number())]
    Fault(ClassId),
    /// There was no memory for the answer.
    #[error("no memory")]
    Memory,
}

impl From<AllocError> for ArtifactError {
    ghost from_gives = { λ _ e. e ≡ Memory };

    fn from(_: AllocError) -> ArtifactError {
        ArtifactError::Memory
    }
}

impl<T: Drop> From<AllocFailed<T>> for ArtifactError {
    ghost from_gives = { λ _ e. e ≡ Memory };

    fn from(_: AllocFailed<T>) -> ArtifactError {
        ArtifactError::Memory
    }
}
