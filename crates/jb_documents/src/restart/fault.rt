//! Why a document of `restart` can't be read.

use jb_job::JobError;
use jb_saved::SavedPlace;
use std::fmt;
use thiserror::Error;

/// The first fault of a document of `restart`.
#[derive(Clone, Copy, Debug, PartialEq, Eq, Error)]
pub enum RestartFault {
    /// A fault of the text or of a field, or out of memory.
    Document(JobError),
    /// What of the saved rows is refused.
    Saved(SavedPlace),
}

/// The fault as the program's refusal has it: a field's name, or the place of saved rows, in parentheses.
impl fmt::Display for RestartFault {
    ghost use Rattle.std.specs.Prelude.{Some};
    ghost use Rattle.jb_documents.specs.RestartDocument.{restart_fault_text};

    ghost output = { λ fault. Some (restart_fault_text fault) };

    fn fmt<W: fmt::Write>(&self, f: &mut fmt::Formatter<W>) -> fmt::Result {
        match self {
            RestartFault::Document(error) => write!(f, "{error}"),
            RestartFault::Saved(place) => write!(f, "Saved({place})"),
        }
    }
}

impl From<JobError> for RestartFault {
    ghost use Rattle.std.specs.Prelude.{◌≡◌};
    ghost use Rattle.jb_documents.specs.declared.restart.fault.RestartFault.TheVariants.{Document};

    ghost from_gives = { λ error fault. fault ≡ Document error };

    fn from(error: JobError) -> RestartFault {
        RestartFault::Document(error)
    }
}
