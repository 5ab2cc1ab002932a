//! Why the program gives no report.

ghost use Rattle.std.specs.Prelude.{◌≡◌, ◌≤◌};
ghost use Rattle.jb_program.specs.Statuses.{failure_code};

use crate::words::{LineFault, UsageFault};
use jb_documents::RestartFault;
use jb_job::JobError;
use jb_plan::PlanError;
use jb_saved::SavedPlace;
use std::alloc::{AllocError, AllocFailed};
use std::{fmt, io};
use thiserror::Error;

/// Why the program gives no report.
#[derive(Debug, Drop, Error)]
pub enum ProgramError {
    /// The arguments of the command line ask for nothing.
    Usage(UsageFault),
    /// The document has this fault.
    Document(JobError),
    /// The partition plan of a step has this fault.
    Plan(PlanError),
    /// What of the saved rows is refused.
    Saved(SavedPlace),
    /// There was no memory.
    Memory,
    /// A worker could not be started.
    Workers,
    /// The repository's row of this partition isn't the step's own, or, with the number of rows, it refused an event.
    Repository(u32),
    /// Standard input, standard output or standard error failed.
    Stream,
}

impl ProgramError {
    /// The exit status: 3 where the document, a plan or the saved rows are refused, 4 for memory, workers, the repository and
    /// streams, 5 for the command line.
    pub fn status(&self) -> u8
        ensures code { result ≡ failure_code self.now }
        ensures range { (3 ≤ result) × (result ≤ 5) }
    {
        match self {
            ProgramError::Document(_) | ProgramError::Plan(_) | ProgramError::Saved(_) => 3,
            ProgramError::Memory
            | ProgramError::Workers
            | ProgramError::Repository(_)
            | ProgramError::Stream => 4,
            ProgramError::Usage(_) => 5,
        }
    }
}

/// One line on why there is no answer, and one more if the arguments are wrong.
impl fmt::Display for ProgramError {
    ghost use Rattle.std.specs.Prelude.{Some};
    ghost use Rattle.jb_program.specs.FailureText.{failure_text};

    ghost output = { λ failure. Some (failure_text failure) };

    #[tactic(auto, unfolding(crate::specs::FailureText::refusal_line))]
    fn fmt<W: fmt::Write>(&self, f: &mut fmt::Formatter<W>) -> fmt::Result {
        match self {
            ProgramError::Usage(fault) => write!(f, "{fault}"),
            ProgramError::Document(fault) => write!(f, "refused: {fault}\n"),
            ProgramError::Plan(error) => write!(f, "refused: {error}\n"),
            ProgramError::Saved(place) => write!(f, "refused: Saved({place})\n"),
            ProgramError::Memory => f.write_str("no memory\n"),
            ProgramError::Workers => f.write_str("no worker\n"),
            ProgramError::Repository(partition) => write!(f, "repository {partition}\n"),
            ProgramError::Stream => f.write_str("stream failed\n"),
        }
    }
}

impl From<AllocError> for ProgramError {
    ghost use Rattle.std.specs.Prelude.{◌≡◌};
    ghost use Rattle.jb_program.specs.declared.streams.error.ProgramError.TheVariants.{Memory};

    ghost from_gives = { λ _ e. e ≡ Memory };

    fn from(_e: AllocError) -> ProgramError {
        ProgramError::Memory
    }
}

impl<T: Drop> From<AllocFailed<T>> for ProgramError {
    ghost use Rattle.std.specs.Prelude.{◌≡◌};
    ghost use Rattle.jb_program.specs.declared.streams.error.ProgramError.TheVariants.{Memory};

    ghost from_gives = { λ _ e. e ≡ Memory };

    fn from(_e: AllocFailed<T>) -> ProgramError {
        ProgramError::Memory
    }
}

impl From<io::Error> for ProgramError {
    ghost use Rattle.std.specs.Prelude.{◌≡◌};
    ghost use Rattle.jb_program.specs.declared.streams.error.ProgramError.TheVariants.{Stream};

    ghost from_gives = { λ _ e. e ≡ Stream };

    fn from(_e: io::Error) -> ProgramError {
        ProgramError::Stream
    }
}

impl From<LineFault> for ProgramError {
    ghost use Rattle.std.specs.Prelude.{◌≡◌};
    ghost use Rattle.jb_program.specs.Statuses.{line_failure};

    ghost from_gives = { λ fault failure. failure ≡ line_failure fault };

    fn from(fault: LineFault) -> ProgramError {
        match fault {
            LineFault::Usage(fault) => ProgramError::Usage(fault),
            LineFault::Memory => ProgramError::Memory,
        }
    }
}

impl From<JobError> for ProgramError {
    ghost use Rattle.std.specs.Prelude.{◌≡◌};
    ghost use Rattle.jb_program.specs.Statuses.{failure_of};

    ghost from_gives = { λ fault failure. failure ≡ failure_of fault };

    fn from(fault: JobError) -> ProgramError {
        match fault {
            JobError::Memory => ProgramError::Memory,
            fault => ProgramError::Document(fault),
        }
    }
}

impl From<RestartFault> for ProgramError {
    ghost use Rattle.std.specs.Prelude.{◌≡◌};
    ghost use Rattle.jb_program.specs.Statuses.{restart_failure};

    ghost from_gives = { λ fault failure. failure ≡ restart_failure fault };

    fn from(fault: RestartFault) -> ProgramError {
        match fault {
            RestartFault::Document(fault) => ProgramError::from(fault),
            RestartFault::Saved(place) => ProgramError::Saved(place),
        }
    }
}

impl From<PlanError> for ProgramError {
    ghost use Rattle.std.specs.Prelude.{◌≡◌};
    ghost use Rattle.jb_program.specs.Statuses.{plan_failure};

    ghost from_gives = { λ fault failure. failure ≡ plan_failure fault };

    fn from(fault: PlanError) -> ProgramError {
        match fault {
            PlanError::Memory => ProgramError::Memory,
            fault => ProgramError::Plan(fault),
        }
    }
}
