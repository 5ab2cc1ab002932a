//! Why a round has no answer.

use jb_repo::Refused;
use thiserror::Error;

/// Why a round has no answer. Then no lane runs, and Round is not in the history.
#[derive(Clone, Copy, Debug, PartialEq, Eq, Error)]
pub enum RoundError {
    /// The desk refused an event of a lane, or a lane's task was at its limit of rollbacks or of repeats: this is the lowest such lane's
    /// refusal. Or the desk refused Round.
    #[error("{0}")]
    Refused(Refused),
    /// A worker could not be started.
    #[error("WorkerNotStarted")]
    WorkerNotStarted,
    /// There was no memory for ordering the works or for gathering what came of them.
    #[error("no memory")]
    Memory,
}
