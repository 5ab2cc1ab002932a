//! What the run before a restart left.

use super::outputs::Outputs;
use jb_saved::SavedRows;

/// What the run before a restart left of the step at which it ended: as many writers as rows, each with the results that
/// its row committed at least.
#[derive(Drop)]
pub struct Resume {
    /// What the step's writers held.
    pub outputs: Outputs,
    /// The step's rows, and its id.
    pub saved: SavedRows,
}
