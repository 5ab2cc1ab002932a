//! Laws of attempts and events. The functions do nothing: their contracts are the laws.

ghost use Rattle.jb_workers.specs.Entering.{RowsAgree};
ghost use Rattle.jb_workers.specs.inside.Fitting.{AttemptsFit};

use jb_chunk::{attempts_are_steps, tasks_stand_at_checkpoints};

/// If the desk's row of a partition is the task's own, the event of the task's attempt changes it as the attempt changes the
/// task's row: both end the same.
pub fn attempts_enter()
    ensures { RowsAgree }
{
    attempts_are_steps();
}

/// What comes of an attempt has a place in an event. What a commit adds is a delta. There are no more results than a step has
/// records, and no more repeats than a chunk may make.
pub(crate) fn attempts_fit()
    ensures { AttemptsFit }
{
    attempts_are_steps();
    tasks_stand_at_checkpoints();
}
