//! A task's attempts, one after another.

ghost use Rattle.std.specs.Prelude.{◌≡◌, ◌+◌, ◌<◌, ◌≤◌};
ghost use Rattle.jb_base.specs.Limits.{max_retry_limit, max_rollbacks, max_in_place};
ghost use Rattle.jb_rules.specs.declared.row.RowState.TheVariants.{Waiting};
ghost use Rattle.jb_chunk.specs.Alone.{EndsAlone, KeepsPlain};
ghost use Rattle.jb_chunk.specs.TaskState.{IsReady};

use crate::outcome::{Done, Outcome};
use crate::partition_task::PartitionTask;
use crate::task::Task;
use jb_plan::chunks_follow_one_another;
use std::alloc::Global;

/// How a task that ran alone ended.
#[derive(Clone, Copy, Debug, PartialEq, Eq)]
pub enum AloneEnd {
    /// No record is left.
    Finished,
    /// A fault was neither skipped nor retried.
    Failed,
    /// There was no memory for a chunk.
    NoMemory,
}

/// A task that ran alone.
#[derive(Drop)]
pub struct Alone<T = Task> {
    /// The task as its last attempt left it.
    pub task: T,
    /// How it ended.
    pub end: AloneEnd,
}

/// Attempts one chunk after another, until no record is left, the partition fails, or a chunk finds no memory. The
/// collector's texts are dropped.
pub fn run_alone<T: PartitionTask>(alloc: Global, task: T) -> Alone<T>
    requires waiting { (T.task_state task).row.state ≡ Waiting }
    requires room { (T.task_state task).row.counts.rollback + max_retry_limit < max_rollbacks }
    requires repeats { (T.task_state task).row.in_place + max_retry_limit ≤ max_in_place }
    requires ready { IsReady (T.task_state task) }
    ensures alone { EndsAlone (T.task_state task) result.end (T.task_state result.task) }
    ensures plain { KeepsPlain (T.task_state task) result.end (T.task_state result.task) }
    ensures ready { IsReady (T.task_state result.task) }
{
    chunks_follow_one_another();
    let mut task = task;
    loop {
        let Done {
            task: next,
            outcome,
            values: _,
            again: _,
        } = task.attempt(alloc);
        task = next;
        match outcome {
            Outcome::Committed(_) => {
                if task.row().at == task.row().hi {
                    let end = AloneEnd::Finished;
                    return Alone { task, end };
                }
            }
            Outcome::Rolled(_) => {}
            Outcome::Failed(_) => {
                let end = AloneEnd::Failed;
                return Alone { task, end };
            }
            Outcome::NoMemory => {
                let end = AloneEnd::NoMemory;
                return Alone { task, end };
            }
        }
    }
}
