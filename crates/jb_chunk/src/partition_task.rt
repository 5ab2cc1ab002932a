//! What a partition's task is to the crates above.

ghost use Rattle.std.specs.Prelude.{◌≡◌, ◌↔◌, ◌<◌, ◌≤◌, IsTrue};
ghost use Rattle.jb_rules.specs.Sound.{IsSoundRow};
ghost use Rattle.jb_rules.specs.declared.row.RowState.TheVariants.{Waiting};
ghost use Rattle.jb_base.specs.Limits.{max_rollbacks, max_retry_limit};
ghost use Rattle.jb_artifacts.specs.Meaning.{Fits};
ghost use Rattle.jb_chunk.specs.Attempt.{IsAttempt, ending_of};
ghost use Rattle.jb_chunk.specs.TaskState.{TaskState, IsReady, HasItemCount, HasRepeats, started};

use crate::outcome::Done;
use jb_artifacts::Meaning;
use jb_base::Rules;
use jb_rules::Row;
use std::alloc::Global;

/// A partition's row, with the rules of its step and what it works with. Its meaning is the state that it is in.
///
/// The crates above are generic over this trait. `Task` is its implementation, over whatever artifacts a partition has.
pub trait PartitionTask: Send + Drop {
    /// What the task works with.
    type Artifacts: Meaning + Send + Drop;

    ghost task_state: { Self → TaskState };

    /// Whether the artifacts serve the row: its records are there, and its committed results.
    fn fits(artifacts: &Self::Artifacts, row: &Row) -> bool
        ensures { IsTrue result ↔ Fits (Self.Artifacts.meaning artifacts.now) row.now };

    /// The task of a partition, with reader and writer opened at the row's checkpoint. What is written past it is cut off.
    ///
    /// `item_count` is the number of records in a chunk, 1 to 1,000,000.
    fn start(
        partition: u32,
        row: Row,
        rules: Rules,
        item_count: u64,
        artifacts: Self::Artifacts,
    ) -> Self
        requires fit { Fits (Self.Artifacts.meaning artifacts) row }
        requires sound { IsSoundRow row }
        requires waiting { row.state ≡ Waiting }
        requires item_counted { HasItemCount item_count }
        ensures task { task_state result ≡ started partition row rules item_count (Self.Artifacts.meaning artifacts) }
        ensures ready { IsReady (task_state result) };

    /// The partition's number.
    fn partition(&self) -> u32
        ensures { result ≡ (task_state self.now).partition };

    /// The partition's row.
    fn row(&self) -> &Row
        ensures { result.now ≡ (task_state self.now).row };

    /// Whether reader and writer are at the checkpoint of a sound row. `start` and `attempt` leave the task so.
    fn is_ready(&self) -> bool
        ensures { IsTrue result ↔ IsReady (task_state self.now) };

    /// Attempts the next chunk: reads and processes each of its records, writes the results in one call, and then calls
    /// the collector. A fault is skipped, retried or fails the partition as `jb_rules::decide` says. A call that is
    /// repeated in place is made once more, a read or a write after the reader or the writer was opened again.
    ///
    /// If the chunk isn't committed, reader and writer are at the checkpoint again. Without memory the row is as it
    /// was, too.
    fn attempt(self, alloc: Global) -> Done<Self>
        requires waiting { (task_state self).row.state ≡ Waiting }
        requires room { (task_state self).row.counts.rollback < max_rollbacks }
        requires repeats { HasRepeats (task_state self).rules (task_state self).row }
        requires ready { IsReady (task_state self) }
        ensures attempt { IsAttempt (task_state self) (ending_of (task_state result.task) result.outcome result.values.items result.again) }
        ensures few { result.again ≤ max_retry_limit }
        ensures ready { IsReady (task_state result.task) };

    /// What the task worked with, as it is now.
    fn into_artifacts(self) -> Self::Artifacts
        ensures { Self.Artifacts.meaning result ≡ (task_state self).artifacts };
}
