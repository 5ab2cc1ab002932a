//! The rows at the end of a step's rounds, compared with the repository's.

ghost use Rattle.std.specs.Prelude.{◌≡◌, ◌≤◌, None, IfOk, length};
ghost use Rattle.jb_base.specs.Limits.{max_partitions};
ghost use Rattle.jb_step.specs.preparing.Setup.{rows_now};
ghost use Rattle.jb_step.specs.inside.table.Places.{table_in};
ghost use Rattle.jb_step.specs.Tables.{ArePlaced, held_in};

use crate::preparing::prepared::Prepared;
use crate::rounds::error::StepRunError;
use crate::rounds::plan::row_of;
use crate::rounds::runner::{RoundRunner, StepGate, StepLedger, StepTask, StepThreads};
use jb_chunk::PartitionTask;
use jb_repo::Snapshot;
use jb_rules::Row;

// The first partition whose row now isn't the one that is shown.
fn first_other<T: PartitionTask>(rows: &[Row], held: &[Option<T>], shown: &[Row]) -> Option<u32>
    requires placed { ArePlaced 0 (table_in T.task_state held.now) }
    requires few { length rows.now ≤ max_partitions }
    ensures { result ≡ None → shown.now ≡ rows_now rows.now (held_in (table_in T.task_state held.now)) }
{
    for (index, row) in rows.iter().enumerate() {
        let partition = index as u32;
        let Some(one) = shown.get(index) else {
            return Some(partition);
        };
        if *row_of(held, partition, row) != *one {
            return Some(partition);
        }
    }
    if rows.len() < shown.len() {
        return Some(rows.len() as u32);
    }
    None
}

impl<L: StepLedger, G: StepGate, R: StepThreads> RoundRunner<'_, L, G, R> {
    /// The repository's rows, which are the tasks' own and the prepared ones.
    pub(crate) fn rows_shown<T: StepTask>(
        &self,
        prepared: &Prepared,
        held: &[Option<T>],
    ) -> Result<Snapshot, StepRunError>
        requires { ArePlaced 0 (table_in T.task_state held.now) }
        ensures { IfOk result (λ snapshot. snapshot.rows.items ≡ rows_now prepared.now.rows (held_in (table_in T.task_state held.now))) }
    {
        let snapshot = self.snapshot()?;
        let rows = prepared.begun_rows();
        if let Some(partition) = first_other(rows, held, snapshot.rows.as_slice()) {
            return Err(StepRunError::Row(partition));
        }
        Ok(snapshot)
    }
}
