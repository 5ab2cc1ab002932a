//! A partition's row with its rules and artifacts.

ghost use Rattle.std.specs.Prelude.{◌≡◌, ◌≤◌, ◌<◌, ◌-◌, IfOk, [], length};
ghost use Rattle.jb_rules.specs.Sound.{IsSoundRow};
ghost use Rattle.jb_base.specs.Limits.{max_rollbacks};
ghost use Rattle.jb_rules.specs.declared.counts.Counts.{Counts};
ghost use Rattle.jb_chunk.specs.Attempt.{row_after, values_of};
ghost use Rattle.jb_chunk.specs.inside.TriedChunk.{HasDelta};
ghost use Rattle.jb_chunk.specs.declared.outcome.Outcome.TheVariants.{Committed, NoMemory};
ghost use Rattle.jb_artifacts.specs.Reader.{reader_end};
ghost use Rattle.jb_chunk.specs.TaskState.{at_checkpoint};

use crate::block::try_block;
use crate::checkpoint::open_at_checkpoint;
use crate::outcome::{Done, Outcome};
use crate::partition_artifacts::PartitionArtifacts;
use crate::partition_task::PartitionTask;
use jb_artifacts::{Artifacts, Item, RowView};
use jb_base::{MAX_ITEM_COUNT, Rules};
use jb_rules::Row;
use std::alloc::{AllocError, Global};

/// A partition's row, rules and artifacts, between two chunks.
#[derive(Drop)]
pub struct Task<A = Artifacts> {
    partition: u32,
    row: Row,
    rules: Rules,
    item_count: u64,
    artifacts: A,
}

impl<A: PartitionArtifacts + Send> PartitionTask for Task<A> {
    type Artifacts = A;

    ghost task_state = { λ t. record {
      partition = t.partition;
      row = t.row;
      rules = t.rules;
      item_count = t.item_count;
      artifacts = A.Meaning.meaning t.artifacts;
    } };

    fn fits(artifacts: &A, row: &Row) -> bool {
        artifacts.fit(row)
    }

    fn start(partition: u32, row: Row, rules: Rules, item_count: u64, artifacts: A) -> Task<A> {
        let mut artifacts = artifacts;
        open_at_checkpoint(&mut artifacts, &row);
        Task {
            partition,
            row,
            rules,
            item_count,
            artifacts,
        }
    }

    fn partition(&self) -> u32 {
        self.partition
    }

    fn row(&self) -> &Row {
        &self.row
    }

    fn is_ready(&self) -> bool {
        // Unused, but it brings the limit's invariant into the proof.
        let _limit = self.rules.retry_limit;
        self.row.sound()
            && 1 <= self.item_count
            && self.item_count <= MAX_ITEM_COUNT
            && self.artifacts.fit(&self.row)
            && self.artifacts.place() == self.row.at
            && self.artifacts.count() == self.row.written
    }

    fn attempt(self, alloc: Global) -> Done<Task<A>> {
        let Task {
            partition,
            row,
            rules,
            item_count,
            mut artifacts,
        } = self;
        let block = row.block(item_count);
        let mut repeated = row;
        match try_block(alloc, &mut artifacts, &rules, &mut repeated, item_count) {
            Err(_) => unfinished(alloc, partition, row, rules, item_count, artifacts),
            Ok(end) => {
                let after = ended_row(&repeated, block.hi, end);
                match values_after(alloc, &artifacts, partition, &after, end) {
                    Err(_) => unfinished(alloc, partition, row, rules, item_count, artifacts),
                    Ok(values) => Done {
                        task: Task {
                            partition,
                            row: after,
                            rules,
                            item_count,
                            artifacts,
                        },
                        outcome: end,
                        values,
                        again: repeated.in_place - row.in_place,
                    },
                }
            }
        }
    }

    fn into_artifacts(self) -> A {
        self.artifacts
    }
}

/// The row after its chunk, up to `hi`, ended so.
fn ended_row(row: &Row, hi: u64, end: Outcome) -> Row
    requires sound { IsSoundRow row.now }
    requires from { row.now.at < hi }
    requires to { hi ≤ row.now.hi }
    requires room { row.now.counts.rollback < max_rollbacks }
    requires counted { HasDelta (hi - row.now.at) end }
    ensures row { result ≡ row_after row.now hi end }
    ensures sound { IsSoundRow result }
{
    match end {
        Outcome::Committed(delta) => row.committed(hi, &delta),
        Outcome::Rolled(_) => row.rolled(hi),
        Outcome::Failed(_) => row.failed(),
        Outcome::NoMemory => *row,
    }
}

/// The collector's texts for a chunk that ended so and left this row.
fn values_after<A: PartitionArtifacts>(
    alloc: Global,
    artifacts: &A,
    partition: u32,
    row: &Row,
    end: Outcome,
) -> Result<Vec<Item>, AllocError>
    ensures { IfOk result (λ values. values.items ≡ values_of (A.meaning artifacts.now).collector partition row.now end) }
{
    match end {
        Outcome::Committed(_) => collect_values(alloc, artifacts, partition, row),
        _ => Ok(Vec::new(alloc)),
    }
}

/// The collector's texts for a committed chunk that left this row.
fn collect_values<A: PartitionArtifacts>(
    alloc: Global,
    artifacts: &A,
    partition: u32,
    row: &Row,
) -> Result<Vec<Item>, AllocError>
    ensures { (delta : Counts) → IfOk result (λ values. values.items ≡ values_of (A.meaning artifacts.now).collector partition row.now (Committed delta)) }
{
    let view = RowView {
        partition,
        lo: row.lo,
        hi: row.hi,
        at: row.at,
        counts: row.counts,
        last: false,
    };
    let mut values = Vec::new(alloc);
    values.push(artifacts.collect(&view)?)?;
    if row.at == row.hi {
        let last = RowView { last: true, ..view };
        values.push(artifacts.collect(&last)?)?;
    }
    Ok(values)
}

/// Reader and writer are at the checkpoint again, and the row is as it was.
fn unfinished<A: PartitionArtifacts>(
    alloc: Global,
    partition: u32,
    row: Row,
    rules: Rules,
    item_count: u64,
    artifacts: A,
) -> Done<Task<A>>
    requires from { (A.meaning artifacts).reader.first ≤ row.at }
    requires to { row.at ≤ reader_end (A.meaning artifacts).reader }
    requires count { row.written ≤ length (A.meaning artifacts).writer.written }
    ensures outcome { result.outcome ≡ NoMemory }
    ensures values { result.values.items ≡ [] }
    ensures again { result.again ≡ 0 }
    ensures partition { result.task.partition ≡ partition }
    ensures row { result.task.row ≡ row }
    ensures rules { result.task.rules ≡ rules }
    ensures item_count { result.task.item_count ≡ item_count }
    ensures artifacts { A.meaning result.task.artifacts ≡ at_checkpoint row (A.meaning artifacts) }
{
    let mut artifacts = artifacts;
    open_at_checkpoint(&mut artifacts, &row);
    Done {
        task: Task {
            partition,
            row,
            rules,
            item_count,
            artifacts,
        },
        outcome: Outcome::NoMemory,
        values: Vec::new(alloc),
        again: 0,
    }
}
