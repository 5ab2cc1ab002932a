//! An attempt whose memory is refused, and the one after it.

use super::course::attempted;
use super::told::{ReadyArtifacts, artifacts_of, begun};
use jb_artifacts::ItemWriter;
use jb_chunk::{Done, Outcome, PartitionTask, Task};
use std::alloc::Global;
use std::process::Abort;
use std::test::*;

pub(crate) type Plain = Task<ReadyArtifacts>;

/// The attempt that committed the chunk: the first, or the second where the first found no memory and left the row as it was.
fn committed_by<T: PartitionTask>(
    rt: &impl Abort,
    alloc: Global,
    task: T,
) -> Result<Done<T>, Fail> {
    let row = *task.row();
    let done = attempted(alloc, task).ok().ok_or("a task")?;
    if done.outcome != Outcome::NoMemory {
        return Ok(done);
    }
    assert!(rt; done.values.is_empty() && *done.task.row() == row);
    let again = attempted(alloc, done.task);
    assert!(rt; again.is_ok());
    Ok(again.ok().ok_or("a task")?)
}

/// The same of a task over two letters, which are one chunk.
pub(crate) fn committed(rt: &impl Abort, alloc: Global) -> Result<Done<Plain>, Fail> {
    let (artifacts, _) = artifacts_of(alloc, "a,b")?;
    let task = begun(2, 2, artifacts).ok_or("a task")?;
    committed_by(rt, alloc, task)
}

/// With any one request refused, the chunk is committed or finds no memory; and then the same task commits it.
#[test]
fn wants_memory_or_answers_in_full(rt: HostRuntime) -> Result<(), Fail> {
    let done = committed(&rt, rt.alloc())?;
    assert!(rt; matches!(done.outcome, Outcome::Committed(_)) && done.values.len() == 2);
    let row = *done.task.row();
    assert!(rt; (row.at, row.written, row.counts.commit) == (2, 2, 1));
    let writer = done.task.into_artifacts().writer;
    assert!(rt; writer.count() == 2 && writer.item_at(1) == Some(b"xb".as_slice()));
    Ok(())
}
