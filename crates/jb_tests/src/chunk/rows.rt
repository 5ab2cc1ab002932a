//! Partitions run alone with the ready artifacts: that they find their memory.

use super::course::ran_alone;
use super::told::{ReadyArtifacts, artifacts_of, begun};
use jb_artifacts::{ItemReader, ItemWriter};
use jb_chunk::{Alone, AloneEnd, PartitionTask, Task};
use jb_rules::Row;
use std::alloc::{AllocError, Global};
use std::test::*;

/// What a partition that ran alone left.
#[derive(Drop)]
struct Ran {
    row: Row,
    end: AloneEnd,
    last: Vec<u8>,
}

/// What the partition left.
fn left(alloc: Global, alone: Alone<Task<ReadyArtifacts>>) -> Result<Ran, Fail> {
    let row = *alone.task.row();
    let artifacts = alone.task.into_artifacts();
    let last = match artifacts.writer.item_at(row.written.saturating_sub(1)) {
        Some(text) => Vec::from_slice(alloc, text)?,
        None => Vec::new(alloc),
    };
    Ok(Ran {
        row,
        end: alone.end,
        last,
    })
}

/// Runs a partition of these records alone. Answers the last output too.
fn run(alloc: Global, told: &str, item_count: u64) -> Result<Ran, Fail> {
    let (artifacts, _) = artifacts_of(alloc, told)?;
    let hi = artifacts.reader.end();
    let task = begun(hi, item_count, artifacts).ok_or("a task")?;
    left(alloc, ran_alone(alloc, task).ok_or("a task that waits")?)
}

/// With any one request refused, the partition finishes, or there is no memory for one of its two chunks: then it waits at the checkpoint
/// before that chunk.
#[test]
fn finishes_or_wants_memory(rt: HostRuntime) -> Result<(), Fail> {
    let ran = run(rt.alloc(), "a,b,c,d", 2)?;
    let stands = (ran.row.at, ran.row.written, ran.row.counts.commit);
    if ran.end == AloneEnd::Finished {
        assert!(rt; stands == (4, 4, 2));
    } else {
        assert!(rt; ran.end == AloneEnd::NoMemory && ran.row.state.is_waiting());
        assert!(rt; stands == (0, 0, 0) || stands == (2, 2, 1));
    }
    Ok(())
}

/// 100,000 records, with this after the last.
pub(super) fn many_records(alloc: Global, end: &str) -> Result<String, AllocError> {
    let mut row = String::new(alloc);
    for _ in 0..99_999 {
        row.push_str("r,")?;
    }
    row.push_str(end)?;
    Ok(row)
}

/// One chunk of many records, and many chunks of few: each record has a result.
#[test]
fn a_hundred_thousand_records(rt: HostRuntime) -> Result<(), Fail> {
    let records = many_records(rt.alloc(), "r")?;
    for (item_count, commits) in [(1_000_000, 1), (10, 10_000)] {
        let ran = run(rt.alloc(), records.as_str(), item_count)?;
        assert!(rt; ran.end == AloneEnd::Finished && ran.last.as_slice() == b"xr".as_slice());
        assert!(rt; ran.row.written == 100_000 && ran.row.counts.commit == commits);
    }
    Ok(())
}
