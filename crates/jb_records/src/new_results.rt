//! What is new of each partition since the interval before.

ghost use Rattle.std.specs.Prelude.{◌≡◌, ◌≤◌, ◌<◌, ◌+◌, ◌^◌, ◌++◌, drop, length, map, IfOk, OnOk};
ghost use Rattle.jb_base.specs.Limits.{max_partitions};
ghost use Rattle.jb_step.specs.Answers.{given_back};
ghost use Rattle.jb_records.specs.inside.InMemory.{new_results_from};

use crate::artifacts::RecordsArtifacts;
use crate::step_function::StepFunction;
use jb_artifacts::{ItemWriter, Meaning};
use jb_base::{MAX_PARTITIONS, PackedList};
use jb_step::Prepared;
use std::alloc::{AllocError, Global};

/// How many results of each partition were reported before: as many as its row counts as written.
pub(crate) fn written_counts(alloc: Global, prepared: &Prepared) -> Result<Vec<u64>, AllocError>
    requires { length prepared.now.rows ≤ max_partitions }
    ensures { IfOk result (λ written_before. written_before.items ≡ map (λ row. row.written) prepared.now.rows) }
{
    let mut written_before = Vec::new(alloc);
    for partition in 0..MAX_PARTITIONS as u32 + 1 {
        let Some(row) = prepared.row(partition) else {
            return Ok(written_before);
        };
        written_before.push(row.written)?;
    }
    unreachable!()
}

/// A copy of the results that a writer has from the one of this index on.
fn written_from<W: ItemWriter>(
    alloc: Global,
    writer: &W,
    from: u64,
) -> Result<PackedList, AllocError>
    ensures { IfOk result (λ part. part ≡ drop from (W.writer writer.now).written) }
{
    let mut part = PackedList::new(alloc);
    for index in from..writer.count() {
        let Some(result) = writer.item_at(index) else {
            unreachable!();
        };
        part.push(result)?;
    }
    Ok(part)
}

/// Adds what is new of each partition from number `partition` on to `new_results`.
fn push_new_results<F: StepFunction + Drop>(
    alloc: Global,
    partition: u64,
    written_before: &[u64],
    artifacts: &[(u32, RecordsArtifacts<F>)],
    new_results: &mut Vec<PackedList>,
) -> Result<(), AllocError>
    requires { partition + length written_before.now < 2 ^ 64 }
    ensures { OnOk result (new_results.new.items ≡ new_results.old.items ++ new_results_from partition written_before.now (given_back ⟦<RecordsArtifacts<F> as Meaning>⟧.meaning artifacts.now)) }
{
    let Some((count, written_before)) = written_before.split_first() else {
        return Ok(());
    };
    match artifacts.split_first() {
        Some((one, others)) if u64::from(one.0) == partition => {
            new_results.push(written_from(alloc, &one.1.artifacts().inner.writer, *count)?)?;
            push_new_results(alloc, partition + 1, written_before, others, new_results)
        }
        _ => {
            new_results.push(PackedList::new(alloc))?;
            push_new_results(alloc, partition + 1, written_before, artifacts, new_results)
        }
    }
}

/// What is new of each partition: what its writer holds after the results that were reported before.
pub(crate) fn new_results_of<F: StepFunction + Drop>(
    alloc: Global,
    written_before: &[u64],
    artifacts: &[(u32, RecordsArtifacts<F>)],
) -> Result<Vec<PackedList>, AllocError>
    requires { length written_before.now < 2 ^ 64 }
    ensures { IfOk result (λ new_results. new_results.items ≡ new_results_from 0 written_before.now (given_back ⟦<RecordsArtifacts<F> as Meaning>⟧.meaning artifacts.now)) }
{
    let mut new_results = Vec::new(alloc);
    push_new_results(alloc, 0, written_before, artifacts, &mut new_results)?;
    Ok(new_results)
}
