//! The results of each partition: taken from an earlier run's, and put in their places.

ghost use Rattle.std.specs.Prelude.{◌≡◌, ◌≤◌, ◌⊎◌, ◌↔◌, length, IfErr, IfOk, IsTrue};
ghost use Rattle.jb_base.specs.Limits.{max_partitions};
ghost use Rattle.jb_step.specs.Answers.{given_back};
ghost use Rattle.jb_records.specs.Causes.{written_in};
ghost use Rattle.jb_records.specs.declared.error.RecordsStepError.TheVariants.{Memory, Results};
ghost use Rattle.jb_records.specs.PartitionResults.{AreNumbered, joined, newer_partition_results};

use crate::artifacts::RecordsArtifacts;
use crate::error::RecordsStepError;
use crate::step_function::StepFunction;
use jb_artifacts::Meaning;
use jb_base::{MAX_PARTITIONS, PackedList};
use jb_rules::Row;
use jb_step::Prepared;
use std::alloc::{AllocError, Global};

/// The results that an earlier run wrote, for each partition as many as its row says.
pub(crate) fn partition_results_of(
    alloc: Global,
    prepared: &Prepared,
    earlier: &PackedList,
) -> Result<Vec<PackedList>, RecordsStepError>
    requires { length prepared.now.rows ≤ max_partitions }
    ensures why { IfErr result (λ e. (e ≡ Memory) ⊎ (e ≡ Results) × (length earlier.now ≡ written_in prepared.now.rows → ⊥)) }
    ensures numbered { IfOk result (λ partition_results. AreNumbered prepared.now.rows partition_results.items) }
    ensures joined { IfOk result (λ partition_results. joined partition_results.items ≡ earlier.now) }
{
    let mut partition_results = Vec::new(alloc);
    let mut place = 0;
    for partition in 0..MAX_PARTITIONS as u32 + 1 {
        let Some(row) = prepared.row(partition) else {
            return if place == earlier.len() {
                Ok(partition_results)
            } else {
                Err(RecordsStepError::Results)
            };
        };
        if row.written > (earlier.len() - place) as u64 {
            return Err(RecordsStepError::Results);
        }
        let next = place + row.written as usize;
        partition_results.push(earlier.part(alloc, place, next)?)?;
        place = next;
    }
    unreachable!()
}

/// Whether each partition has as many results as its row says.
pub(crate) fn are_numbered(rows: &[Row], partition_results: &[PackedList]) -> bool
    ensures { IsTrue result ↔ AreNumbered rows.now partition_results.now }
{
    match (rows.split_first(), partition_results.split_first()) {
        (None, None) => true,
        (Some((row, rows)), Some((share, partition_results))) => {
            share.len() as u64 == row.written && are_numbered(rows, partition_results)
        }
        _ => false,
    }
}

// Puts the results that came back in the places of their partitions.
fn put_all<F: StepFunction + Drop>(
    artifacts: &mut Vec<(u32, RecordsArtifacts<F>)>,
    partition_results: &mut [PackedList],
)
    ensures { partition_results.new ≡ newer_partition_results (given_back ⟦<RecordsArtifacts<F> as Meaning>⟧.meaning artifacts.old.items) partition_results.old }
{
    if let Some((partition, last)) = artifacts.pop() {
        let index = partition as usize;
        if index < partition_results.len() {
            partition_results[index] = last.into_artifacts().inner.writer.into_written();
        }
        put_all(artifacts, partition_results);
    }
}

/// The shares with the results that came back in the places of their partitions.
pub(crate) fn put_back<F: StepFunction + Drop>(
    artifacts: Vec<(u32, RecordsArtifacts<F>)>,
    partition_results: Vec<PackedList>,
) -> Vec<PackedList>
    ensures { result.items ≡ newer_partition_results (given_back ⟦<RecordsArtifacts<F> as Meaning>⟧.meaning artifacts.items) partition_results.items }
{
    let mut artifacts = artifacts;
    let mut partition_results = partition_results;
    put_all(&mut artifacts, &mut partition_results);
    partition_results
}

/// The shares, joined in their order.
pub(crate) fn joined(
    alloc: Global,
    partition_results: &[PackedList],
) -> Result<PackedList, AllocError>
    ensures { IfOk result (λ all. all ≡ joined partition_results.now) }
{
    let mut all = PackedList::new(alloc);
    for share in partition_results {
        all.append(share)?;
    }
    Ok(all)
}
