//! The faults that a slice's checkpoints name.

ghost use Rattle.std.specs.Prelude.{ℕ, List, ◌≡◌, ◌<◌, ◌^◌, ◌++◌, ◌∷◌, [], length, map, option_copied, option_map, IfOk, OnOk};
ghost use Rattle.jb_records.specs.Intervals.{RunState};
ghost use Rattle.jb_rules.specs.States.{is_failed};
ghost use Rattle.jb_slice_file.specs.CheckpointBytes.{CheckpointBytes};
ghost use Rattle.jb_slices.specs.Failures.{failure_and};
ghost use Rattle.jb_slices.specs.Function.{Function};
ghost use Rattle.jb_slices.specs.Job.{Limits};
ghost use Rattle.jb_slices.specs.Slice.{Functions};
ghost use Rattle.jb_slice_run.specs.Held.{faults_in, new_output_in};
ghost use Rattle.jb_slice_run.specs.Jobs.{job_in};
ghost use Rattle.jb_slice_run.specs.Named.{AreNamed, HoldsFaults, failure_in, failures_by, faults_grown, faults_held, one_after, skips_by};
ghost use Rattle.jb_slice_run.specs.Work.{HasIntervals};

use crate::fault::{Fault, PartitionFaults};
use crate::first::first_and_others;
use crate::job::SliceJob;
use crate::partition_output::PartitionOutput;
use jb_rules::Row;
use std::alloc::{AllocError, Global};

/// A partition that failed.
#[derive(Clone, Copy, Debug)]
pub struct PartitionFailure {
    /// Its number, the first being 0.
    pub partition: u32,
    /// The place in the slice of its first item, the first being 0.
    pub lo: u64,
    /// One past the place of its last item.
    pub hi: u64,
    /// The fault by which it failed.
    pub fault: Fault,
}

/// The faults that a slice's checkpoints name.
#[derive(Drop)]
pub struct SliceFaults {
    /// Those that were skipped, in the order of their items.
    pub skips: Vec<Fault>,
    /// The partitions that failed in the last interval, in order.
    pub failures: Vec<PartitionFailure>,
}

/// The faults of a partition after this new output. `before` has its faults until then, if it has started.
fn one_after(
    alloc: Global,
    before: Option<&PartitionFaults>,
    new: &PartitionOutput,
) -> Result<PartitionFaults, AllocError>
    ensures { IfOk result (λ faults. faults_held faults ≡ one_after (option_map faults_held (option_copied before.entry)) (new_output_in new.now)) }
{
    let mut skips = match before {
        Some(before) => Vec::from_slice(alloc, &before.skips)?,
        None => Vec::new(alloc),
    };
    skips.extend_from_slice(&new.skips)?;
    Ok(PartitionFaults {
        skips,
        stop: new.stop,
    })
}

/// The faults of the partitions after this new output.
#[tactic(auto, using(std::proofs::lemmas::Grind::common_steps, crate::proofs::Grown::none_after))]
pub(crate) fn faults_after(
    alloc: Global,
    before: &[PartitionFaults],
    new_output: &[PartitionOutput],
) -> Result<Vec<PartitionFaults>, AllocError>
    ensures { IfOk result (λ faults. map faults_held faults.items ≡ faults_grown (map faults_held before.now) (map new_output_in new_output.now)) }
{
    let mut all = Vec::new(alloc);
    let mut before = before;
    for new in new_output {
        let (earlier, others) = first_and_others(before);
        all.push(one_after(alloc, earlier, new)?)?;
        before = others;
    }
    Ok(all)
}

/// The faults that these partitions skipped.
fn skips_of(alloc: Global, partitions: &[PartitionFaults]) -> Result<Vec<Fault>, AllocError>
    ensures { IfOk result (λ skips. faults_in skips.items ≡ skips_by (map faults_held partitions.now)) }
{
    let mut all = Vec::new(alloc);
    for faults in partitions {
        all.extend_from_slice(&faults.skips)?;
    }
    Ok(all)
}

/// Adds a partition to those that failed, if it failed.
fn add_failure(
    all: &mut Vec<PartitionFailure>,
    partition: u32,
    row: &Row,
    faults: &PartitionFaults,
) -> Result<(), AllocError>
    ensures { OnOk result (map failure_in all.new.items ≡ map failure_in all.old.items ++ failure_and partition row.now (is_failed row.now.state) (faults_held faults.now).stop []) }
{
    if let Some(fault) = faults.stop
        && row.state.is_failed()
    {
        all.push(PartitionFailure {
            partition,
            lo: row.lo,
            hi: row.hi,
            fault,
        })?;
    }
    Ok(())
}

/// The failed ones of these partitions.
#[tactic(auto, using(std::proofs::lemmas::Grind::common_steps, crate::proofs::Grown::none_left))]
fn failures_of(
    alloc: Global,
    rows: &[Row],
    partitions: &[PartitionFaults],
) -> Result<Vec<PartitionFailure>, AllocError>
    requires { length partitions.now < 2 ^ 32 }
    ensures { IfOk result (λ failures. map failure_in failures.items ≡ failures_by 0 rows.now (map faults_held partitions.now)) }
{
    let mut all = Vec::new(alloc);
    let mut rows = rows;
    let mut partition: u32 = 0;
    for faults in partitions {
        let Some((row, others)) = rows.split_first() else {
            return Ok(all);
        };
        add_failure(&mut all, partition, row, faults)?;
        rows = others;
        partition += 1;
    }
    Ok(all)
}

/// The faults that a slice's checkpoints name: those that its partitions skipped, and those by which they failed. The rows are those of the last
/// interval. The faults are those that its run holds.
pub fn faults_of_slice(
    alloc: Global,
    job: &SliceJob,
    rows: &[Row],
    faults: &[PartitionFaults],
) -> Result<SliceFaults, AllocError>
    ensures { (functions : Functions) (f : Function) (limits : Limits) (number : ℕ) (items : List (List ℕ)) (s : RunState) (all : List CheckpointBytes)
        → (at : HasIntervals (job_in job.now) functions f limits number items s rows.now all) → HoldsFaults (map faults_held faults.now) all → IfOk result (AreNamed at.checkpoints) }
{
    let skips = skips_of(alloc, faults)?;
    // There are never more entries than partitions.
    if faults.len() > job.partitions as usize {
        return Ok(SliceFaults {
            skips,
            failures: Vec::new(alloc),
        });
    }
    let failures = failures_of(alloc, rows, faults)?;
    Ok(SliceFaults { skips, failures })
}
