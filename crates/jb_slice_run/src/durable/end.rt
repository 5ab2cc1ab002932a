//! How a slice ended, with the faults that its checkpoints name.

ghost use Rattle.std.specs.Prelude.{◌≡◌, ◌⊎◌, ℕ, List, IfErr, IfOk, MatchResult, false, map};
ghost use Rattle.jb_collect.specs.declared.calls.Status.TheVariants.{Completed, Failed};
ghost use Rattle.jb_records.specs.PartitionResults.{joined};
ghost use Rattle.jb_slice_file.specs.CheckpointBytes.{CheckpointBytes};
ghost use Rattle.jb_slices.specs.Function.{Function};
ghost use Rattle.jb_slices.specs.Slice.{Functions};
ghost use Rattle.jb_slice_run.specs.Causes.{Ending, Explains};
ghost use Rattle.jb_slice_run.specs.Named.{faults_held};
ghost use Rattle.jb_slice_run.specs.Refusals.{IsRefusal};
ghost use Rattle.jb_slice_run.specs.Work.{HaveRowsEnded};
ghost use Rattle.jb_step.specs.Statuses.{status_of};
ghost use Rattle.jb_slice_run.specs.durable.Ends.{Tells};
ghost use Rattle.jb_slice_run.specs.durable.Work.{LoopEndMatchesRows, StandsAfter, slice_input_of};
ghost use Rattle.jb_slice_run.specs.declared.durable.loop_end.LoopEnd.TheVariants.{Failed as Failing, Whole};

use crate::durable::loop_end::LoopEnd;
use crate::durable::seen::Placed;
use crate::{
    Fault, PartitionFailure, PartitionFaults, ResumableRun, SliceError, SliceJob, faults_of_slice,
    rows_are_progress,
};
use jb_base::PackedList;
use jb_collect::Status;
use jb_rows::RowFunction;
use jb_rules::Row;
use jb_slices::{failures_are_named, slices_follow_the_rules, slices_have_results};
use std::alloc::{AllocError, Global};

/// How a slice ended.
#[derive(Drop)]
pub struct SliceEnd {
    /// COMPLETED or FAILED.
    pub status: Status,
    /// The rows of its partitions.
    pub rows: Vec<Row>,
    /// The results of each partition. Those of a FAILED slice are the results so far.
    pub results: Vec<PackedList>,
    /// The faults that were skipped, in the order of their items.
    pub skips: Vec<Fault>,
    /// The partitions that failed, each with the fault by which it failed.
    pub failures: Vec<PartitionFailure>,
}

impl SliceEnd {
    /// The results of all partitions, one partition after the other.
    pub fn all_results(&self, alloc: Global) -> Result<PackedList, AllocError>
        ensures { IfOk result (λ all. all ≡ joined self.now.results.items) }
    {
        let mut all = PackedList::new(alloc);
        for share in &self.results {
            all.append(share)?;
        }
        Ok(all)
    }
}

/// The status of a slice whose intervals ended in this way.
fn status_at(loop_end: LoopEnd) -> Result<Status, SliceError>
    ensures either { IfOk result (λ status. (status ≡ Completed) ⊎ (status ≡ Failed)) }
    ensures whole { IfOk result (λ status. status ≡ Completed → loop_end ≡ Whole) }
    ensures failed { IfOk result (λ status. status ≡ Failed → loop_end ≡ Failing) }
    ensures again { loop_end ≡ Whole → MatchResult result (λ status. status ≡ Completed) (λ e. ⊥) }
    ensures why { IfErr result (Explains (Ending loop_end)) }
    ensures own { IfErr result (λ e. IsRefusal e → ⊥) }
{
    match loop_end {
        LoopEnd::Whole => Ok(Status::Completed),
        LoopEnd::Failed => Ok(Status::Failed),
        LoopEnd::Stopped => Err(SliceError::Stopped),
        LoopEnd::Intervals => Err(SliceError::TooMany),
    }
}

/// The results of each partition, its row, and its faults.
fn parts_of<F: RowFunction + Drop>(
    place: ResumableRun<F>,
) -> (Vec<PackedList>, Vec<Row>, Vec<PartitionFaults>)
    ensures results { result.0.items ≡ (⟦<ResumableRun<F> as Placed>⟧.seen place).run.partition_results }
    ensures rows { result.1.items ≡ (⟦<ResumableRun<F> as Placed>⟧.seen place).rows }
    ensures faults { map faults_held result.2.items ≡ (⟦<ResumableRun<F> as Placed>⟧.seen place).faults }
{
    let (run, rows, faults) = place.into_parts();
    (run.into_results(), rows, faults)
}

/// The end of a slice whose intervals ended in this way.
pub(crate) fn ended<F: RowFunction + Drop>(
    alloc: Global,
    job: &SliceJob,
    place: ResumableRun<F>,
    loop_end: LoopEnd,
) -> Result<SliceEnd, SliceError>
    requires { LoopEndMatchesRows (⟦<ResumableRun<F> as Placed>⟧.seen place) loop_end }
    ensures told { (functions : Functions) (f : Function) (number : ℕ) (items : List (List ℕ)) (all : List CheckpointBytes) → StandsAfter (slice_input_of job.now functions f number items) (⟦<ResumableRun<F> as Placed>⟧.seen place) all → IfOk result (λ end. Tells (slice_input_of job.now functions f number items) end all) }
    ensures why { IfErr result (Explains (Ending loop_end)) }
    ensures agrees { IfOk result (λ end. (end.status ≡ status_of end.rows.items false) × HaveRowsEnded end.rows.items) }
    ensures status { IfOk result (λ end. (end.status ≡ Completed) ⊎ (end.status ≡ Failed)) }
    ensures whole { loop_end ≡ Whole → IfOk result (λ end. end.status ≡ Completed) }
    ensures own { IfErr result (λ e. IsRefusal e → ⊥) }
{
    rows_are_progress();
    slices_have_results();
    slices_follow_the_rules();
    failures_are_named();
    let status = status_at(loop_end)?;
    let (results, rows, held) = parts_of(place);
    let faults = faults_of_slice(alloc, job, &rows, &held)?;
    Ok(SliceEnd {
        status,
        rows,
        results,
        skips: faults.skips,
        failures: faults.failures,
    })
}
