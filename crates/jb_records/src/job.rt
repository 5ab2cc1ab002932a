//! A step over records, as its run begins.

ghost use Rattle.std.specs.Prelude.{◌≡◌, ◌≤◌, false, length, None, Some, Ok, IfErr, IfOk, IfSome, OnOk};
ghost use Rattle.jb_base.specs.Limits.{max_records};
ghost use Rattle.jb_mapper.specs.EvenCover.{even_ranges};
ghost use Rattle.jb_mapper.specs.Mapping.{even};
ghost use Rattle.jb_step.specs.preparing.Prepare.{IsPreparation};
ghost use Rattle.jb_step.specs.preparing.Setup.{IsSetup};
ghost use Rattle.jb_records.specs.StoppedRuns.{IsStoppedRun};
ghost use Rattle.jb_records.specs.Causes.{Explains, Joined, OfEach, Prepare, Unseen, prepare_evenly};
ghost use Rattle.jb_records.specs.Function.{Function};
ghost use Rattle.jb_records.specs.inside.Following.{IsFresh};
ghost use Rattle.jb_records.specs.Made.{IsStepBegun, even_partitions, step_record};
ghost use Rattle.jb_saved.specs.GoingOn.{rows_restarted};
ghost use Rattle.jb_records.specs.PartitionResults.{AreNumbered, IsSoFar, joined};
ghost use Rattle.jb_records.specs.Steps.{StartsFresh};

use crate::error::RecordsStepError;
use crate::laws::{rules_are_kept, skips_are_counted, steps_keep_results};
use crate::partition_results::{are_numbered, partition_results_of};
use crate::step::RecordsStep;
use jb_base::{MAX_RECORDS, Name, PackedList};
use jb_collect::FaultlessReducer;
use jb_job::{Spec, Step};
use jb_mapper::{EvenMapper, PartitionMapper};
use jb_step::{Prepared, Saved, prepare};
use std::alloc::Global;

/// A step over records that is ready to run: the rows of its partitions, and the results that each has.
#[derive(Drop)]
pub(crate) struct RecordsJob {
    pub(crate) prepared: Prepared,
    pub(crate) results: Vec<PackedList>,
    pub(crate) reducer: FaultlessReducer,
}

impl RecordsJob {
    /// The step. It begins with no results, or resumes from the saved rows of a stopped run and its results, joined in the order of the partitions.
    ///
    /// # Errors
    /// - `Records` if there are more than 10,000,000.
    /// - `Step` with what is wrong with the partitions or the saved rows.
    /// - `Results` if the rows say another number of results.
    /// - `Memory`.
    pub(crate) fn begin(
        alloc: Global,
        step: &RecordsStep,
        records: &PackedList,
        saved: Option<Saved>,
        earlier: &PackedList,
    ) -> Result<RecordsJob, RecordsStepError>
        ensures why { IfErr result (Explains (prepare_evenly step.now (length records.now) saved (Joined earlier.now))) }
        ensures begun { IfOk result (λ job. IsStepBegun step.now (length records.now) saved earlier.now job.prepared job.results.items) }
        ensures few { OnOk result (length records.now ≤ max_records) }
        ensures new { saved ≡ None → IfOk result (λ job. (f : Function) → IsFresh f step.now records.now job.prepared job.results.items) }
        ensures resumed { IfSome saved (λ held. IfOk result (λ job. job.prepared.rows ≡ rows_restarted held)) }
        ensures goes_on { IfOk result (λ job. (f : Function) → IsStoppedRun f records.now saved earlier.now → IsSoFar f records.now job.prepared.rows job.results.items) }
    {
        steps_keep_results();
        skips_are_counted();
        rules_are_kept();
        let mut reducer = FaultlessReducer::new(alloc);
        let count = records.len() as u64;
        let prepared = prepared_for(alloc, step, count, &mut reducer, saved)?;
        let results = partition_results_of(alloc, &prepared, earlier)?;
        Ok(RecordsJob {
            prepared,
            results,
            reducer,
        })
    }

    /// The step. It resumes from the saved rows of an earlier run, with the results of each partition.
    ///
    /// # Errors
    /// Those of `begin`; `Results` if the rows say another number of results for a partition.
    pub(crate) fn behind(
        alloc: Global,
        step: &RecordsStep,
        records: &PackedList,
        saved: Saved,
        results: Vec<PackedList>,
    ) -> Result<RecordsJob, RecordsStepError>
        ensures why { IfErr result (Explains (prepare_evenly step.now (length records.now) (Some saved) (OfEach results.items))) }
        ensures begun { IfOk result (λ job. IsStepBegun step.now (length records.now) (Some saved) (joined results.items) job.prepared job.results.items) }
        ensures few { OnOk result (length records.now ≤ max_records) }
        ensures rows { IfOk result (λ job. job.prepared.rows ≡ rows_restarted saved) }
        ensures results { IfOk result (λ job. job.results.items ≡ results.items) }
        ensures numbered { OnOk result (AreNumbered saved.rows results.items) }
    {
        let mut reducer = FaultlessReducer::new(alloc);
        let count = records.len() as u64;
        let are_own = are_numbered(saved.rows(), results.as_slice());
        let prepared = prepared_for(alloc, step, count, &mut reducer, Some(saved))?;
        if !are_own {
            return Err(RecordsStepError::Results);
        }
        Ok(RecordsJob {
            prepared,
            results,
            reducer,
        })
    }
}

/// What the step begins with, by a mapper of so many even partitions.
fn prepared_by(
    alloc: Global,
    step: &Step,
    partitions: u32,
    threads: u32,
    records: u64,
    mapper: &mut dyn PartitionMapper,
    reducer: &mut FaultlessReducer,
    saved: Option<Saved>,
) -> Result<Prepared, RecordsStepError>
    requires few { records ≤ max_records }
    requires some { 1 ≤ partitions }
    requires mapped { mapping mapper.old records ≡ even partitions threads false records }
    ensures setup { IfOk result IsSetup }
    ensures why { IfErr result (Explains (Prepare step.now records (record { ranges = even_ranges records partitions; threads = threads; replace = false }) saved Unseen)) }
    ensures prepared { IfOk result (IsPreparation step.now records (even partitions threads false records) saved) }
    ensures new { saved ≡ None → IfOk result (StartsFresh records) }
    ensures resumed { IfSome saved (λ held. IfOk result (λ prepared. prepared.rows ≡ rows_restarted held)) }
{
    let prepared = prepare(alloc, step, records, mapper, reducer, saved)?;
    Ok(prepared)
}

/// What the step begins with.
pub(crate) fn prepared_for(
    alloc: Global,
    step: &RecordsStep,
    records: u64,
    reducer: &mut FaultlessReducer,
    saved: Option<Saved>,
) -> Result<Prepared, RecordsStepError>
    ensures setup { IfOk result IsSetup }
    ensures few { OnOk result (records ≤ max_records) }
    ensures why { IfErr result (Explains (prepare_evenly step.now records saved Unseen)) }
    ensures prepared { IfOk result (IsPreparation (step_record step.now) records (Ok (even_partitions step.now records)) saved) }
    ensures new { saved ≡ None → IfOk result (StartsFresh records) }
    ensures resumed { IfSome saved (λ held. IfOk result (λ prepared. prepared.rows ≡ rows_restarted held)) }
{
    if records > MAX_RECORDS {
        return Err(RecordsStepError::Records);
    }
    let id = Name::new(String::from_str(alloc, step.id.as_str())?);
    let spec = Spec::new(step.partitions, step.threads, false, None);
    let chunk = Step::new(id, step.item_count, step.rules, spec);
    let mut mapper = EvenMapper::new(alloc, step.partitions, step.threads, false);
    prepared_by(
        alloc,
        &chunk,
        step.partitions,
        step.threads,
        records,
        &mut mapper,
        reducer,
        saved,
    )
}
