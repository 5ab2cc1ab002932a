//! A step over records that stays in memory between its intervals.

ghost use Rattle.std.specs.Prelude.{◌≡◌, ◌≤◌, ◌↔◌, length, IfErr, IfOk, IsTrue, None, Ok, Some};
ghost use Rattle.std.specs.Arc.{arc_value};
ghost use Rattle.jb_base.specs.Limits.{max_partitions, max_records};
ghost use Rattle.jb_job.specs.Reading.{tree_of};
ghost use Rattle.jb_plan.specs.Plans.{IsRunnable};
ghost use Rattle.jb_saved.specs.GoingOn.{rows_restarted};
ghost use Rattle.jb_saved.specs.Reading.{answer_of};
ghost use Rattle.jb_saved.specs.SavedRows.{SavedRows};
ghost use Rattle.jb_step.specs.Answers.{given_back};
ghost use Rattle.jb_step.specs.preparing.Prepare.{DoFit};
ghost use Rattle.jb_step.specs.preparing.Setup.{IsSetup};
ghost use Rattle.jb_records.specs.Causes.{Call, Explains, Make, OfEach};
ghost use Rattle.jb_records.specs.Following.{FollowRules, ranges_of};
ghost use Rattle.jb_records.specs.Function.{IsSteady};
ghost use Rattle.jb_records.specs.Made.{even_partitions};
ghost use Rattle.jb_records.specs.PartitionResults.{AreAtTheirEnds, IsSoFar, newer_partition_results};
ghost use Rattle.jb_records.specs.Intervals.{ResumesFrom, BeginsEmpty, GoesBy, RunState, StandsOver, artifacts_in};
ghost use Rattle.jb_records.specs.inside.Calls.{CanBeginOver};
ghost use Rattle.jb_records.specs.inside.InMemory.{IsAsPrepared};

use crate::artifacts::{RecordsArtifacts, all_artifacts};
use crate::error::RecordsStepError;
use crate::interval_end::numbered;
use crate::job::RecordsJob;
use crate::partition_results::put_back;
use crate::step::RecordsStep;
use crate::step_function::StepFunction;
use jb_artifacts::Meaning;
use jb_base::PackedList;
use jb_collect::FaultlessReducer;
use jb_step::{Prepared, read_saved};
use std::alloc::Global;
use std::sync::Arc;

/// The state of a run that stays in memory. Clauses name it.
pub trait HasRunState {
    ghost run_state: { Self → RunState };
}

/// A step over records that stays in memory between its intervals. What each partition works with stays too, and nothing of an earlier
/// interval is copied.
#[derive(Drop)]
pub struct RecordsRun<F> {
    pub(crate) step: RecordsStep,
    pub(crate) count: u64,
    pub(crate) prepared: Prepared,
    pub(crate) reducer: FaultlessReducer,
    /// Those of the finished partitions; what an unfinished one has is in its writer.
    pub(crate) results: Vec<PackedList>,
    pub(crate) artifacts: Vec<(u32, RecordsArtifacts<F>)>,
    ghost few: { count ≤ max_records },
    ghost runnable: { IsRunnable count (even_partitions step count) },
    ghost few_rows: { length prepared.rows ≤ max_partitions },
    ghost same_rules: { prepared.rules ≡ step.rules },
    ghost same_items: { prepared.item_count ≡ step.item_count },
}

impl<F: StepFunction + Drop> HasRunState for RecordsRun<F> {
    ghost run_state = { λ run. record {
      step = run.step.id;
      records = run.count;
      setup = run.prepared;
      artifacts = given_back ⟦<RecordsArtifacts<F> as Meaning>⟧.meaning run.artifacts.items;
      partition_results = newer_partition_results (given_back ⟦<RecordsArtifacts<F> as Meaning>⟧.meaning run.artifacts.items) run.results.items;
    } };
}

impl<F: StepFunction + Drop> RecordsRun<F> {
    /// The run of a step that begins from the start.
    ///
    /// # Errors
    /// `Records`, `SkippedTry`, `Step` with what is wrong with the partitions, and `Memory`, as `run_records` has them.
    pub fn begin(
        alloc: Global,
        step: &RecordsStep,
        function: &Arc<F, Global>,
        records: &PackedList,
    ) -> Result<RecordsRun<F>, RecordsStepError>
        ensures why { IfErr result (Explains (Call (F.function (arc_value function.now)) step.now records.now None)) }
        ensures stands { IfOk result (λ run. StandsOver (F.function (arc_value function.now)) records.now (⟦<RecordsRun<F> as HasRunState>⟧.run_state run)) }
        ensures by { IfOk result (λ run. GoesBy step.now (⟦<RecordsRun<F> as HasRunState>⟧.run_state run)) }
        ensures fresh { IfOk result (λ run. BeginsEmpty step.now.id (⟦<RecordsRun<F> as HasRunState>⟧.run_state run)) }
        ensures ranges { IfOk result (λ run. ranges_of (⟦<RecordsRun<F> as HasRunState>⟧.run_state run).setup.rows ≡ (even_partitions step.now (length records.now)).ranges) }
    {
        let job = RecordsJob::begin(alloc, step, records, None, &PackedList::new(alloc))?;
        RecordsRun::from_prepared(alloc, step, function, records, job)
    }

    /// The run of a step that resumes from the saved text of an earlier run and the results of each of its partitions.
    ///
    /// # Errors
    /// Those of `begin`; also `Step` with what is wrong with the saved text or its rows. After these, `Results` if some partition has
    /// another number of results than its row says.
    pub fn resume(
        alloc: Global,
        step: &RecordsStep,
        function: &Arc<F, Global>,
        records: &PackedList,
        saved: &[u8],
        results: Vec<PackedList>,
    ) -> Result<RecordsRun<F>, RecordsStepError>
        ensures why { IfErr result (Explains (Call (F.function (arc_value function.now)) step.now records.now (Some (saved.now, OfEach results.items)))) }
        ensures by { IfOk result (λ run. GoesBy step.now (⟦<RecordsRun<F> as HasRunState>⟧.run_state run)) }
        ensures behind { IfOk result (λ run. ResumesFrom step.now.id saved.now results.items (⟦<RecordsRun<F> as HasRunState>⟧.run_state run)) }
        ensures stands { IfOk result (λ run. (held : SavedRows) → answer_of (tree_of saved.now) ≡ Ok held → IsSoFar (F.function (arc_value function.now)) records.now held.rows results.items →
            (IsSteady (F.function (arc_value function.now)) → FollowRules (F.function (arc_value function.now)) step.now.rules records.now (rows_restarted held)) →
            StandsOver (F.function (arc_value function.now)) records.now (⟦<RecordsRun<F> as HasRunState>⟧.run_state run)) }
    {
        let held = read_saved(alloc, saved)?;
        let job = RecordsJob::behind(alloc, step, records, held, results)?;
        RecordsRun::from_prepared(alloc, step, function, records, job)
    }

    /// The run of a step that is prepared: its unfinished partitions have what they work with.
    pub(crate) fn from_prepared(
        alloc: Global,
        step: &RecordsStep,
        function: &Arc<F, Global>,
        records: &PackedList,
        job: RecordsJob,
    ) -> Result<RecordsRun<F>, RecordsStepError>
        requires few { length records.now ≤ max_records }
        requires can { CanBeginOver (length records.now) job.prepared.rows job.results.items }
        requires runnable { IsRunnable (length records.now) (even_partitions step.now (length records.now)) }
        requires setup { IsSetup job.prepared }
        requires same_rules { job.prepared.rules ≡ step.now.rules }
        requires same_items { job.prepared.item_count ≡ step.now.item_count }
        ensures why { IfErr result (Explains (Make (F.function (arc_value function.now)) step.now.rules 0 records.now)) }
        ensures kept { IfOk result (λ run. IsAsPrepared (F.function (arc_value function.now)) records.now step.now.id job.prepared job.results.items (⟦<RecordsRun<F> as HasRunState>⟧.run_state run)) }
        ensures step { IfOk result (λ run. run.step ≡ step.now) }
        ensures results { IfOk result (λ run. run.results.items ≡ job.results.items) }
        ensures fit { IfOk result (λ run. DoFit run.prepared (artifacts_in (given_back ⟦<RecordsArtifacts<F> as Meaning>⟧.meaning run.artifacts.items))) }
    {
        let RecordsJob {
            prepared,
            results,
            reducer,
        } = job;
        let artifacts = all_artifacts(alloc, function, &step.rules, records, &prepared, &results)?;
        let artifacts = numbered(alloc, prepared.needs(), artifacts)?;
        Ok(RecordsRun {
            step: step.copy(alloc)?,
            count: records.len() as u64,
            prepared,
            reducer,
            results,
            artifacts,
        })
    }

    /// Whether each partition is at the end of its range. Then nothing is left to be run.
    pub fn is_whole(&self) -> bool
        ensures { IsTrue result ↔ AreAtTheirEnds (⟦<RecordsRun<F> as HasRunState>⟧.run_state self.now).setup.rows }
    {
        self.prepared.needs().is_empty()
    }

    /// The results of each partition, in their order. Takes no memory.
    pub fn into_results(self) -> Vec<PackedList>
        ensures { result.items ≡ (⟦<RecordsRun<F> as HasRunState>⟧.run_state self).partition_results }
    {
        let RecordsRun {
            results,
            artifacts,
            ..
        } = self;
        put_back(artifacts, results)
    }
}
