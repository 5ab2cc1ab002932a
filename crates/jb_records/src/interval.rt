//! One interval of a run that stays in memory.

ghost use Rattle.std.specs.Prelude.{◌≡◌, ◌≤◌, List, ℕ, false, IfErr, IfOk, None, Ok, string_bytes};
ghost use Rattle.jb_base.specs.Limits.{max_parts, max_records};
ghost use Rattle.jb_collect.specs.declared.calls.Status.TheVariants.{Completed};
ghost use Rattle.jb_job.specs.Reading.{tree_of};
ghost use Rattle.jb_plan.specs.Plans.{IsRunnable};
ghost use Rattle.jb_saved.specs.Answers.{first_running};
ghost use Rattle.jb_saved.specs.GoingOn.{ends_past};
ghost use Rattle.jb_saved.specs.Reading.{answer_of};
ghost use Rattle.jb_step.specs.preparing.Prepare.{DoFit};
ghost use Rattle.jb_step.specs.Answers.{given_back};
ghost use Rattle.jb_step.specs.Statuses.{status_of};
ghost use Rattle.jb_records.specs.Causes.{Explains, Run, RunInterval};
ghost use Rattle.jb_records.specs.Failures.{AreFailures};
ghost use Rattle.jb_records.specs.Function.{Function};
ghost use Rattle.jb_records.specs.Made.{even_partitions};
ghost use Rattle.jb_records.specs.PartitionResults.{AreAtTheirEnds};
ghost use Rattle.jb_records.specs.Skips.{skipped_of};
ghost use Rattle.jb_records.specs.Intervals.{HasGoneOn, IsIntervalRun, StandsOver, artifacts_in};
ghost use Rattle.jb_records.specs.StepRuns.{IsStepRunOf};
ghost use Rattle.jb_records.specs.inside.InMemory.{IsGoingOn};

use crate::artifacts::RecordsArtifacts;
use crate::error::RecordsStepError;
use crate::failures::{FailedPartition, failures_of};
use crate::interval_end::{parted, unnumbered};
use crate::job::prepared_for;
use crate::laws::intervals_go_on;
use crate::new_results::{new_results_of, written_counts};
use crate::partition_results::put_back;
use crate::records_run::{HasRunState, RecordsRun};
use crate::skips::skipped_of;
use crate::step::RecordsStep;
use crate::step_function::StepFunction;
use jb_artifacts::Meaning;
use jb_base::{MAX_PARTS, PackedList};
use jb_chunk::Task;
use jb_collect::{FaultlessAnalyzer, FaultlessReducer, Status};
use jb_ready::Note;
use jb_repo::Snapshot;
use jb_saved::answers_are_computed;
use jb_step::{Prepared, Saved, StepEnd, run_pooled_step, saved_text};
use jb_workers::NoGate;
use std::alloc::{AllocError, Global};
use std::marker::Brand;
use std::sync::Wait;
use std::sync::ledger::{Blank, Ledger};
use std::thread::Threads;

/// One interval of a run: the step's status at its end, the rows of its partitions, and what is new.
#[derive(Drop)]
pub struct Interval {
    pub status: Status,
    pub snapshot: Snapshot,
    /// The text of the rows, from which a next run resumes.
    pub saved: String,
    /// The results of each partition that are new since the interval before, in the order of the partitions.
    pub results: Vec<PackedList>,
}

impl Interval {
    /// The records that were skipped up to its end, as `RecordsEnd::skipped` has them.
    pub fn skipped<F: StepFunction>(
        &self,
        alloc: Global,
        function: &F,
        records: &PackedList,
    ) -> Result<Vec<Note>, AllocError>
        ensures { IfOk result (λ skips. skips.items ≡ skipped_of (F.function function.now) records.now self.now.snapshot.rows.items) }
    {
        skipped_of(alloc, function, records, &self.snapshot.rows)
    }
}

/// Runs the step over its own desk, for so many rounds at most. Each run of a step over records is one of these.
pub(crate) fn ran<
    F: StepFunction + Drop + 'static,
    L: Ledger + Send + Sync + 'static,
    R: Threads + Wait + Sync,
>(
    rt: &R,
    alloc: Global,
    blank: Blank,
    prepared: Prepared,
    reducer: FaultlessReducer,
    artifacts: Vec<(u32, RecordsArtifacts<F>)>,
    rounds: Option<u64>,
) -> Result<StepEnd<RecordsArtifacts<F>>, RecordsStepError>
    requires name { blank.name ≡ L.name }
    requires parts { blank.parts ≡ L.parts }
    requires all { blank.parts ≡ max_parts }
    ensures ran { IfOk result (λ end. IsStepRunOf prepared (artifacts_in (given_back ⟦<RecordsArtifacts<F> as Meaning>⟧.meaning artifacts.items)) rounds end.snapshot (given_back ⟦<RecordsArtifacts<F> as Meaning>⟧.meaning end.artifacts.items)) }
    ensures status { IfOk result (λ end. end.status ≡ status_of end.snapshot.rows.items false) }
    ensures why { IfErr result (Explains (Run (DoFit prepared (artifacts_in (given_back ⟦<RecordsArtifacts<F> as Meaning>⟧.meaning artifacts.items))))) }
{
    let artifacts = unnumbered(alloc, artifacts)?;
    let desk = prepared.desk::<L>(alloc, blank)?;
    let analyzer = FaultlessAnalyzer::new(alloc);
    let (end, _, _) = run_pooled_step::<Task<RecordsArtifacts<F>>, L, NoGate, R>(
        rt, alloc, &desk, prepared, artifacts, analyzer, reducer, rounds, &NoGate,
    );
    let end = end?;
    Ok(end)
}

/// The run as it resumes from these rows, which are its own, and their text.
fn going_on<F: StepFunction + Drop>(
    alloc: Global,
    step: RecordsStep,
    count: u64,
    snapshot: &Snapshot,
    results: Vec<PackedList>,
    artifacts: Vec<(u32, RecordsArtifacts<F>)>,
) -> Result<(RecordsRun<F>, String), RecordsStepError>
    requires few { count ≤ max_records }
    requires runnable { IsRunnable count (even_partitions step count) }
    ensures text { IfOk result (λ r. answer_of (tree_of (string_bytes r.1)) ≡ Ok (record { step = step.id; rows = snapshot.now.rows.items })) }
    ensures state { IfOk result (λ r. IsGoingOn step.id count step.rules snapshot.now.rows.items (given_back ⟦<RecordsArtifacts<F> as Meaning>⟧.meaning artifacts.items) results.items (⟦<RecordsRun<F> as HasRunState>⟧.run_state r.0)) }
    ensures items { IfOk result (λ r. (⟦<RecordsRun<F> as HasRunState>⟧.run_state r.0).setup.item_count ≡ step.item_count) }
    ensures why { first_running snapshot.now.rows.items ≡ None → ends_past count snapshot.now.rows.items ≡ false → IfErr result (Explains RunInterval) }
{
    answers_are_computed();
    let saved = Saved::of(alloc, step.id.as_str(), snapshot)?;
    let text = saved_text(alloc, &saved)?;
    let mut reducer = FaultlessReducer::new(alloc);
    let prepared = prepared_for(alloc, &step, count, &mut reducer, Some(saved))?;
    let run = RecordsRun {
        step,
        count,
        prepared,
        reducer,
        results,
        artifacts,
    };
    Ok((run, text))
}

impl<F: StepFunction + Drop + 'static> RecordsRun<F> {
    /// Runs one interval, of so many rounds at most; with none, to the end. A completed run is completed again, with nothing new. After an
    /// interval that failed, the partitions that failed wait again, as at a restart.
    ///
    /// # Errors
    /// `Step` with `Repository`, `Workers` or `Memory`, and `Memory`. The run is gone then. What it did since the interval before is done
    /// again after `resume` from that interval's saved text and results.
    pub fn run_interval<R: Threads + Wait + Sync>(
        self,
        rt: &R,
        alloc: Global,
        rounds: Option<u64>,
    ) -> Result<(RecordsRun<F>, Interval), RecordsStepError>
        ensures saved { IfOk result (λ r. answer_of (tree_of (string_bytes r.1.saved)) ≡ Ok (record { step = (⟦<RecordsRun<F> as HasRunState>⟧.run_state self).step; rows = r.1.snapshot.rows.items })) }
        ensures status { IfOk result (λ r. r.1.status ≡ status_of r.1.snapshot.rows.items false) }
        ensures whole { IfOk result (λ r. r.1.status ≡ Completed → AreAtTheirEnds r.1.snapshot.rows.items) }
        ensures made { IfOk result (λ r. IsIntervalRun rounds (⟦<RecordsRun<F> as HasRunState>⟧.run_state self) r.1.snapshot (⟦<RecordsRun<F> as HasRunState>⟧.run_state r.0)) }
        ensures goes_on { (f : Function) (records : List (List ℕ)) → StandsOver f records (⟦<RecordsRun<F> as HasRunState>⟧.run_state self) →
            IfOk result (λ r. HasGoneOn f records (⟦<RecordsRun<F> as HasRunState>⟧.run_state self) (⟦<RecordsRun<F> as HasRunState>⟧.run_state r.0) r.1.snapshot.rows.items r.1.results.items) }
        ensures why { (f : Function) (records : List (List ℕ)) → StandsOver f records (⟦<RecordsRun<F> as HasRunState>⟧.run_state self) → IfErr result (Explains RunInterval) }
    {
        let blank = Blank::new(MAX_PARTS);
        self.run_interval_over::<Brand, R>(rt, alloc, blank, rounds)
    }

    /// The partitions that failed in the interval that led here, as the run's function and its records have their faults.
    pub fn failures(
        &self,
        alloc: Global,
        function: &F,
        records: &PackedList,
        interval: &Interval,
    ) -> Result<Vec<FailedPartition>, AllocError>
        ensures { IfOk result (λ failures. AreFailures (F.function function.now) (⟦<RecordsRun<F> as HasRunState>⟧.run_state self.now).setup.rules (⟦<RecordsRun<F> as HasRunState>⟧.run_state self.now).setup.item_count records.now interval.now.snapshot.rows.items failures.items) }
    {
        failures_of(
            alloc,
            function,
            &self.step.rules,
            self.step.item_count,
            records,
            &interval.snapshot.rows,
            &self.artifacts,
        )
    }

    /// The same over its own desk.
    fn run_interval_over<L: Ledger + Send + Sync + 'static, R: Threads + Wait + Sync>(
        self,
        rt: &R,
        alloc: Global,
        blank: Blank,
        rounds: Option<u64>,
    ) -> Result<(RecordsRun<F>, Interval), RecordsStepError>
        requires name { blank.name ≡ L.name }
        requires parts { blank.parts ≡ L.parts }
        requires all { blank.parts ≡ max_parts }
        ensures saved { IfOk result (λ r. answer_of (tree_of (string_bytes r.1.saved)) ≡ Ok (record { step = (⟦<RecordsRun<F> as HasRunState>⟧.run_state self).step; rows = r.1.snapshot.rows.items })) }
        ensures status { IfOk result (λ r. r.1.status ≡ status_of r.1.snapshot.rows.items false) }
        ensures made { IfOk result (λ r. IsIntervalRun rounds (⟦<RecordsRun<F> as HasRunState>⟧.run_state self) r.1.snapshot (⟦<RecordsRun<F> as HasRunState>⟧.run_state r.0)) }
        ensures goes_on { (f : Function) (records : List (List ℕ)) → StandsOver f records (⟦<RecordsRun<F> as HasRunState>⟧.run_state self) →
            IfOk result (λ r. HasGoneOn f records (⟦<RecordsRun<F> as HasRunState>⟧.run_state self) (⟦<RecordsRun<F> as HasRunState>⟧.run_state r.0) r.1.snapshot.rows.items r.1.results.items) }
        ensures why { (f : Function) (records : List (List ℕ)) → StandsOver f records (⟦<RecordsRun<F> as HasRunState>⟧.run_state self) → IfErr result (Explains RunInterval) }
    {
        intervals_go_on();
        let RecordsRun {
            step,
            count,
            prepared,
            reducer,
            results,
            artifacts,
        } = self;
        let written_before = written_counts(alloc, &prepared)?;
        let end = ran::<F, L, R>(rt, alloc, blank, prepared, reducer, artifacts, rounds)?;
        let StepEnd {
            status,
            snapshot,
            artifacts,
            ..
        } = end;
        let new_results = new_results_of(alloc, &written_before, &artifacts)?;
        let (finished, left) = parted(alloc, &snapshot.rows, artifacts)?;
        let results = put_back(finished, results);
        let (run, saved) = going_on(alloc, step, count, &snapshot, results, left)?;
        let interval = Interval {
            status,
            snapshot,
            saved,
            results: new_results,
        };
        Ok((run, interval))
    }
}
