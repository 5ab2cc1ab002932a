//! A step over records in one call.

ghost use Rattle.std.specs.Prelude.{◌≡◌, ◌≤◌, List, ℕ, false, length, option_map, None, IfErr, IfOk, IfSome, OnOk};
ghost use Rattle.jb_base.specs.Limits.{max_parts, max_records};
ghost use Rattle.jb_collect.specs.declared.calls.Status.TheVariants.{Completed, Failed};
ghost use Rattle.jb_step.specs.Answers.{given_back};
ghost use Rattle.jb_step.specs.preparing.Prepare.{DoFit};
ghost use Rattle.jb_step.specs.preparing.Setup.{Setup};
ghost use Rattle.jb_step.specs.Statuses.{status_of};
ghost use Rattle.jb_records.specs.StoppedRuns.{FollowAgain, HoldsStoppedRun};
ghost use Rattle.jb_records.specs.Failures.{AreFailures};
ghost use Rattle.jb_records.specs.Following.{EndsByRules, FollowRules, StepPasses};
ghost use Rattle.jb_records.specs.Function.{Function, IsSteady, all_results};
ghost use Rattle.jb_records.specs.Causes.{Call, Explains, Joined, RunInterval};
ghost use Rattle.jb_records.specs.Intervals.{artifacts_in};
ghost use Rattle.jb_records.specs.inside.Following.{GoesOnByRules, IsFresh};
ghost use Rattle.jb_records.specs.inside.InMemory.{HasEnded, IsAsPrepared};
ghost use Rattle.jb_records.specs.Made.{IsBegunBehind, IsRunOfRecords};
ghost use Rattle.jb_records.specs.PartitionResults.{IsSoFar, joined};
ghost use Rattle.jb_records.specs.Skips.{AreCounted};

use crate::artifacts::RecordsArtifacts;
use crate::end::RecordsEnd;
use crate::error::RecordsStepError;
use crate::failures::failures_of;
use crate::interval::ran;
use crate::job::RecordsJob;
use crate::laws::{rules_are_kept, skips_are_counted, steps_keep_results};
use crate::partition_results::put_back;
use crate::records_run::{HasRunState, RecordsRun};
use crate::step::RecordsStep;
use crate::step_function::StepFunction;
use jb_artifacts::Meaning;
use jb_base::{MAX_PARTS, PackedList};
use jb_step::{StepEnd, read_saved};
use std::alloc::Global;
use std::marker::Brand;
use std::sync::ledger::{Blank, Ledger};
use std::sync::{Arc, Wait};
use std::thread::Threads;

/// What a stopped run left: its saved text, and the results of its partitions, joined in their order.
#[derive(Clone, Copy)]
pub struct StoppedRun<'a> {
    pub saved: &'a [u8],
    pub results: &'a PackedList,
}

/// Runs a step over records, from the start or from where a stopped run left it, for so many rounds at most; with none, to its end. At
/// every end, each partition has the results of the records before its checkpoint, each once and in order. A completed step has those of
/// all records. A refused record has no result: it is left out if its class is skipped.
///
/// If no try of the function fails, this holds of a step that began from the start. It is COMPLETED only if its rules let the refusals of
/// each partition's records pass. It is FAILED only if they don't for some partition.
///
/// # Errors
/// - `Records` if there are more than 10,000,000.
/// - `Results` if the saved rows say another number of results.
/// - `SkippedTry` if a first try would fail with a class that the rules skip.
/// - `Step` with what is wrong with the partitions, the saved text or its rows (for example one that ends past the last record), or with
///   why the step has no end.
/// - `Memory`.
pub fn run_records<F: StepFunction + Drop + 'static, R: Threads + Wait + Sync>(
    rt: &R,
    alloc: Global,
    step: &RecordsStep,
    function: F,
    records: &PackedList,
    earlier: Option<StoppedRun>,
    rounds: Option<u64>,
) -> Result<RecordsEnd, RecordsStepError>
    ensures why { IfErr result (Explains (Call (F.function function) step.now records.now (option_map (λ e. (e.saved.now, Joined e.results.now)) earlier.entry))) }
    ensures run { IfOk result (λ end. IsRunOfRecords (F.function function) step.now records.now (option_map (λ e. (e.saved.now, e.results.now)) earlier.entry) rounds end.snapshot end.results.items) }
    ensures status { IfOk result (λ end. end.status ≡ status_of end.snapshot.rows.items false) }
    ensures failures { IfOk result (λ end. AreFailures (F.function function) step.now.rules step.now.item_count records.now end.snapshot.rows.items end.failures.items) }
    ensures counted { earlier.entry ≡ None → IfOk result (λ end. AreCounted (F.function function) records.now end.snapshot.rows.items) }
    ensures follows { earlier.entry ≡ None → IsSteady (F.function function) → IfOk result (λ end. FollowRules (F.function function) step.now.rules records.now end.snapshot.rows.items) }
    ensures completed { earlier.entry ≡ None → IsSteady (F.function function) → IfOk result (λ end. end.status ≡ Completed → StepPasses (F.function function) step.now records.now) }
    ensures failed { earlier.entry ≡ None → IsSteady (F.function function) → IfOk result (λ end. end.status ≡ Failed → StepPasses (F.function function) step.now records.now → ⊥) }
    ensures so_far { earlier.entry ≡ None → IfOk result (λ end. IsSoFar (F.function function) records.now end.snapshot.rows.items end.results.items) }
    ensures all { earlier.entry ≡ None → IfOk result (λ end. end.status ≡ Completed → joined end.results.items ≡ all_results (F.function function) records.now) }
    ensures goes_on { IfSome earlier.entry (λ e. HoldsStoppedRun (F.function function) records.now e.saved.now e.results.now →
        IfOk result (λ end. IsSoFar (F.function function) records.now end.snapshot.rows.items end.results.items)) }
    ensures goes_on_whole { IfSome earlier.entry (λ e. HoldsStoppedRun (F.function function) records.now e.saved.now e.results.now →
        IfOk result (λ end. end.status ≡ Completed → joined end.results.items ≡ all_results (F.function function) records.now)) }
    ensures goes_on_by_rules { IfSome earlier.entry (λ e. HoldsStoppedRun (F.function function) records.now e.saved.now e.results.now × IsSteady (F.function function) ×
        FollowAgain (F.function function) step.now.rules records.now e.saved.now →
        IfOk result (λ end. EndsByRules (F.function function) step.now.rules records.now end.snapshot.rows.items end.status)) }
{
    steps_keep_results();
    skips_are_counted();
    rules_are_kept();
    let job = begun(alloc, step, records, &earlier)?;
    let function = Arc::new(alloc, function)?;
    let run = RecordsRun::from_prepared(alloc, step, &function, records, job)?;
    let blank = Blank::new(MAX_PARTS);
    run.run_last::<Brand, R>(rt, alloc, blank, &*function, records, rounds)
}

/// The step as it begins, from the start or resuming an earlier run.
fn begun(
    alloc: Global,
    step: &RecordsStep,
    records: &PackedList,
    earlier: &Option<StoppedRun>,
) -> Result<RecordsJob, RecordsStepError>
    ensures why { (f : Function) → IfErr result (Explains (Call f step.now records.now (option_map (λ e. (e.saved.now, Joined e.results.now)) earlier.now))) }
    ensures begun { IfOk result (λ job. IsBegunBehind step.now (length records.now) (option_map (λ e. (e.saved.now, e.results.now)) earlier.now) job.prepared job.results.items) }
    ensures few { OnOk result (length records.now ≤ max_records) }
    ensures new { earlier.now ≡ None → IfOk result (λ job. (f : Function) → IsFresh f step.now records.now job.prepared job.results.items) }
    ensures goes_on { IfSome earlier.now (λ e. IfOk result (λ job. (f : Function) → HoldsStoppedRun f records.now e.saved.now e.results.now →
        IsSoFar f records.now job.prepared.rows job.results.items)) }
    ensures goes_on_by_rules { IfSome earlier.now (λ e. IfOk result (λ job. (f : Function) →
        HoldsStoppedRun f records.now e.saved.now e.results.now × IsSteady f × FollowAgain f step.now.rules records.now e.saved.now →
        GoesOnByRules f step.now.rules records.now job.prepared job.results.items)) }
{
    match earlier {
        None => RecordsJob::begin(alloc, step, records, None, &PackedList::new(alloc)),
        Some(earlier) => {
            let saved = read_saved(alloc, earlier.saved)?;
            RecordsJob::begin(alloc, step, records, Some(saved), earlier.results)
        }
    }
}

impl<F: StepFunction + Drop + 'static> RecordsRun<F> {
    /// Runs its last interval over its own desk, of so many rounds at most; with none, to its end. Nothing of the run stays in memory.
    fn run_last<L: Ledger + Send + Sync + 'static, R: Threads + Wait + Sync>(
        self,
        rt: &R,
        alloc: Global,
        blank: Blank,
        function: &F,
        records: &PackedList,
        rounds: Option<u64>,
    ) -> Result<RecordsEnd, RecordsStepError>
        requires name { blank.name ≡ L.name }
        requires parts { blank.parts ≡ L.parts }
        requires all { blank.parts ≡ max_parts }
        requires fit { DoFit self.prepared (artifacts_in (given_back ⟦<RecordsArtifacts<F> as Meaning>⟧.meaning self.artifacts.items)) }
        ensures why { IfErr result (Explains RunInterval) }
        ensures ended { (f : Function) (items : List (List ℕ)) (id : List ℕ) (setup : Setup) (partition_results : List (List (List ℕ))) →
            IsAsPrepared f items id setup partition_results (⟦<RecordsRun<F> as HasRunState>⟧.run_state self) → self.results.items ≡ partition_results →
            IfOk result (λ end. HasEnded f items rounds setup partition_results end.status end.snapshot end.results.items) }
        ensures status { IfOk result (λ end. end.status ≡ status_of end.snapshot.rows.items false) }
        ensures failures { IfOk result (λ end. AreFailures (F.function function.now) self.step.rules self.step.item_count records.now end.snapshot.rows.items end.failures.items) }
    {
        let RecordsRun {
            step,
            prepared,
            reducer,
            results,
            artifacts,
            ..
        } = self;
        let end = ran::<F, L, R>(rt, alloc, blank, prepared, reducer, artifacts, rounds)?;
        let StepEnd {
            status,
            snapshot,
            artifacts,
            ..
        } = end;
        let failures = failures_of(
            alloc,
            function,
            &step.rules,
            step.item_count,
            records,
            &snapshot.rows,
            &artifacts,
        )?;
        Ok(RecordsEnd {
            status,
            snapshot,
            results: put_back(artifacts, results),
            failures,
        })
    }
}
