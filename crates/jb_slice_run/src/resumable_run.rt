//! A slice's run in memory, and how far its checkpoints are.

ghost use Rattle.std.specs.Prelude.{◌≡◌, ◌↔◌, ◌++◌, List, [], ◌∷◌, false, map, IfErr, IfOk, IsTrue, MatchOption, MatchResult, None};
ghost use Rattle.jb_collect.specs.declared.calls.Status.TheVariants.{Failed};
ghost use Rattle.jb_records.specs.PartitionResults.{AreAtTheirEnds};
ghost use Rattle.jb_slice_file.specs.CheckpointBytes.{GoesOn, CheckpointBytes, checkpoint_bytes};
ghost use Rattle.jb_slices.specs.Slice.{Functions};
ghost use Rattle.jb_slice_run.specs.Causes.{AnyInterval, Explains, NextInterval};
ghost use Rattle.jb_slice_run.specs.Held.{limits_in};
ghost use Rattle.jb_slice_run.specs.Jobs.{job_in};
ghost use Rattle.jb_slice_run.specs.SliceBytes.{KeepsSlice};
ghost use Rattle.jb_slice_run.specs.Named.{HoldsFaults, faults_held};
ghost use Rattle.jb_slice_run.specs.Whole.{KeepsWhole};
ghost use Rattle.jb_slice_run.specs.Work.{GoesBy, GoesOnFrom, HasGoneOnTo, HaveRowsEnded, IsRunDone, StatusMatchesRows, SliceStandsAt};
ghost use Rattle.jb_slice_run.specs.declared.resumable_run.Stage.TheVariants.{SomeIntervals};

use crate::error::SliceError;
use crate::fault::PartitionFaults;
use crate::faults::all_new_output;
use crate::job::SliceJob;
use crate::named::faults_after;
use crate::writing::interval_checkpoint;
use jb_base::PackedList;
use jb_collect::Status;
use jb_records::{HasRunState, RecordsRun, rules_are_kept};
use jb_rows::RowFunction;
use jb_rules::Row;
use jb_slice_file::Checkpoint;
use std::alloc::Global;
use std::sync::Wait;
use std::thread::Threads;

/// How far the stored checkpoints are.
#[derive(Drop)]
pub enum Stage {
    /// None is stored. This will be the first one, the slice's header.
    NoCheckpoint(Checkpoint),
    /// Only the header is stored.
    HeaderOnly,
    /// At least one interval is stored.
    SomeIntervals,
}

/// The run of a slice in memory, after its checkpoints.
pub struct ResumableRun<F> {
    pub run: RecordsRun<F>,
    /// The rows of the last stored interval. Empty before the first interval.
    pub rows: Vec<Row>,
    /// The faults of each partition, by the stored intervals.
    pub faults: Vec<PartitionFaults>,
    /// In the last interval of this run each partition had ended, and one had failed.
    pub has_failed: bool,
    pub stage: Stage,
}

// This is written out so that a caller doesn't prove again how each part of a run is dropped.
impl<F: Drop> Drop for ResumableRun<F> {
    fn drop(self) {
        let ResumableRun {
            run: _,
            rows: _,
            faults: _,
            has_failed: _,
            stage: _,
        } = self;
    }
}

impl<F: Drop> ResumableRun<F> {
    /// The run, and the rows and the faults of the stored intervals.
    pub fn into_parts(self) -> (RecordsRun<F>, Vec<Row>, Vec<PartitionFaults>)
        ensures run { result.0 ≡ self.run }
        ensures rows { result.1 ≡ self.rows }
        ensures faults { result.2 ≡ self.faults }
    {
        let ResumableRun {
            run,
            rows,
            faults,
            has_failed: _,
            stage: _,
        } = self;
        (run, rows, faults)
    }
}

/// Whether each partition has ended: it is finished, or it has failed.
fn have_ended(rows: &[Row]) -> bool
    ensures { IsTrue result → HaveRowsEnded rows.now }
{
    for row in rows {
        if !row.state.has_ended() {
            return false;
        }
    }
    true
}

/// Whether the slice has failed, by the status and the rows of an interval: each partition has ended, and one failed.
fn has_run_failed(status: Status, rows: &[Row]) -> bool
    ensures failed { IsTrue result → status ≡ Failed }
    ensures ended { IsTrue result → HaveRowsEnded rows.now }
{
    matches!(status, Status::Failed) && have_ended(rows)
}

/// One interval more of the run, and its checkpoint.
fn next_interval<F: RowFunction + Drop + 'static, R: Threads + Wait + Sync>(
    rt: &R,
    alloc: Global,
    job: &SliceJob,
    number: u64,
    function: &F,
    items: &PackedList,
    run: RecordsRun<F>,
    before: Vec<Row>,
    held: Vec<PartitionFaults>,
    rounds: u64,
) -> Result<(ResumableRun<F>, Checkpoint), SliceError>
    ensures stage { IfOk result (λ r. r.0.stage ≡ SomeIntervals) }
    ensures agrees { IfOk result (λ r. StatusMatchesRows r.0.has_failed r.0.stage (⟦<RecordsRun<F> as HasRunState>⟧.run_state r.0.run) r.0.rows.items) }
    ensures own { IfErr result (Explains AnyInterval) }
    ensures on { (functions : Functions) (all : List CheckpointBytes) → GoesOnFrom (job_in job.now) functions (F.answer function.now) (limits_in job.now.limits) number items.now (⟦<RecordsRun<F> as HasRunState>⟧.run_state run) before.items all
        → IfOk result (λ r. HasGoneOnTo (job_in job.now) functions (F.answer function.now) (limits_in job.now.limits) number items.now all (map faults_held held.items) (⟦<RecordsRun<F> as HasRunState>⟧.run_state r.0.run) r.0.rows.items (map faults_held r.0.faults.items) (checkpoint_bytes r.1)) }
    ensures why { (functions : Functions) (all : List CheckpointBytes) → GoesOnFrom (job_in job.now) functions (F.answer function.now) (limits_in job.now.limits) number items.now (⟦<RecordsRun<F> as HasRunState>⟧.run_state run) before.items all
        → IfErr result (Explains (NextInterval (job_in job.now) functions number items.now all)) }
{
    rules_are_kept();
    let Some(first) = job.first_item(number, items.len()) else {
        return Err(SliceError::NoNumbers);
    };
    let (run, interval) = run.run_interval(rt, alloc, Some(rounds))?;
    let rows = interval.snapshot.rows;
    let new_output = all_new_output(
        alloc,
        function,
        &job.rules(),
        items,
        first,
        &before,
        &rows,
        interval.results,
    )?;
    let faults = faults_after(alloc, &held, &new_output)?;
    let checkpoint = interval_checkpoint(alloc, job.limits, interval.saved, new_output)?;
    let place = ResumableRun {
        run,
        has_failed: has_run_failed(interval.status, &rows),
        rows,
        faults,
        stage: Stage::SomeIntervals,
    };
    Ok((place, checkpoint))
}

impl<F: RowFunction + Drop> ResumableRun<F> {
    /// Whether the slice is whole and its last checkpoint is stored.
    pub(crate) fn is_whole(&self) -> bool
        ensures { IsTrue result ↔ ((self.now.stage ≡ SomeIntervals) × AreAtTheirEnds (⟦<RecordsRun<F> as HasRunState>⟧.run_state self.now.run).setup.rows) }
    {
        matches!(self.stage, Stage::SomeIntervals) && self.run.is_whole()
    }
}

impl<F: RowFunction + Drop + 'static> ResumableRun<F> {
    /// One checkpoint more: the header, or that of an interval of at most `rounds` rounds. `None` if the slice is whole and its last checkpoint is
    /// stored. The function is that of the run. It is called again for the faults that the interval's partitions skipped, and for those by which
    /// they failed.
    ///
    /// # Errors
    /// `Step` if the run broke off. `TooLong` if a result is too long for its bytes. `NoNumbers` if the number after the slice's last item isn't
    /// below 2^64. And `Memory`. The run is gone then: resume after the stored checkpoints.
    pub fn next_checkpoint<R: Threads + Wait + Sync>(
        self,
        rt: &R,
        alloc: Global,
        job: &SliceJob,
        number: u64,
        function: &F,
        items: &PackedList,
        rounds: u64,
    ) -> Result<(ResumableRun<F>, Option<Checkpoint>), SliceError>
        ensures on { (functions : Functions) (all : List CheckpointBytes)
            → SliceStandsAt (job_in job.now) functions (F.answer function.now) (limits_in job.now.limits) number items.now self.stage (⟦<RecordsRun<F> as HasRunState>⟧.run_state self.run) self.rows.items all
            → IfOk result (λ r. GoesOn (KeepsSlice (job_in job.now) functions number items.now) (KeepsWhole (job_in job.now) functions (limits_in job.now.limits) number items.now)
            (SliceStandsAt (job_in job.now) functions (F.answer function.now) (limits_in job.now.limits) number items.now r.0.stage (⟦<RecordsRun<F> as HasRunState>⟧.run_state r.0.run) r.0.rows.items) all r.1) }
        ensures by { self.has_failed ≡ false → (functions : Functions) (all : List CheckpointBytes)
            → SliceStandsAt (job_in job.now) functions (F.answer function.now) (limits_in job.now.limits) number items.now self.stage (⟦<RecordsRun<F> as HasRunState>⟧.run_state self.run) self.rows.items all
            → IfOk result (λ r. IsTrue r.0.has_failed → MatchOption r.1 ⊥ (λ next. GoesBy (limits_in job.now.limits) (all ++ checkpoint_bytes next ∷ []))) }
        ensures faults { (functions : Functions) (all : List CheckpointBytes)
            → SliceStandsAt (job_in job.now) functions (F.answer function.now) (limits_in job.now.limits) number items.now self.stage (⟦<RecordsRun<F> as HasRunState>⟧.run_state self.run) self.rows.items all
            → HoldsFaults (map faults_held self.faults.items) all
            → IfOk result (λ r. MatchOption r.1 (HoldsFaults (map faults_held r.0.faults.items) all) (λ next. HoldsFaults (map faults_held r.0.faults.items) (all ++ checkpoint_bytes next ∷ []))) }
        ensures own { IfErr result (Explains AnyInterval) }
        ensures why { (functions : Functions) (all : List CheckpointBytes)
            → SliceStandsAt (job_in job.now) functions (F.answer function.now) (limits_in job.now.limits) number items.now self.stage (⟦<RecordsRun<F> as HasRunState>⟧.run_state self.run) self.rows.items all
            → IfErr result (Explains (NextInterval (job_in job.now) functions number items.now all)) }
        ensures whole { IfOk result (λ r. r.1 ≡ None → AreAtTheirEnds (⟦<RecordsRun<F> as HasRunState>⟧.run_state r.0.run).setup.rows) }
        ensures settled { IfOk result (λ r. r.1 ≡ None → r.0.stage ≡ SomeIntervals) }
        ensures agrees { StatusMatchesRows self.has_failed self.stage (⟦<RecordsRun<F> as HasRunState>⟧.run_state self.run) self.rows.items
            → IfOk result (λ r. StatusMatchesRows r.0.has_failed r.0.stage (⟦<RecordsRun<F> as HasRunState>⟧.run_state r.0.run) r.0.rows.items) }
        ensures again { IsRunDone self.has_failed self.stage (⟦<RecordsRun<F> as HasRunState>⟧.run_state self.run) → MatchResult result (λ r. r.1 ≡ None) (λ e. ⊥) }
    {
        if self.is_whole() {
            return Ok((self, None));
        }
        let ResumableRun {
            run,
            rows,
            faults,
            has_failed,
            stage,
        } = self;
        if let Stage::NoCheckpoint(first) = stage {
            let place = ResumableRun {
                run,
                rows,
                faults,
                has_failed,
                stage: Stage::HeaderOnly,
            };
            return Ok((place, Some(first)));
        }
        let (place, next) = next_interval(
            rt, alloc, job, number, function, items, run, rows, faults, rounds,
        )?;
        Ok((place, Some(next)))
    }
}
