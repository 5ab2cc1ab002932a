//! Resuming a slice after its checkpoints.

ghost use Rattle.std.specs.Prelude.{ℕ, List, ◌≡◌, ◌≤◌, ◌++◌, ◌∷◌, [], false, length, map, IfErr, IfOk, OnOk};
ghost use Rattle.std.specs.Arc.{arc_value};
ghost use Rattle.jb_slice_file.specs.CheckpointBytes.{CheckpointBytes, checkpoint_bytes};
ghost use Rattle.jb_slices.specs.Function.{Function};
ghost use Rattle.jb_slices.specs.Slice.{Functions};
ghost use Rattle.jb_slice_run.specs.Causes.{Explains, InMemory, IsFirstOwn, Resuming};
ghost use Rattle.jb_slice_run.specs.Held.{header_in, limits_in, new_output_in};
ghost use Rattle.jb_slice_run.specs.Jobs.{job_in, kept_stamps, own_header, stamps_in};
ghost use Rattle.jb_slice_run.specs.SliceBytes.{KeepsSlice};
ghost use Rattle.jb_slice_run.specs.Named.{HoldsFaults, faults_by, faults_held};
ghost use Rattle.jb_slice_run.specs.Resuming.{HasBegun, HasResumed, IsOpened};
ghost use Rattle.jb_slice_run.specs.Step.{AreStampsOf, IsStepOfSlice};
ghost use Rattle.jb_slice_run.specs.Whole.{KeepsWhole};
ghost use Rattle.jb_slice_run.specs.Work.{IsRunDone, StatusMatchesRows, SliceStandsAt};
ghost use Rattle.jb_slice_run.specs.declared.resumable_run.Stage.TheVariants.{SomeIntervals};

use crate::digest::digest_of;
use crate::error::SliceError;
use crate::fault::PartitionFaults;
use crate::header::{SliceHeader, SliceLimits};
use crate::intervals::read_slice;
use crate::job::SliceJob;
use crate::lists::{HeaderLists, refuse_lowered};
use crate::partition_output::PartitionOutput;
use crate::resumable_run::{ResumableRun, Stage};
use crate::writing::header_checkpoint;
use jb_base::PackedList;
use jb_records::{HasRunState, RecordsRun, RecordsStep, rules_are_kept};
use jb_rows::RowFunction;
use jb_slice_file::Checkpoint;
use jb_step::read_saved;
use std::alloc::{AllocError, Global};
use std::sync::Arc;

/// The header with which the slice with this number and these items begins.
fn header_of<'a>(
    alloc: Global,
    job: &SliceJob<'a>,
    number: u64,
    items: &PackedList,
) -> Result<SliceHeader<'a>, SliceError>
    ensures is { IfOk result (λ header. header_in header ≡ own_header job.now number items.now) }
    ensures why { (f : Function) (all : List CheckpointBytes) → IfErr result (Explains (Resuming job.now f number items.now InMemory all)) }
{
    let digest = digest_of(alloc, items)?;
    Ok(job.header(number, items.len() as u64, digest))
}

/// The limits with which a slice with this first checkpoint began. The checkpoint must be our own.
fn own_limits(
    alloc: Global,
    job: &SliceJob,
    number: u64,
    items: &PackedList,
    own: &SliceHeader,
    first: &Checkpoint,
) -> Result<SliceLimits, SliceError>
    requires own { header_in own.now ≡ own_header job.now number items.now }
    ensures opened { IfOk result (λ limits. IsOpened job.now number items.now (limits_in limits) (checkpoint_bytes first.now)) }
    ensures why { (f : Function) (later : List CheckpointBytes) → IfErr result (Explains (Resuming job.now f number items.now InMemory (checkpoint_bytes first.now ∷ later))) }
{
    let held = HeaderLists::read(alloc, first)?;
    let own = HeaderLists::of(alloc, own)?;
    held.refuse_others(&own, job.stamps)?;
    let limits = held.limits()?;
    Ok(limits)
}

/// The results of the partitions, and their faults.
fn parts_of(
    alloc: Global,
    partitions: Vec<PartitionOutput>,
) -> Result<(Vec<PackedList>, Vec<PartitionFaults>), AllocError>
    ensures results { IfOk result (λ r. r.0.items ≡ map (λ (new_output : PartitionOutput). new_output.results) partitions.items) }
    ensures faults { IfOk result (λ r. map faults_held r.1.items ≡ map faults_by (map new_output_in partitions.items)) }
{
    let mut results = Vec::new(alloc);
    let mut faults = Vec::new(alloc);
    'partitions: for new_output in partitions {
        let PartitionOutput {
            results: own,
            skips,
            stop,
        } = new_output;
        results.push(own)?;
        faults.push(PartitionFaults { skips, stop })?;
    }
    Ok((results, faults))
}

/// Begins at the first items.
fn begun<F: RowFunction + Drop>(
    alloc: Global,
    job: &SliceJob,
    step: &RecordsStep,
    function: &Arc<F, Global>,
    items: &PackedList,
    stage: Stage,
) -> Result<ResumableRun<F>, SliceError>
    requires step { IsStepOfSlice (job_in job.now) (limits_in job.now.limits) job.now.threads step.now }
    ensures place { IfOk result (λ place. HasBegun (job_in job.now) (F.answer (arc_value function.now)) (limits_in job.now.limits) items.now stage place.has_failed place.stage (⟦<RecordsRun<F> as HasRunState>⟧.run_state place.run) place.rows.items (map faults_held place.faults.items)) }
    ensures why { (number : ℕ) (all : List CheckpointBytes) → IfErr result (Explains (Resuming job.now (F.answer (arc_value function.now)) number items.now InMemory all)) }
{
    let run = RecordsRun::begin(alloc, step, function, items)?;
    Ok(ResumableRun {
        run,
        rows: Vec::new(alloc),
        faults: Vec::new(alloc),
        has_failed: false,
        stage,
    })
}

/// Begins with the header as the first checkpoint.
fn blank<F: RowFunction + Drop>(
    alloc: Global,
    job: &SliceJob,
    step: &RecordsStep,
    function: &Arc<F, Global>,
    number: u64,
    items: &PackedList,
    own: &SliceHeader,
) -> Result<ResumableRun<F>, SliceError>
    requires step { IsStepOfSlice (job_in job.now) (limits_in job.now.limits) job.now.threads step.now }
    requires own { header_in own.now ≡ own_header job.now number items.now }
    ensures place { IfOk result (λ place. HasResumed job.now (F.answer (arc_value function.now)) number items.now [] place.has_failed place.stage (⟦<RecordsRun<F> as HasRunState>⟧.run_state place.run) place.rows.items (map faults_held place.faults.items)) }
    ensures why { IfErr result (Explains (Resuming job.now (F.answer (arc_value function.now)) number items.now InMemory [])) }
{
    let first = header_checkpoint(alloc, own)?;
    let place = begun(
        alloc,
        job,
        step,
        function,
        items,
        Stage::NoCheckpoint(first),
    )?;
    Ok(place)
}

/// Begins after the header, which has these limits.
fn after_header<F: RowFunction + Drop>(
    alloc: Global,
    job: &SliceJob,
    step: &RecordsStep,
    function: &Arc<F, Global>,
    items: &PackedList,
    limits: SliceLimits,
) -> Result<ResumableRun<F>, SliceError>
    requires step { IsStepOfSlice (job_in job.now) (limits_in job.now.limits) job.now.threads step.now }
    ensures place { (number : ℕ) (first : CheckpointBytes) → IsOpened job.now number items.now (limits_in limits) first
        → IfOk result (λ place. HasResumed job.now (F.answer (arc_value function.now)) number items.now (first ∷ []) place.has_failed place.stage (⟦<RecordsRun<F> as HasRunState>⟧.run_state place.run) place.rows.items (map faults_held place.faults.items)) }
    ensures why { (number : ℕ) (first : CheckpointBytes) → IsOpened job.now number items.now (limits_in limits) first
        → IfErr result (Explains (Resuming job.now (F.answer (arc_value function.now)) number items.now InMemory (first ∷ []))) }
{
    refuse_lowered(job.limits, limits)?;
    let place = begun(alloc, job, step, function, items, Stage::HeaderOnly)?;
    Ok(place)
}

/// Resumes after these intervals, the last of which is `last`. The header before them has these limits.
fn behind<F: RowFunction + Drop>(
    alloc: Global,
    job: &SliceJob,
    step: &RecordsStep,
    function: &Arc<F, Global>,
    items: &PackedList,
    limits: SliceLimits,
    later: &[Checkpoint],
    last: &Checkpoint,
) -> Result<ResumableRun<F>, SliceError>
    requires step { IsStepOfSlice (job_in job.now) (limits_in job.now.limits) job.now.threads step.now }
    requires last { (before : List CheckpointBytes) × (map checkpoint_bytes later.now ≡ before ++ checkpoint_bytes last.now ∷ []) }
    ensures place { (number : ℕ) (first : CheckpointBytes) → IsOpened job.now number items.now (limits_in limits) first
        → IfOk result (λ place. HasResumed job.now (F.answer (arc_value function.now)) number items.now (first ∷ map checkpoint_bytes later.now) place.has_failed place.stage (⟦<RecordsRun<F> as HasRunState>⟧.run_state place.run) place.rows.items (map faults_held place.faults.items)) }
    ensures why { (number : ℕ) (first : CheckpointBytes) → IsOpened job.now number items.now (limits_in limits) first
        → IfErr result (Explains (Resuming job.now (F.answer (arc_value function.now)) number items.now InMemory (first ∷ map checkpoint_bytes later.now))) }
{
    rules_are_kept();
    let held = read_slice(alloc, limits, later, job.partitions)?;
    refuse_lowered(job.limits, held.limits)?;
    let rows = {
        let saved = read_saved(alloc, last.saved.as_bytes())?;
        Vec::from_slice(alloc, saved.rows())?
    };
    let (results, faults) = parts_of(alloc, held.partitions)?;
    let run = RecordsRun::resume(alloc, step, function, items, last.saved.as_bytes(), results)?;
    Ok(ResumableRun {
        run,
        rows,
        faults,
        has_failed: false,
        stage: Stage::SomeIntervals,
    })
}

/// Resumes after these checkpoints, or begins with this header.
fn resumed<F: RowFunction + Drop>(
    alloc: Global,
    job: &SliceJob,
    step: &RecordsStep,
    function: &Arc<F, Global>,
    number: u64,
    items: &PackedList,
    own: &SliceHeader,
    done: &[Checkpoint],
) -> Result<ResumableRun<F>, SliceError>
    requires step { IsStepOfSlice (job_in job.now) (limits_in job.now.limits) job.now.threads step.now }
    requires own { header_in own.now ≡ own_header job.now number items.now }
    ensures place { IfOk result (λ place. HasResumed job.now (F.answer (arc_value function.now)) number items.now (map checkpoint_bytes done.now) place.has_failed place.stage (⟦<RecordsRun<F> as HasRunState>⟧.run_state place.run) place.rows.items (map faults_held place.faults.items)) }
    ensures why { IfErr result (Explains (Resuming job.now (F.answer (arc_value function.now)) number items.now InMemory (map checkpoint_bytes done.now))) }
{
    let Some((first, later)) = done.split_first() else {
        return blank(alloc, job, step, function, number, items, own);
    };
    let limits = own_limits(alloc, job, number, items, own, first)?;
    match later.split_last() {
        None => after_header(alloc, job, step, function, items, limits),
        Some((last, _)) => behind(alloc, job, step, function, items, limits, later, last),
    }
}

/// Resumes the slice with this number and these items after its checkpoints. It begins if there are none, or only the header. A slice with another
/// stamp is resumed if the job accepts that stamp. Limits may be raised.
///
/// # Errors
/// `OtherJob`, `OtherSlice`, `OtherItems` or `OtherStamp` if the header is refused. `TooLong` if a text or an item is too long for its bytes.
/// `Step` if the step can't start. And `LoweredLimit`, `Damaged` or `Memory`.
pub fn resume<F: RowFunction + Drop>(
    alloc: Global,
    job: &SliceJob,
    number: u64,
    function: &Arc<F, Global>,
    items: &PackedList,
    done: &[Checkpoint],
) -> Result<ResumableRun<F>, SliceError>
    ensures stands { (functions : Functions) → AreStampsOf functions (F.answer (arc_value function.now)) (stamps_in job.now) → KeepsSlice (job_in job.now) functions number items.now (map checkpoint_bytes done.now)
        → IfOk result (λ place. SliceStandsAt (job_in job.now) functions (F.answer (arc_value function.now)) (limits_in job.now.limits) number items.now place.stage (⟦<RecordsRun<F> as HasRunState>⟧.run_state place.run) place.rows.items (map checkpoint_bytes done.now)) }
    ensures faults { (functions : Functions) → KeepsSlice (job_in job.now) functions number items.now (map checkpoint_bytes done.now)
        → IfOk result (λ place. HoldsFaults (map faults_held place.faults.items) (map checkpoint_bytes done.now)) }
    ensures agrees { IfOk result (λ place. StatusMatchesRows place.has_failed place.stage (⟦<RecordsRun<F> as HasRunState>⟧.run_state place.run) place.rows.items) }
    ensures done { (functions : Functions) → AreStampsOf functions (F.answer (arc_value function.now)) (stamps_in job.now)
        → KeepsWhole (job_in job.now) functions (limits_in job.now.limits) number items.now (map checkpoint_bytes done.now)
        → IfOk result (λ place. place.stage ≡ SomeIntervals → IsRunDone place.has_failed place.stage (⟦<RecordsRun<F> as HasRunState>⟧.run_state place.run)) }
    ensures fresh { IfOk result (λ place. place.has_failed ≡ false) }
    ensures later { 2 ≤ length done.now → IfOk result (λ place. place.stage ≡ SomeIntervals) }
    ensures own { OnOk result (IsFirstOwn (own_header job.now number items.now) (kept_stamps job.now) (map checkpoint_bytes done.now)) }
    ensures cause { IfErr result (Explains (Resuming job.now (F.answer (arc_value function.now)) number items.now InMemory (map checkpoint_bytes done.now))) }
{
    let step = job.step(alloc)?;
    let own = header_of(alloc, job, number, items)?;
    let place = resumed(alloc, job, &step, function, number, items, &own, done)?;
    Ok(place)
}
