//! A slice is run, or its end is collected.

ghost use Rattle.std.specs.Prelude.{◌≡◌, ◌≤◌, ◌⊎◌, None, List, length, IfErr, IfOk, IfSome, OnOk, false};
ghost use Rattle.std.specs.Arc.{arc_value};
ghost use Rattle.sqlite.specs.Held.{state};
ghost use Rattle.sqlite_trees.specs.View.{doubt};
ghost use Rattle.jb_collect.specs.declared.calls.Status.TheVariants.{Completed, Failed};
ghost use Rattle.jb_records.specs.PartitionResults.{joined};
ghost use Rattle.jb_slice_file.specs.Connections.{Keeps};
ghost use Rattle.jb_slice_file.specs.Files.{HasRunCheckpoints};
ghost use Rattle.jb_slice_file.specs.CheckpointBytes.{CheckpointBytes};
ghost use Rattle.jb_slice_file.specs.Rows.{Has};
ghost use Rattle.jb_slices.specs.Function.{all_results, faults_from};
ghost use Rattle.jb_slices.specs.Job.{first_of};
ghost use Rattle.jb_slices.specs.Passing.{SlicePasses};
ghost use Rattle.jb_slice_run.specs.Causes.{Explains, IsFirstOwn, OfFile, Resuming, RunningSlice};
ghost use Rattle.jb_slice_run.specs.Held.{faults_in};
ghost use Rattle.jb_slice_run.specs.Jobs.{kept_stamps, own_header};
ghost use Rattle.jb_slice_run.specs.Refusals.{IsRefusal};
ghost use Rattle.jb_slice_run.specs.Work.{HaveRowsEnded};
ghost use Rattle.jb_step.specs.Statuses.{status_of};
ghost use Rattle.jb_slice_run.specs.durable.Ends.{AreFailuresOf, HasEnded};
ghost use Rattle.jb_slice_run.specs.durable.Work.{IfResumed, IfShown, IsWhole, SoFar};

use crate::durable::end::{SliceEnd, ended};
use crate::durable::listener::ProgressListener;
use crate::durable::loop_end::LoopEnd;
use crate::durable::resume_and_run::resume_and_run;
use crate::durable::resumed::resumed;
use crate::{Pace, SliceError, SliceJob};
use jb_base::PackedList;
use jb_rows::RowFunction;
use sqlite::{Alter, Connection};
use std::alloc::Global;
use std::sync::{Arc, Wait};
use std::thread::Threads;

/// Runs the slice with this number and these items. Its checkpoints are in a database that was just opened. It begins if the database has none,
/// else it resumes after them. Each interval takes as many rounds as the pace says, and is stored before the next one begins. If a partition
/// fails, the failure is stored and the others continue. If one has failed once all have ended, the slice ends FAILED, and a next call tries the
/// failed ones again. A whole slice gives its results again, and runs nothing. If the listener stops the slice after a checkpoint, and the slice
/// isn't whole and hasn't failed, it ends there, and a next call resumes it.
///
/// # Errors
/// As `resume` if the slice isn't resumed, and then no checkpoint is written. As `ResumableRun::next_checkpoint` if an interval has no checkpoint.
/// `Store` with what is wrong with the file. `TooMany` if there are 4,294,967,295 checkpoints. `Stopped` if the listener stopped it.
pub fn run_slice<
    F: RowFunction + Drop + 'static,
    P: Pace + Drop,
    O: ProgressListener + Drop,
    R: Threads + Wait + Sync,
    S: Alter,
>(
    rt: &R,
    alloc: Global,
    conn: &mut Connection<S>,
    job: &SliceJob,
    number: u64,
    function: &Arc<F, Global>,
    items: &PackedList,
    pace: P,
    listener: O,
) -> Result<SliceEnd, SliceError>
    // The connection holds the slice as it ended.
    ensures ends { IfResumed job.now (F.answer (arc_value function.now)) number items.now (state S.Store conn.old) (state S.Store conn.new) (λ w all. IfOk result (λ end. (now : List CheckpointBytes) × Keeps (state S.Store conn.new) now × HasEnded w end now)) }

    // A COMPLETED slice has the results of all items, each once and in order, and the faults of those that were skipped.
    ensures all { IfResumed job.now (F.answer (arc_value function.now)) number items.now (state S.Store conn.old) (state S.Store conn.new) (λ w all. IfOk result (λ end. end.status ≡ Completed → joined end.results.items ≡ all_results w.f w.items)) }
    ensures skips { IfResumed job.now (F.answer (arc_value function.now)) number items.now (state S.Store conn.old) (state S.Store conn.new) (λ w all. IfOk result (λ end. end.status ≡ Completed → faults_in end.skips.items ≡ faults_from w.f (first_of w.job w.number) w.items)) }

    // A FAILED slice names, for each failed partition, the fault by which its items fail under the job's rules.
    ensures failures { IfResumed job.now (F.answer (arc_value function.now)) number items.now (state S.Store conn.old) (state S.Store conn.new) (λ w all. IfOk result (λ end. end.status ≡ Failed → AreFailuresOf w end)) }

    // It is COMPLETED or FAILED, as its rows say, and each row has ended.
    ensures status { IfOk result (λ end. (end.status ≡ Completed) ⊎ (end.status ≡ Failed)) }
    ensures agrees { IfOk result (λ end. end.status ≡ status_of end.rows.items false) }
    ensures ended { IfOk result (λ end. HaveRowsEnded end.rows.items) }

    // It is COMPLETED exactly if the job's rules let the items of each partition pass. The stored checkpoints and the number of runs don't matter.
    ensures passes { IfResumed job.now (F.answer (arc_value function.now)) number items.now (state S.Store conn.old) (state S.Store conn.new) (λ w all. IfOk result (λ end. end.status ≡ Completed → SlicePasses w.job w.limits w.f w.items)) }
    ensures fails { IfResumed job.now (F.answer (arc_value function.now)) number items.now (state S.Store conn.old) (state S.Store conn.new) (λ w all. IfOk result (λ end. end.status ≡ Failed → SlicePasses w.job w.limits w.f w.items → ⊥)) }

    // A whole slice ends as it did before, and stays as it is.
    ensures again { IfResumed job.now (F.answer (arc_value function.now)) number items.now (state S.Store conn.old) (state S.Store conn.new) (λ w all. IsWhole w all → 2 ≤ length all → IfOk result (λ end. (end.status ≡ Completed) × (joined end.results.items ≡ all_results w.f w.items) × Keeps (state S.Store conn.new) all)) }
    ensures untouched { IfResumed job.now (F.answer (arc_value function.now)) number items.now (state S.Store conn.old) (state S.Store conn.new) (λ w all. IsWhole w all → 2 ≤ length all → (db : _) → (state S.Store conn.new).may_leave db → Has db all) }

    // It has an end only if its header is our own. A refusal of the stored checkpoints has its cause, and leaves them as they are. Each other
    // error has its cause too.
    ensures own { IfShown (state S.Store conn.old) (state S.Store conn.new) (λ all. OnOk result (IsFirstOwn (own_header job.now number items.now) (kept_stamps job.now) all)) }
    ensures refused { IfShown (state S.Store conn.old) (state S.Store conn.new) (λ all. IfErr result (λ e. IsRefusal e → Explains (Resuming job.now (F.answer (arc_value function.now)) number items.now (OfFile (state S.Store conn.old) (state S.Store conn.new)) all) e × Keeps (state S.Store conn.new) all)) }
    ensures cause { IfResumed job.now (F.answer (arc_value function.now)) number items.now (state S.Store conn.old) (state S.Store conn.new) (λ w all. IfErr result (Explains (RunningSlice job.now w (state S.Store conn.old) (state S.Store conn.new) all))) }

    // A disk that is clean after the call was clean before it.
    ensures clean { doubt (state S.Store conn.old).is_clean ≤ doubt (state S.Store conn.new).is_clean }

    // At any moment a crash leaves the checkpoints of the slice so far.
    ensures crash { IfResumed job.now (F.answer (arc_value function.now)) number items.now (state S.Store conn.old) (state S.Store conn.new) (λ w all. (db : _) → (state S.Store conn.new).may_leave db → HasRunCheckpoints (SoFar w) db) }
{
    let mut pace = pace;
    let mut listener = listener;
    let (place, loop_end) = resume_and_run(
        rt,
        alloc,
        conn,
        job,
        number,
        function,
        items,
        u32::MAX,
        &mut pace,
        &mut listener,
    )?;
    ended(alloc, job, place, loop_end)
}

/// The end of a slice that `run_slice` made whole, from a database that was just opened. `None` if it isn't whole. Nothing is run.
///
/// # Errors
/// As `run_slice`, but never `TooMany` and `Stopped`.
pub fn collect_slice<F: RowFunction + Drop, S: Alter>(
    alloc: Global,
    conn: &mut Connection<S>,
    job: &SliceJob,
    number: u64,
    function: &Arc<F, Global>,
    items: &PackedList,
) -> Result<Option<SliceEnd>, SliceError>
    ensures ends { IfResumed job.now (F.answer (arc_value function.now)) number items.now (state S.Store conn.old) (state S.Store conn.new) (λ w all. IfOk result (λ found. IfSome found (λ end. Keeps (state S.Store conn.new) all × HasEnded w end all))) }
    ensures all { IfResumed job.now (F.answer (arc_value function.now)) number items.now (state S.Store conn.old) (state S.Store conn.new) (λ w all. IfOk result (λ found. IfSome found (λ end. joined end.results.items ≡ all_results w.f w.items))) }
    ensures skips { IfResumed job.now (F.answer (arc_value function.now)) number items.now (state S.Store conn.old) (state S.Store conn.new) (λ w all. IfOk result (λ found. IfSome found (λ end. faults_in end.skips.items ≡ faults_from w.f (first_of w.job w.number) w.items))) }
    ensures status { IfOk result (λ found. IfSome found (λ end. end.status ≡ Completed)) }
    ensures passes { IfResumed job.now (F.answer (arc_value function.now)) number items.now (state S.Store conn.old) (state S.Store conn.new) (λ w all. IfOk result (λ found. IfSome found (λ end. SlicePasses w.job w.limits w.f w.items))) }

    // Only a slice that isn't whole gives `None`. A slice without items may have its header alone.
    ensures none { IfResumed job.now (F.answer (arc_value function.now)) number items.now (state S.Store conn.old) (state S.Store conn.new) (λ w all. IsWhole w all → 2 ≤ length all → IfOk result (λ found. found ≡ None → ⊥)) }
    ensures own { IfShown (state S.Store conn.old) (state S.Store conn.new) (λ all. OnOk result (IsFirstOwn (own_header job.now number items.now) (kept_stamps job.now) all)) }
    ensures refused { IfShown (state S.Store conn.old) (state S.Store conn.new) (λ all. IfErr result (λ e. IsRefusal e → Explains (Resuming job.now (F.answer (arc_value function.now)) number items.now (OfFile (state S.Store conn.old) (state S.Store conn.new)) all) e × Keeps (state S.Store conn.new) all)) }
    ensures cause { IfResumed job.now (F.answer (arc_value function.now)) number items.now (state S.Store conn.old) (state S.Store conn.new) (λ w all. IfErr result (Explains (RunningSlice job.now w (state S.Store conn.old) (state S.Store conn.new) all))) }
    ensures clean { doubt (state S.Store conn.old).is_clean ≤ doubt (state S.Store conn.new).is_clean }

    // At any moment a crash leaves the checkpoints that the database had.
    ensures crash { IfShown (state S.Store conn.old) (state S.Store conn.new) (λ all. (db : _) → (state S.Store conn.new).may_leave db → Has db all) }
{
    let (place, _) = resumed(alloc, conn, job, number, function, items)?;
    if !place.is_whole() {
        return Ok(None);
    }
    let end = ended(alloc, job, place, LoopEnd::Whole)?;
    Ok(Some(end))
}
