//! A slice is resumed, and intervals are added.

ghost use Rattle.std.specs.Prelude.{◌≡◌, ◌≤◌, List, length, IfErr, IfOk, OnOk};
ghost use Rattle.std.specs.Arc.{arc_value};
ghost use Rattle.sqlite.specs.Held.{state};
ghost use Rattle.sqlite_trees.specs.View.{doubt};
ghost use Rattle.jb_slice_file.specs.Connections.{IsJustOpened, Keeps};
ghost use Rattle.jb_slice_file.specs.Files.{HasRunCheckpoints};
ghost use Rattle.jb_slice_file.specs.CheckpointBytes.{CheckpointBytes};
ghost use Rattle.jb_slice_file.specs.Rows.{Has, ShowsList};
ghost use Rattle.jb_slice_run.specs.Causes.{Explains, IsFirstOwn, OfFile, Resuming, RunningSlice};
ghost use Rattle.jb_slice_run.specs.Jobs.{kept_stamps, own_header};
ghost use Rattle.jb_slice_run.specs.Refusals.{IsRefusal};
ghost use Rattle.jb_slice_run.specs.durable.Work.{HasRun, IfResumed, IfShown, IsWhole, LoopEndMatchesRows, SoFar};
ghost use Rattle.jb_slice_run.specs.declared.durable.loop_end.LoopEnd.TheVariants.{Whole};

use crate::durable::intervals::run;
use crate::durable::listener::{ProgressListener, progress_of};
use crate::durable::loop_end::LoopEnd;
use crate::durable::resumed::resumed;
use crate::durable::seen::Placed;
use crate::{Pace, ResumableRun, SliceError, SliceJob};
use jb_base::PackedList;
use jb_rows::RowFunction;
use sqlite::{Alter, Connection};
use std::alloc::Global;
use std::sync::{Arc, Wait};
use std::thread::Threads;

/// Resumes the slice, and adds at most `intervals` checkpoints. To a whole slice it adds none, and reports to the listener that all is done.
pub(crate) fn resume_and_run<
    F: RowFunction + Drop + 'static,
    P: Pace,
    O: ProgressListener,
    R: Threads + Wait + Sync,
    S: Alter,
>(
    rt: &R,
    alloc: Global,
    conn: &mut Connection<S>,
    job: &SliceJob,
    number: u64,
    function: &Arc<F, Global>,
    items: &PackedList,
    intervals: u32,
    pace: &mut P,
    listener: &mut O,
) -> Result<(ResumableRun<F>, LoopEnd), SliceError>
    ensures shown { IsJustOpened (state S.Store conn.old) → (all : List CheckpointBytes) → Has (state S.Store conn.old).now.trees all → ShowsList (state S.Store conn.old).now all }
    ensures kept { IfResumed job.now (F.answer (arc_value function.now)) number items.now (state S.Store conn.old) (state S.Store conn.new) (λ w all. IfOk result (λ r. HasRun w (state S.Store conn.new) (⟦<ResumableRun<F> as Placed>⟧.seen r.0) r.1 intervals)) }
    ensures agrees { IfOk result (λ r. LoopEndMatchesRows (⟦<ResumableRun<F> as Placed>⟧.seen r.0) r.1) }
    ensures again { IfResumed job.now (F.answer (arc_value function.now)) number items.now (state S.Store conn.old) (state S.Store conn.new) (λ w all. IsWhole w all → 2 ≤ length all → IfOk result (λ r. (r.1 ≡ Whole) × Keeps (state S.Store conn.new) all)) }
    ensures untouched { IfResumed job.now (F.answer (arc_value function.now)) number items.now (state S.Store conn.old) (state S.Store conn.new) (λ w all. IsWhole w all → 2 ≤ length all → (db : _) → (state S.Store conn.new).may_leave db → Has db all) }
    ensures own { IfShown (state S.Store conn.old) (state S.Store conn.new) (λ all. OnOk result (IsFirstOwn (own_header job.now number items.now) (kept_stamps job.now) all)) }
    ensures refused { IfShown (state S.Store conn.old) (state S.Store conn.new) (λ all. IfErr result (λ e. IsRefusal e → Explains (Resuming job.now (F.answer (arc_value function.now)) number items.now (OfFile (state S.Store conn.old) (state S.Store conn.new)) all) e × Keeps (state S.Store conn.new) all)) }
    ensures cause { IfResumed job.now (F.answer (arc_value function.now)) number items.now (state S.Store conn.old) (state S.Store conn.new) (λ w all. IfErr result (Explains (RunningSlice job.now w (state S.Store conn.old) (state S.Store conn.new) all))) }
    ensures clean { doubt (state S.Store conn.old).is_clean ≤ doubt (state S.Store conn.new).is_clean }
    ensures crash { IfResumed job.now (F.answer (arc_value function.now)) number items.now (state S.Store conn.old) (state S.Store conn.new) (λ w all. (db : _) → (state S.Store conn.new).may_leave db → HasRunCheckpoints (SoFar w) db) }
{
    let (place, mut end) = resumed(alloc, conn, job, number, function, items)?;
    if place.is_whole() {
        listener.on_progress(progress_of(&place.rows, items.len()));
        return Ok((place, LoopEnd::Whole));
    }
    let (place, loop_end) = run(
        rt,
        alloc,
        conn,
        job,
        number,
        &**function,
        items,
        place,
        &mut end,
        intervals,
        pace,
        listener,
    )?;
    Ok((place, loop_end))
}
