//! A slice's run after the checkpoints of a database that was just opened.

ghost use Rattle.std.specs.Prelude.{◌≤◌, List, length, IfErr, IfOk, OnOk};
ghost use Rattle.std.specs.Arc.{arc_value};
ghost use Rattle.sqlite.specs.Held.{state};
ghost use Rattle.jb_slice_file.specs.Connections.{IsJustOpened, Keeps};
ghost use Rattle.jb_slice_file.specs.CheckpointBytes.{CheckpointBytes};
ghost use Rattle.jb_slice_file.specs.Rows.{Has, ShowsList};
ghost use Rattle.jb_slice_run.specs.Causes.{Explains, IsFirstOwn, OfFile, Resuming, RunningSlice};
ghost use Rattle.jb_slice_run.specs.Jobs.{kept_stamps, own_header};
ghost use Rattle.jb_slice_run.specs.Refusals.{IsRefusal};
ghost use Rattle.jb_slice_run.specs.durable.Work.{EndsAs, FileMatchesMemory, IfResumed, IfShown, IsLater, IsWhole, SeenMatchesRows};
ghost use Rattle.jb_slice_run.specs.declared.durable.loop_end.LoopEnd.TheVariants.{Whole};

use crate::durable::seen::Placed;
use crate::{ResumableRun, SliceError, SliceJob, bytes_identify_checkpoints, resume};
use jb_base::PackedList;
use jb_rows::RowFunction;
use jb_slice_file::{ListEnd, begin};
use sqlite::{Alter, Connection};
use std::alloc::Global;
use std::sync::Arc;

/// The slice's run after the checkpoints of a database that was just opened, and where these end.
pub(crate) fn resumed<F: RowFunction + Drop, S: Alter>(
    alloc: Global,
    conn: &mut Connection<S>,
    job: &SliceJob,
    number: u64,
    function: &Arc<F, Global>,
    items: &PackedList,
) -> Result<(ResumableRun<F>, ListEnd), SliceError>
    ensures shown { IsJustOpened (state S.Store conn.old) → (all : List CheckpointBytes) → Has (state S.Store conn.old).now.trees all → ShowsList (state S.Store conn.old).now all }
    ensures later { IsLater (state S.Store conn.old) (state S.Store conn.new) }
    ensures rests { IfResumed job.now (F.answer (arc_value function.now)) number items.now (state S.Store conn.old) (state S.Store conn.new) (λ w all. IfOk result (λ r. FileMatchesMemory w (state S.Store conn.new) (⟦<ResumableRun<F> as Placed>⟧.seen r.0) r.1 all)) }
    ensures agrees { IfOk result (λ r. SeenMatchesRows (⟦<ResumableRun<F> as Placed>⟧.seen r.0)) }
    ensures done { IfResumed job.now (F.answer (arc_value function.now)) number items.now (state S.Store conn.old) (state S.Store conn.new) (λ w all. IsWhole w all → 2 ≤ length all → IfOk result (λ r. EndsAs (⟦<ResumableRun<F> as Placed>⟧.seen r.0) Whole)) }
    ensures left { IfShown (state S.Store conn.old) (state S.Store conn.new) (λ all. (db : _) → (state S.Store conn.new).may_leave db → Has db all) }
    ensures own { IfShown (state S.Store conn.old) (state S.Store conn.new) (λ all. OnOk result (IsFirstOwn (own_header job.now number items.now) (kept_stamps job.now) all)) }
    ensures refused { IfShown (state S.Store conn.old) (state S.Store conn.new) (λ all. IfErr result (λ e. IsRefusal e → Explains (Resuming job.now (F.answer (arc_value function.now)) number items.now (OfFile (state S.Store conn.old) (state S.Store conn.new)) all) e × Keeps (state S.Store conn.new) all)) }
    ensures cause { IfResumed job.now (F.answer (arc_value function.now)) number items.now (state S.Store conn.old) (state S.Store conn.new) (λ w all. IfErr result (Explains (RunningSlice job.now w (state S.Store conn.old) (state S.Store conn.new) all))) }
{
    bytes_identify_checkpoints();
    let (done, end) = begin(alloc, conn)?;
    let place = resume(alloc, job, number, function, items, &done)?;
    Ok((place, end))
}
