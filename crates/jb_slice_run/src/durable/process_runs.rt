//! Process runs of a slice: any number that end in a crash, and a last one.

ghost use Rattle.std.specs.Prelude.{◌≡◌, ◌≤◌, List, length, IfOk, IfSome, IsTrue};
ghost use Rattle.std.specs.Arc.{arc_value};
ghost use Rattle.sqlite.specs.Files.{file_state};
ghost use Rattle.sqlite.specs.State.{HasCleanDisk};
ghost use Rattle.sqlite_trees.specs.View.{doubt};
ghost use Rattle.jb_slice_file.specs.CheckpointBytes.{CheckpointBytes};
ghost use Rattle.jb_slice_file.specs.Connections.{IsJustOpened};
ghost use Rattle.jb_slice_file.specs.Files.{HoldsRunOrNone, HasRunCheckpoints, Leaves};
ghost use Rattle.jb_slice_file.specs.ProcessRuns.{IsProcessRunOver};
ghost use Rattle.jb_slice_file.specs.DiskHistory.{IsHistoryOf, IsSame};
ghost use Rattle.jb_slice_file.specs.Rows.{Has, ShowsList};
ghost use Rattle.jb_slices.specs.Slice.{Functions};
ghost use Rattle.jb_slice_run.specs.Jobs.{stamps_in};
ghost use Rattle.jb_slice_run.specs.Step.{AreStampsOf};
ghost use Rattle.jb_slice_run.specs.durable.Ends.{KeepsAll};
ghost use Rattle.jb_slice_run.specs.durable.Work.{IfResumed, SoFar, slice_input_of};
ghost use Rattle.jb_slice_run.specs.declared.durable.loop_end.LoopEnd.TheVariants.{Whole};

use crate::durable::listener::ProgressListener;
use crate::durable::loop_end::LoopEnd;
use crate::durable::resume_and_run::resume_and_run;
use crate::{Pace, SliceError, SliceJob, rows_are_progress};
use jb_base::PackedList;
use jb_rows::RowFunction;
use jb_slice_file::{DiskHistory, ProcessRun, closed, open_own, open_recording, stop_recording};
use jb_slices::slices_have_results;
use sqlite::{Connection, FileStore, Options};
use sqlite_disk::{Crash, Disk, Files};
use std::alloc::Global;
use std::marker::Brand;
use std::sync::{Arc, Wait};
use std::thread::Threads;

/// The process run that doesn't end in a crash.
#[derive(Drop)]
pub struct LastRun<D: Disk> {
    pub conn: Connection<FileStore<D>>,
    /// The slice is whole.
    pub is_done: bool,
    /// How many process runs ended in a crash before it.
    pub crashes: usize,
}

/// What the author says of each stamp: whose function it is. The caller chooses it.
pub trait Meaning {
    ghost functions: { Functions };
}

fn is_whole(loop_end: LoopEnd) -> bool
    ensures { IsTrue result → loop_end ≡ Whole }
{
    matches!(loop_end, LoopEnd::Whole)
}

/// Resumes the slice and adds at most `intervals` checkpoints; true if it is whole. Only here a connection over files is passed to `resume_and_run`.
fn run_over_files<
    F: RowFunction + Drop + 'static,
    P: Pace,
    O: ProgressListener,
    R: Threads + Wait + Sync,
    D: Disk + Drop,
>(
    rt: &R,
    alloc: Global,
    conn: &mut Connection<FileStore<D>>,
    job: &SliceJob,
    number: u64,
    function: &Arc<F, Global>,
    items: &PackedList,
    intervals: u32,
    pace: &mut P,
    listener: &mut O,
) -> Result<bool, SliceError>
    ensures shown { IsJustOpened (file_state conn.old) → (all : List CheckpointBytes) → Has (file_state conn.old).now.trees all → ShowsList (file_state conn.old).now all }
    ensures done { IfResumed job.now (F.answer (arc_value function.now)) number items.now (file_state conn.old) (file_state conn.new) (λ w all. IfOk result (λ done. IsTrue done → (now : List CheckpointBytes) × KeepsAll w (file_state conn.new) now)) }
    ensures clean { doubt (file_state conn.old).is_clean ≤ doubt (file_state conn.new).is_clean }
    ensures crash { IfResumed job.now (F.answer (arc_value function.now)) number items.now (file_state conn.old) (file_state conn.new) (λ w all. (db : _) → (file_state conn.new).may_leave db → HasRunCheckpoints (SoFar w) db) }
{
    rows_are_progress();
    slices_have_results();
    let (_, loop_end) = resume_and_run(
        rt, alloc, conn, job, number, function, items, intervals, pace, listener,
    )?;
    Ok(is_whole(loop_end))
}

/// A process run over disks that know what they were as it began.
fn recorded_run<
    F: RowFunction + Drop + 'static,
    N: Meaning,
    P: Pace,
    O: ProgressListener,
    R: Threads + Wait + Sync,
    D: Crash + Drop,
    G: DiskHistory,
>(
    rt: &R,
    alloc: Global,
    files: Files<D>,
    options: Options,
    job: &SliceJob,
    number: u64,
    function: &Arc<F, Global>,
    items: &PackedList,
    intervals: u32,
    pace: &mut P,
    listener: &mut O,
) -> Option<ProcessRun<D>>
    requires log { IsTrue (D.Disk.is_usable files.log) }
    requires db { IsTrue (D.Disk.is_usable files.db) }
    requires stamps { AreStampsOf N.Meaning.functions (F.answer (arc_value function.now)) (stamps_in job.now) }
    requires given { IsHistoryOf D.Disk G.DiskHistory.was_clean G.DiskHistory.could_leave files }
    requires run { IsSame G.DiskHistory.is_so_far (SoFar (slice_input_of job.now N.Meaning.functions (F.answer (arc_value function.now)) number items.now)) }
    ensures { IfSome result (λ process_run. IsProcessRunOver D.Disk G.DiskHistory.is_so_far files process_run) }
{
    match open_recording::<D, G>(alloc, files, options) {
        Ok(mut conn) => {
            let _ = run_over_files(
                rt, alloc, &mut conn, job, number, function, items, intervals, pace, listener,
            );
            stop_recording(conn)
        }
        Err(process_run) => process_run,
    }
}

/// One process run: it opens the files, resumes the slice and adds at most `intervals` checkpoints. The machine stops somewhere on the way.
fn run_and_crash<
    F: RowFunction + Drop + 'static,
    N: Meaning,
    P: Pace,
    O: ProgressListener,
    R: Threads + Wait + Sync,
    D: Crash + Drop,
>(
    rt: &R,
    alloc: Global,
    files: Files<D>,
    options: Options,
    job: &SliceJob,
    number: u64,
    function: &Arc<F, Global>,
    items: &PackedList,
    intervals: u32,
    pace: &mut P,
    listener: &mut O,
) -> Option<ProcessRun<D>>
    requires log { IsTrue (D.Disk.is_usable files.log) }
    requires db { IsTrue (D.Disk.is_usable files.db) }
    requires stamps { AreStampsOf N.Meaning.functions (F.answer (arc_value function.now)) (stamps_in job.now) }
    ensures { IfSome result (λ process_run. IsProcessRunOver D.Disk (SoFar (slice_input_of job.now N.Meaning.functions (F.answer (arc_value function.now)) number items.now)) files process_run) }
{
    recorded_run::<F, N, P, O, R, D, Brand>(
        rt, alloc, files, options, job, number, function, items, intervals, pace, listener,
    )
}

/// A number of process runs that end in a crash, and one that doesn't.
fn through_crashes<
    F: RowFunction + Drop + 'static,
    N: Meaning,
    P: Pace,
    O: ProgressListener,
    R: Threads + Wait + Sync,
    D: Crash + Drop,
>(
    rt: &R,
    alloc: Global,
    files: Files<D>,
    options: Options,
    job: &SliceJob,
    number: u64,
    function: &Arc<F, Global>,
    items: &PackedList,
    pace: &mut P,
    listener: &mut O,
    process_runs: &[u32],
    intervals: u32,
) -> Option<LastRun<D>>
    requires log { IsTrue (D.Disk.is_usable files.log) }
    requires db { IsTrue (D.Disk.is_usable files.db) }
    requires stamps { AreStampsOf N.Meaning.functions (F.answer (arc_value function.now)) (stamps_in job.now) }
    ensures whole { IfSome result (λ last. HasCleanDisk (file_state last.conn)
        → Leaves D.Disk (HoldsRunOrNone (SoFar (slice_input_of job.now N.Meaning.functions (F.answer (arc_value function.now)) number items.now))) files
        → IsTrue last.is_done → ∥ ((all : List CheckpointBytes) × KeepsAll (slice_input_of job.now N.Meaning.functions (F.answer (arc_value function.now)) number items.now) (file_state last.conn) all) ∥₁) }
    ensures crashes { IfSome result (λ last. last.crashes ≡ length process_runs.now) }
{
    let mut left = files;
    let mut is_sure = true;
    let mut crashes = 0;
    'process_runs: for count in process_runs {
        let process_run = run_and_crash::<F, N, P, O, R, D>(
            rt, alloc, left, options, job, number, function, items, *count, pace, listener,
        )?;
        is_sure = process_run.sure_after(is_sure)?;
        left = process_run.files;
        crashes += 1;
    }
    let mut conn = match open_own(alloc, left, options) {
        Ok(conn) => conn,
        Err(_) => return None,
    };
    match run_over_files(
        rt, alloc, &mut conn, job, number, function, items, intervals, pace, listener,
    ) {
        Ok(is_done) => Some(LastRun {
            conn,
            is_done,
            crashes,
        }),
        Err(_) => {
            let _files = closed(conn);
            None
        }
    }
}

/// Process runs that end in a crash, and one that doesn't. Each number in `process_runs` is one that crashes, after at most that many new
/// checkpoints. The first starts without a file, or from one that holds this slice so far. If the slice is then whole, the connection has its
/// checkpoints, and they have the results of all items.
///
/// `None` in these cases. Sharing the function is out of memory. The last open or the last run fails. An open finds a database that isn't one of
/// checkpoints. Or two opens had written and were interrupted after their recovery, and no process run between them had the files open.
pub fn slice_through_crashes<
    F: RowFunction + Drop + 'static,
    N: Meaning,
    P: Pace + Drop,
    O: ProgressListener + Drop,
    R: Threads + Wait + Sync,
    D: Crash + Drop,
>(
    rt: &R,
    alloc: Global,
    files: Files<D>,
    options: Options,
    job: &SliceJob,
    number: u64,
    function: F,
    items: &PackedList,
    pace: P,
    listener: O,
    process_runs: &[u32],
    intervals: u32,
) -> Option<LastRun<D>>
    requires log { IsTrue (D.Disk.is_usable files.log) }
    requires db { IsTrue (D.Disk.is_usable files.db) }
    requires stamps { AreStampsOf N.Meaning.functions (F.answer function) (stamps_in job.now) }
    ensures whole { IfSome result (λ last. HasCleanDisk (file_state last.conn)
        → Leaves D.Disk (HoldsRunOrNone (SoFar (slice_input_of job.now N.Meaning.functions (F.answer function) number items.now))) files
        → IsTrue last.is_done → ∥ ((all : List CheckpointBytes) × KeepsAll (slice_input_of job.now N.Meaning.functions (F.answer function) number items.now) (file_state last.conn) all) ∥₁) }
    ensures crashes { IfSome result (λ last. last.crashes ≡ length process_runs.now) }
{
    let Ok(function) = Arc::new(alloc, function) else {
        return None;
    };
    let mut pace = pace;
    let mut listener = listener;
    through_crashes::<F, N, P, O, R, D>(
        rt,
        alloc,
        files,
        options,
        job,
        number,
        &function,
        items,
        &mut pace,
        &mut listener,
        process_runs,
        intervals,
    )
}
