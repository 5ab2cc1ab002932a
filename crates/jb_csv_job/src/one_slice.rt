//! One slice of a job, from the open of its file to its close.

ghost use Rattle.std.specs.Prelude.{◌≡◌, ◌≤◌, ◌⊎◌, [], Some, IfErr, IfOk, IsTrue, MatchResult, true};
ghost use Rattle.std.specs.Arc.{arc_value};
ghost use Rattle.sqlite.specs.Files.{HoldsDatabase, IsNothing, file_state};
ghost use Rattle.sqlite.specs.Held.{state};
ghost use Rattle.sqlite.specs.State.{HasCleanDisk};
ghost use Rattle.sqlite_trees.specs.View.{doubt};
ghost use Rattle.sqlite_wal.specs.Files.{image_at, outcomes};
ghost use Rattle.sqlite_wal.specs.Reads.{AreClean};
ghost use Rattle.sqlite_wal.specs.Recovery.{Image};
ghost use Rattle.jb_collect.specs.declared.calls.Status.TheVariants.{Completed, Failed};
ghost use Rattle.jb_slice_file.specs.Connections.{IsJustOpened};
ghost use Rattle.jb_slice_file.specs.Files.{HoldsRun};
ghost use Rattle.jb_slice_file.specs.Rows.{Has, ShowsList};
ghost use Rattle.jb_slice_run.specs.Step.{AreStampsOf};
ghost use Rattle.jb_slices.specs.Slice.{Functions};
ghost use Rattle.jb_csv_job.specs.Causes.{IsRunError};
ghost use Rattle.jb_csv_job.specs.Job.{stamps_of};
ghost use Rattle.jb_csv_job.specs.declared.asked.Task.TheVariants.{Collect};
ghost use Rattle.jb_csv_job.specs.SliceFiles.{HoldsSlice, KeepsOwn, LeavesJob, slice_of};
ghost use Rattle.jb_csv_job.specs.Loop.{IfResumes, IsOwnSlice, LeavesAny, job_of};
ghost use Rattle.jb_csv_job.specs.Slices.{EndsResumed, IsSliceEnd, LeavesResumed};

use crate::asked::Task;
use crate::failure::CsvJobError;
use crate::folder::{is_missing, slice_path};
use crate::host::Host;
use crate::keeper::Keeper;
use crate::kinds::{is_no_file, other_kind};
use crate::meter::Meter;
use crate::progress::StderrProgress;
use crate::reason::file_failure;
use crate::stopping::is_stopped;
use crate::stored::{Before, OneStored, Stored};
use crate::work::Work;
use jb_base::PackedList;
use jb_rows::{RowFunction, Rows};
use jb_slice_file::{closed, connect};
use jb_slice_run::{ASecond, SliceEnd, SliceError, collect_slice, run_slice};
use sqlite::{Alter, Connection, FileFrom, FileStore, Files, Start};
use sqlite_disk::Disk;
use std::alloc::Global;
use std::sync::{Arc, Wait};
use std::thread::Threads;
use std::time::Clock;

/// Runs the slice over a connection that was just opened.
fn ran<
    F: RowFunction + Drop + 'static,
    T: Threads + Wait + Clock + Eprint + Host + Copy + Send + Sync + 'static,
    S: Alter,
>(
    rt: &T,
    alloc: Global,
    conn: &mut Connection<S>,
    work: &Work,
    number: u64,
    results_before: u64,
    meter: &mut Meter,
    function: &Arc<F, Global>,
    items: &PackedList,
) -> Result<SliceEnd, CsvJobError>
    ensures ended { EndsResumed work.now.slice (job_of work.now (F.answer (arc_value function.now))) number items.now (state S.Store conn.old) (state S.Store conn.new) result }
    ensures status { IfOk result (λ end. (end.status ≡ Completed) ⊎ (end.status ≡ Failed)) }
    ensures cause { IfErr result (IsRunError work.now.asked.now) }
    ensures clean { doubt (state S.Store conn.old).is_clean ≤ doubt (state S.Store conn.new).is_clean }
    ensures crash { LeavesResumed work.now.slice (F.answer (arc_value function.now)) number items.now (state S.Store conn.old) (state S.Store conn.new) }
{
    let listener = StderrProgress {
        rt: *rt,
        folder: work.asked.folder.as_str(),
        records: work.job.records,
        results: work.job.results,
        slice: number,
        records_before: number.saturating_mul(work.job.slice_length),
        results_before,
        listener: None,
        meter,
    };
    match run_slice(
        rt,
        alloc,
        conn,
        &work.slice,
        number,
        function,
        items,
        ASecond::new(*rt),
        listener,
    ) {
        Ok(end) => Ok(end),
        Err(error) => Err(CsvJobError::Slice {
            slice: number,
            error,
        }),
    }
}

/// The end of the slice that is whole in the database of a connection that was just opened.
fn collected<F: RowFunction + Drop + 'static, S: Alter>(
    alloc: Global,
    conn: &mut Connection<S>,
    work: &Work,
    number: u64,
    function: &Arc<F, Global>,
    items: &PackedList,
) -> Result<SliceEnd, CsvJobError>
    ensures ended { EndsResumed work.now.slice (job_of work.now (F.answer (arc_value function.now))) number items.now (state S.Store conn.old) (state S.Store conn.new) result }
    ensures status { IfOk result (λ end. (end.status ≡ Completed) ⊎ (end.status ≡ Failed)) }
    ensures cause { work.now.asked.now.task ≡ Collect → IfErr result (IsRunError work.now.asked.now) }
    ensures clean { doubt (state S.Store conn.old).is_clean ≤ doubt (state S.Store conn.new).is_clean }
    ensures crash { LeavesResumed work.now.slice (F.answer (arc_value function.now)) number items.now (state S.Store conn.old) (state S.Store conn.new) }
{
    match collect_slice(alloc, conn, &work.slice, number, function, items) {
        Ok(Some(end)) => Ok(end),
        Ok(None) => Err(CsvJobError::NotWhole { slice: number }),
        Err(error) => Err(CsvJobError::Slice {
            slice: number,
            error,
        }),
    }
}

/// Runs the slice, or collects it.
fn answered<
    F: RowFunction + Drop + 'static,
    T: Threads + Wait + Clock + Eprint + Host + Copy + Send + Sync + 'static,
    S: Alter,
>(
    rt: &T,
    alloc: Global,
    conn: &mut Connection<S>,
    work: &Work,
    number: u64,
    results_before: u64,
    meter: &mut Meter,
    function: &Arc<F, Global>,
    items: &PackedList,
) -> Result<SliceEnd, CsvJobError>
    ensures ended { EndsResumed work.now.slice (job_of work.now (F.answer (arc_value function.now))) number items.now (state S.Store conn.old) (state S.Store conn.new) result }
    ensures status { IfOk result (λ end. (end.status ≡ Completed) ⊎ (end.status ≡ Failed)) }
    ensures cause { IfErr result (IsRunError work.now.asked.now) }
    ensures clean { doubt (state S.Store conn.old).is_clean ≤ doubt (state S.Store conn.new).is_clean }
    ensures crash { LeavesResumed work.now.slice (F.answer (arc_value function.now)) number items.now (state S.Store conn.old) (state S.Store conn.new) }
{
    if is_collected(work) {
        return collected(alloc, conn, work, number, function, items);
    }
    ran(
        rt,
        alloc,
        conn,
        work,
        number,
        results_before,
        meter,
        function,
        items,
    )
}

/// Whether slices are collected.
fn is_collected(work: &Work) -> bool
    ensures { result ≡ true → work.now.asked.now.task ≡ Collect }
{
    matches!(work.asked.task, Task::Collect)
}

/// A connection to the file of the slice, which is made if it isn't there. With `--collect` it must be there. If FOLDER/stop is there, no file is
/// opened.
fn opened<S: Start>(
    host: &HostRuntime,
    work: &Work,
    number: u64,
    start: S,
) -> Result<Connection<FileStore<FileFrom<S>>>, CsvJobError>
    ensures opened { IfOk result (λ conn. HasCleanDisk (file_state conn) → IsJustOpened (file_state conn)) }
    ensures found { IfOk result (λ conn. HasCleanDisk (file_state conn) → (db : _) (all : _) → HoldsDatabase (image_at S.Start) db → Has db all → ShowsList (file_state conn).now all) }
    ensures nothing { IfOk result (λ conn. HasCleanDisk (file_state conn) → IsNothing (image_at S.Start) → ShowsList (file_state conn).now []) }
    ensures cause { IfErr result (IsRunError work.now.asked.now) }
{
    let folder = work.asked.folder.as_str();
    if is_stopped(host, folder) {
        return Err(CsvJobError::Slice {
            slice: number,
            error: SliceError::Stopped,
        });
    }
    let path = slice_path(host.alloc(), folder, number)?;
    if is_collected(work) && is_missing(host, path.as_str()) {
        return Err(CsvJobError::NotWhole { slice: number });
    }
    if is_no_file(host, path.as_str())? {
        return Err(CsvJobError::NotAFile { slice: number });
    }
    if let Some(error) = other_kind(host, path.as_str()) {
        return Err(CsvJobError::File {
            slice: number,
            error,
        });
    }
    match connect(host, path.as_str(), start) {
        Ok(conn) => Ok(conn),
        Err(error) => Err(file_failure(host, path.as_str(), number, error)),
    }
}

/// Collects the slice, or runs it over the file at its path, which is made if it isn't there. Gives the slice's files too, closed. `Err` only if the
/// file isn't opened.
pub(crate) fn run_slice_at<
    F: RowFunction + Drop + 'static,
    T: Threads + Wait + Clock + Eprint + Host + Copy + Send + Sync + 'static,
    S: Start,
>(
    rt: &T,
    work: &Work,
    number: u64,
    results_before: u64,
    meter: &mut Meter,
    start: S,
    function: &Arc<F, Global>,
    items: &PackedList,
) -> Result<(Files<FileFrom<S>>, Result<SliceEnd, CsvJobError>), CsvJobError>
    // Over files that held the slice so far, or nothing, it ends by what it says of its items; and whatever a crash leaves of them holds the slice so
    // far again.
    ensures resumed { IfOk result (λ r. AreClean ⟦<FileFrom<S> as Disk>⟧ r.0.log r.0.db → (functions : Functions) → AreStampsOf functions (F.answer (arc_value function.now)) (stamps_of work.now.job.now work.now.asked.now)
        → HoldsSlice (job_of work.now (F.answer (arc_value function.now))) functions number items.now (image_at S.Start)
        → IfOk r.1 (IsSliceEnd (job_of work.now (F.answer (arc_value function.now))) number items.now)
        × ((image : Image) → outcomes ⟦<FileFrom<S> as Disk>⟧ r.0.log r.0.db image → HoldsRun (KeepsOwn (job_of work.now (F.answer (arc_value function.now))) functions number items.now) image)) }
    ensures status { IfOk result (λ r. IfOk r.1 (λ end. (end.status ≡ Completed) ⊎ (end.status ≡ Failed))) }
    ensures cause { MatchResult result (λ r. IfErr r.1 (IsRunError work.now.asked.now)) (IsRunError work.now.asked.now) }
{
    let host = rt.host();
    let mut conn = opened(host, work, number, start)?;
    let answer = answered(
        rt,
        host.alloc(),
        &mut conn,
        work,
        number,
        results_before,
        meter,
        function,
        items,
    );
    Ok((closed(conn), answer))
}

/// The same over the items of these records, and gives the files to the keeper. What they held is picked by the call: what the file of this slice
/// holds as the job begins.
pub(crate) fn kept_slice<
    F: RowFunction + Drop + 'static,
    T: Threads + Wait + Clock + Eprint + Host + Copy + Send + Sync + 'static,
    G: OneStored,
    H: Stored,
    K: Keeper,
>(
    rt: &T,
    work: &Work,
    number: u64,
    results_before: u64,
    meter: &mut Meter,
    function: &Arc<F, Global>,
    rows: &Rows,
    keeper: &mut K,
) -> Result<SliceEnd, CsvJobError>
    ensures ended { IsTrue (K.are_clean keeper.new) → G.log ≡ H.log number → G.db ≡ H.db number → IfResumes (job_of work.now (F.answer (arc_value function.now))) H.log H.db (λ functions text records.
        IsOwnSlice (job_of work.now (F.answer (arc_value function.now))) records number rows.now
        → IfOk result (IsSliceEnd (job_of work.now (F.answer (arc_value function.now))) number (slice_of (job_of work.now (F.answer (arc_value function.now))) records number))) }
    ensures status { IfOk result (λ end. (end.status ≡ Completed) ⊎ (end.status ≡ Failed)) }
    ensures cause { IfErr result (IsRunError work.now.asked.now) }
    ensures clean { IsTrue (K.are_clean keeper.new) → IsTrue (K.are_clean keeper.old) }

    // What a crash leaves of the files of this slice, whose items are those of the text's slice.
    ensures left { IsTrue (K.are_clean keeper.new) → G.log ≡ H.log number → G.db ≡ H.db number → IfResumes (job_of work.now (F.answer (arc_value function.now))) H.log H.db (λ functions text records.
        IsOwnSlice (job_of work.now (F.answer (arc_value function.now))) records number rows.now
        → LeavesJob (job_of work.now (F.answer (arc_value function.now))) functions (Some text) (K.may_leave keeper.old) (K.may_leave keeper.new)) }
    ensures crash { IsTrue (K.are_clean keeper.new) → G.log ≡ H.log number → G.db ≡ H.db number
        → LeavesAny (job_of work.now (F.answer (arc_value function.now))) H.log H.db (K.may_leave keeper.old) (K.may_leave keeper.new) }
{
    let items = rows.as_list();
    let (files, answer) = run_slice_at(
        rt,
        work,
        number,
        results_before,
        meter,
        Before::<G>::new(),
        function,
        items,
    )?;
    keeper.keep(number, items, files);
    answer
}
