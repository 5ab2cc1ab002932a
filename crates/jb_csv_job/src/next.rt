//! One slice more of a job.

ghost use Rattle.std.specs.Prelude.{◌≡◌, ◌⊎◌, ◌&&◌, ℕ, suc, false, true, List, Option, Some, IfErr, IfOk, IsTrue, not};
ghost use Rattle.std.specs.Arc.{arc_value};
ghost use Rattle.jb_collect.specs.declared.calls.Status.TheVariants.{Completed, Failed};
ghost use Rattle.jb_rows.specs.Fields.{Fields};
ghost use Rattle.jb_slices.specs.Function.{Function};
ghost use Rattle.jb_slices.specs.Job.{HasSlice, slice_at};
ghost use Rattle.jb_csv_job.specs.Causes.{IsRunErrorOver};
ghost use Rattle.jb_csv_job.specs.declared.failure.CsvJobError.TheVariants.{TooMany};
ghost use Rattle.jb_csv_job.specs.Job.{identity_of};
ghost use Rattle.jb_csv_job.specs.SliceFiles.{LeavesJob, slice_of};
ghost use Rattle.jb_csv_job.specs.Loop.{AreDone, IfResumes, IsOver, IsOwnSlice, IsSliceRead, LeavesAny, StandsBefore, job_of};
ghost use Rattle.jb_csv_job.specs.Skipped.{IfTook};
ghost use Rattle.jb_csv_job.specs.Slices.{IsSliceEnd};
ghost use Rattle.jb_csv_job.specs.Standing.{HasGoneOn, HaveRun, Stands};
ghost use Rattle.jb_csv_job.specs.Tasks.{is_own as is_own_of};

use crate::failure::CsvJobError;
use crate::giving::{give, is_own};
use crate::host::Host;
use crate::keeper::Keeper;
use crate::measured::Measures;
use crate::one_slice::kept_slice;
use crate::reading::read_slice;
use crate::report::{Reporter, report_open_end};
use crate::sink::Sink;
use crate::skipped::list_slice;
use crate::stored::Stored;
use crate::tally::{Seam, Tally};
use crate::work::Work;
use jb_rows::{RowFunction, Rows, RowsReader};
use jb_slice_run::SliceEnd;
use std::alloc::Global;
use std::io::Read;
use std::marker::Brand;
use std::sync::{Arc, Wait};
use std::thread::Threads;
use std::time::Clock;

/// Counts a slice that ended, and gives its results to the sink, if none failed; and whether later ones are run.
fn settle<N: Sink>(
    work: &Work,
    end: &SliceEnd,
    sink: &mut N,
    tally: &mut Tally,
) -> Result<bool, CsvJobError>
    requires { (end.now.status ≡ Completed) ⊎ (end.now.status ≡ Failed) }
    ensures goes { (f : Function) (items : List (List ℕ)) (number : ℕ) → is_own_of work.now.asked.now.task number ≡ true → HasSlice (identity_of work.now.job.now) items number
        → IsSliceEnd (job_of work.now f) number (slice_at (identity_of work.now.job.now) items number) end.now
        → (start : N) (taken : List (List ℕ)) → N.took start sink.old taken → AreDone (job_of work.now f) items number tally.old.skips tally.old.is_failed taken
        → IfOk result (λ _. (now : List (List ℕ)) × N.took start sink.new now × AreDone (job_of work.now f) items (suc number) tally.new.skips tally.new.is_failed now) }
    ensures fine { IfOk result (λ _. tally.new.is_failed ≡ false → (tally.old.is_failed ≡ false) × (end.now.status ≡ Completed)) }
    ensures over { IfOk result (λ goes_on. goes_on ≡ false → IsOver work.now.job.now.job_skip_limit tally.new.skips) }
    ensures kept { IfErr result (λ e. N.may_refuse e ⊎ (sink.new ≡ sink.old)) }
    ensures cause { IfErr result (λ e. N.may_refuse e ⊎ (e ≡ TooMany)) }
{
    match tally.add(end, work.job.job_skip_limit)? {
        Seam::Gives => {
            give(work.asked.task, sink, end.results.as_slice())?;
            Ok(true)
        }
        Seam::Keeps => Ok(true),
        Seam::Ends => Ok(false),
    }
}

/// Whether there is another slice to be run.
fn is_more(is_last: bool, goes_on: bool) -> bool
    ensures { result ≡ (not is_last && goes_on) }
{
    !is_last && goes_on
}

/// Reports a slice that ended, lists it, and gives its results to the sink; and whether there is another one to be run.
fn end_slice<
    T: Threads + Wait + Clock + Eprint + Host + Copy + Send + Sync + 'static,
    R: Read + Drop,
    N: Sink,
    L: Sink,
>(
    rt: &T,
    work: &Work,
    number: u64,
    reader: &RowsReader<R>,
    rows: &Rows,
    is_last: bool,
    end: &SliceEnd,
    sink: &mut N,
    list: &mut Option<L>,
    reporter: &mut Reporter,
    tally: &mut Tally,
) -> Result<bool, CsvJobError>
    requires { (end.now.status ≡ Completed) ⊎ (end.now.status ≡ Failed) }
    ensures goes { (f : Function) (text : List ℕ) (records : List Fields) (start : N) (begin : Option L) → is_own_of work.now.asked.now.task number ≡ true
        → IsSliceRead (job_of work.now f) R.remaining text records number reader.now rows.now is_last
        → IsSliceEnd (job_of work.now f) number (slice_of (job_of work.now f) records number) end.now
        → HaveRun (job_of work.now f) text records number tally.old.skips tally.old.is_failed (N.took start sink.old) (IfTook L.took begin list.old)
        → IfOk result (HasGoneOn (job_of work.now f) R.remaining text records number reader.now tally.new.skips tally.new.is_failed (N.took start sink.new) (IfTook L.took begin list.new)) }
    ensures kept { IfErr result (λ e. N.may_refuse e ⊎ (sink.new ≡ sink.old)) }
    ensures cause { IfErr result (IsRunErrorOver N.may_refuse L.may_refuse work.now.asked.now) }
{
    let items = rows.as_list();
    let lines = reader.lines();
    reporter.report(rt, work.job, work.asked.folder.as_str(), number, lines, end);
    list_slice(
        rt.host().alloc(),
        work.job,
        work.asked,
        list,
        number,
        items,
        lines,
        end,
    )?;
    let goes_on = settle(work, end, sink, tally)?;
    Ok(is_more(is_last, goes_on))
}

/// Runs one of the task's own slices, whose records were read, and ends it; and whether there is another one to be run.
fn own_slice<
    F: RowFunction + Drop + 'static,
    T: Threads + Wait + Clock + Eprint + Host + Copy + Send + Sync + 'static,
    H: Stored,
    K: Keeper,
    R: Read + Drop,
    N: Sink,
    L: Sink,
>(
    rt: &T,
    work: &Work,
    number: u64,
    function: &Arc<F, Global>,
    reader: &RowsReader<R>,
    rows: &Rows,
    is_last: bool,
    sink: &mut N,
    list: &mut Option<L>,
    keeper: &mut K,
    reporter: &mut Reporter,
    tally: &mut Tally,
) -> Result<bool, CsvJobError>
    ensures goes { IsTrue (K.are_clean keeper.new) → IfResumes (job_of work.now (F.answer (arc_value function.now))) H.log H.db (λ functions text records. (start : N) (begin : Option L)
        → IsOwnSlice (job_of work.now (F.answer (arc_value function.now))) records number rows.now
        → IsSliceRead (job_of work.now (F.answer (arc_value function.now))) R.remaining text records number reader.now rows.now is_last
        → HaveRun (job_of work.now (F.answer (arc_value function.now))) text records number tally.old.skips tally.old.is_failed (N.took start sink.old) (IfTook L.took begin list.old)
        → IfOk result (HasGoneOn (job_of work.now (F.answer (arc_value function.now))) R.remaining text records number reader.now tally.new.skips tally.new.is_failed (N.took start sink.new) (IfTook L.took begin list.new))) }
    ensures kept { IfErr result (λ e. N.may_refuse e ⊎ (sink.new ≡ sink.old)) }
    ensures cause { IfErr result (IsRunErrorOver N.may_refuse L.may_refuse work.now.asked.now) }
    ensures clean { IsTrue (K.are_clean keeper.new) → IsTrue (K.are_clean keeper.old) }
    ensures left { IsTrue (K.are_clean keeper.new) → IfResumes (job_of work.now (F.answer (arc_value function.now))) H.log H.db (λ functions text records.
        IsOwnSlice (job_of work.now (F.answer (arc_value function.now))) records number rows.now
        → LeavesJob (job_of work.now (F.answer (arc_value function.now))) functions (Some text) (K.may_leave keeper.old) (K.may_leave keeper.new)) }
    ensures crash { IsTrue (K.are_clean keeper.new) → LeavesAny (job_of work.now (F.answer (arc_value function.now))) H.log H.db (K.may_leave keeper.old) (K.may_leave keeper.new) }
{
    let end = kept_slice::<F, T, Brand, H, K>(
        rt,
        work,
        number,
        tally.results,
        reporter.meter(rt, work.asked.records, tally.records, is_last),
        function,
        rows,
        keeper,
    )?;
    end_slice(
        rt, work, number, reader, rows, is_last, &end, sink, list, reporter, tally,
    )
}

/// Reads the next slice, runs it where it is one of the task's own, and gives its results to the sink; and whether there is another one to be
/// run.
pub(crate) fn next_slice<
    F: RowFunction + Drop + 'static,
    T: Threads + Wait + Clock + Eprint + Host + Copy + Send + Sync + 'static,
    H: Stored,
    K: Keeper,
    R: Read + Measures + Drop,
    N: Sink,
    L: Sink,
>(
    rt: &T,
    work: &Work,
    number: u64,
    function: &Arc<F, Global>,
    reader: &mut RowsReader<R>,
    rows: &mut Rows,
    sink: &mut N,
    list: &mut Option<L>,
    keeper: &mut K,
    reporter: &mut Reporter,
    tally: &mut Tally,
) -> Result<bool, CsvJobError>
    // From where the job stands it goes on.
    ensures goes { IsTrue (K.are_clean keeper.new) → IfResumes (job_of work.now (F.answer (arc_value function.now))) H.log H.db (λ functions text records. (start : N) (begin : Option L)
        → Stands (job_of work.now (F.answer (arc_value function.now))) R.remaining text records number reader.old tally.old.skips tally.old.is_failed (N.took start sink.old) (IfTook L.took begin list.old)
        → IfOk result (HasGoneOn (job_of work.now (F.answer (arc_value function.now))) R.remaining text records number reader.new tally.new.skips tally.new.is_failed (N.took start sink.new) (IfTook L.took begin list.new))) }

    // After an error that isn't the sink's own it is as it was.
    ensures kept { IfErr result (λ e. N.may_refuse e ⊎ (sink.new ≡ sink.old)) }
    ensures cause { IfErr result (IsRunErrorOver N.may_refuse L.may_refuse work.now.asked.now) }
    ensures clean { IsTrue (K.are_clean keeper.new) → IsTrue (K.are_clean keeper.old) }

    // What a crash leaves of the slice's files.
    ensures left { IsTrue (K.are_clean keeper.new) → IfResumes (job_of work.now (F.answer (arc_value function.now))) H.log H.db (λ functions text records.
        StandsBefore (job_of work.now (F.answer (arc_value function.now))) R.remaining text records number reader.old
        → LeavesJob (job_of work.now (F.answer (arc_value function.now))) functions (Some text) (K.may_leave keeper.old) (K.may_leave keeper.new)) }
    ensures crash { IsTrue (K.are_clean keeper.new) → LeavesAny (job_of work.now (F.answer (arc_value function.now))) H.log H.db (K.may_leave keeper.old) (K.may_leave keeper.new) }
{
    let is_last = read_slice(rt.host().alloc(), work, reader, rows, &mut tally.records)?;
    if is_last {
        report_open_end(rt, reader.ends_open());
    }
    if !is_own(work.asked.task, number) {
        return Ok(is_more(is_last, true));
    }
    own_slice::<F, T, H, K, R, N, L>(
        rt, work, number, function, &*reader, &*rows, is_last, sink, list, keeper, reporter, tally,
    )
}
