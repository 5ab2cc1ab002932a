//! A job over CSV, slice after slice.

ghost use Rattle.std.specs.Prelude.{◌≡◌, ◌⊎◌, ℕ, Some, List, IfErr, IfOk, IsTrue, MatchResult};
ghost use Rattle.std.specs.Arc.{arc_value};
ghost use Rattle.std.specs.Io.KnownBytes.{Keeps};
ghost use Rattle.sqlite_wal.specs.Recovery.{Image};
ghost use Rattle.jb_slices.specs.Slice.{Functions};
ghost use Rattle.jb_csv_job.specs.Causes.{IsRunError, IsRunErrorOver};
ghost use Rattle.jb_csv_job.specs.Done.{HasSkipped, HasTakenAll, HasTakenSoFar, IsByRules, IsDoneSoFar, IsJobDone};
ghost use Rattle.jb_csv_job.specs.Job.{job_record};
ghost use Rattle.jb_csv_job.specs.SliceFiles.{CanResumeJob, LeavesJob, LeavesSlice};
ghost use Rattle.jb_csv_job.specs.Loop.{IfJobResumes, LeavesAny, job_of};
ghost use Rattle.jb_csv_job.specs.Sinks.{lines_written};
ghost use Rattle.jb_csv_job.specs.Skipped.{HasListed, IfListed, IsListWritten};

use crate::asked::Asked;
use crate::failure::CsvJobError;
use crate::host::Host;
use crate::job::CsvJob;
use crate::keeper::Keeper;
use crate::measured::{Measured, Measures};
use crate::next::next_slice;
use crate::report::Reporter;
use crate::sink::{CsvSink, Sink};
use crate::skipped::{begin_list, end_list};
use crate::stored::Stored;
use crate::tally::Tally;
use crate::work::{Work, name_of, names_of, texts_of, work_of};
use jb_rows::{RowFunction, Rows, RowsReader};
use std::alloc::Global;
use std::io::{Read, Write};
use std::sync::{Arc, Wait};
use std::thread::Threads;
use std::time::Clock;

/// How a job ended.
#[derive(Clone, Copy, Debug, PartialEq, Eq)]
pub struct JobEnd {
    /// The exit status: 0 for COMPLETED, 1 for FAILED.
    pub status: u8,
    /// How many slices ended, of the task's own.
    pub slices: u64,
    /// How many records were read.
    pub records: u64,
    /// How many records of whole slices were skipped.
    pub skips: u64,
    /// How many slices failed. FAILED with none: more records were skipped than the job's limit.
    pub failed: u64,
}

/// Slice after slice, from the first one on.
fn all_slices<
    F: RowFunction + Drop + 'static,
    T: Threads + Wait + Clock + Eprint + Host + Copy + Send + Sync + 'static,
    H: Stored,
    K: Keeper,
    R: Read + Measures + Drop,
    N: Sink,
    L: Sink,
>(
    rt: &T,
    work: &Work,
    function: &Arc<F, Global>,
    reader: &mut RowsReader<R>,
    sink: &mut N,
    list: &mut Option<L>,
    keeper: &mut K,
) -> Result<JobEnd, CsvJobError>
    ensures all { IsTrue (K.are_clean keeper.new) → IfJobResumes (job_of work.now (F.answer (arc_value function.now))) R.remaining reader.old H.log H.db (λ functions text.
        IfOk result (λ end. end.status ≡ 0 → HasTakenAll (job_of work.now (F.answer (arc_value function.now))) (Some text) (N.took sink.old sink.new))) }
    ensures so_far { IsTrue (K.are_clean keeper.new) → IfJobResumes (job_of work.now (F.answer (arc_value function.now))) R.remaining reader.old H.log H.db (λ functions text.
        MatchResult result (λ end. HasTakenSoFar (job_of work.now (F.answer (arc_value function.now))) (Some text) (N.took sink.old sink.new))
        (λ e. N.may_refuse e ⊎ HasTakenSoFar (job_of work.now (F.answer (arc_value function.now))) (Some text) (N.took sink.old sink.new))) }
    ensures by_rules { IsTrue (K.are_clean keeper.new) → IfJobResumes (job_of work.now (F.answer (arc_value function.now))) R.remaining reader.old H.log H.db (λ functions text.
        IfOk result (λ end. IsByRules (job_of work.now (F.answer (arc_value function.now))) (Some text) end.status)) }
    ensures skips { IsTrue (K.are_clean keeper.new) → IfJobResumes (job_of work.now (F.answer (arc_value function.now))) R.remaining reader.old H.log H.db (λ functions text.
        IfOk result (λ end. end.status ≡ 0 → HasSkipped (job_of work.now (F.answer (arc_value function.now))) (Some text) end.skips)) }
    ensures listed { IsTrue (K.are_clean keeper.new) → IfJobResumes (job_of work.now (F.answer (arc_value function.now))) R.remaining reader.old H.log H.db (λ functions text.
        IfOk result (λ end. IfListed list.old list.new (λ old new. HasListed (job_of work.now (F.answer (arc_value function.now))) (Some text) (L.took old new) end.status end.skips))) }
    ensures status { IfOk result (λ end. (end.status ≡ 0) ⊎ (end.status ≡ 1)) }
    ensures cause { IfErr result (IsRunErrorOver N.may_refuse L.may_refuse work.now.asked.now) }
    ensures clean { IsTrue (K.are_clean keeper.new) → IsTrue (K.are_clean keeper.old) }
    ensures left { IsTrue (K.are_clean keeper.new) → IfJobResumes (job_of work.now (F.answer (arc_value function.now))) R.remaining reader.old H.log H.db (λ functions text.
        LeavesJob (job_of work.now (F.answer (arc_value function.now))) functions (Some text) (K.may_leave keeper.old) (K.may_leave keeper.new)) }
    ensures crash { IsTrue (K.are_clean keeper.new) → LeavesAny (job_of work.now (F.answer (arc_value function.now))) H.log H.db (K.may_leave keeper.old) (K.may_leave keeper.new) }
{
    let mut rows = Rows::new(rt.host().alloc());
    let mut reporter = Reporter::new(rt);
    let mut tally = Tally::new();
    for number in 0..u64::MAX {
        let more = match next_slice::<F, T, H, K, R, N, L>(
            rt,
            work,
            number,
            function,
            reader,
            &mut rows,
            sink,
            list,
            keeper,
            &mut reporter,
            &mut tally,
        ) {
            Ok(more) => more,
            Err(failure) => return Err(failure),
        };
        if !more {
            reporter.finish(rt, work.job);
            return Ok(tally.end());
        }
    }
    Err(CsvJobError::TooMany)
}

/// Reads the records, slice by slice. It runs each slice over its file from its last checkpoint on, or collects it. It lists what the slice
/// skipped, if there is a list, and gives its results to the sink before the next slice is read. It has one slice in memory, however many there
/// are. Where a slice fails, later ones still run, but no result more is given to the sink, and the job ends FAILED. After each slice it ends
/// FAILED too if more records were skipped than the job's limit. Where there is no answer, what the files hold stays.
///
/// # Errors
/// - `File` and `Slice`, of a slice's file and of its run. `NotWhole`, where a slice is to be collected.
/// - `Rows`, of the records. `Records`, `NoRecords`, `OtherLength`, `OtherDigest`, `NoLineEnd`: the input isn't the one that is asked for.
/// - `TooMany`, `Memory`, and those of the sink and of the list.
pub fn run_slices<
    F: RowFunction + Drop + 'static,
    T: Threads + Wait + Clock + Eprint + Host + Copy + Send + Sync + 'static,
    H: Stored,
    K: Keeper,
    R: Read + Measures + Drop,
    N: Sink,
    L: Sink,
>(
    rt: &T,
    job: &CsvJob,
    asked: &Asked,
    function: F,
    reader: &mut RowsReader<R>,
    sink: &mut N,
    list: &mut Option<L>,
    keeper: &mut K,
) -> Result<JobEnd, CsvJobError>
    // With status 0 the sink took the results of all records, whatever earlier runs the files are of.
    ensures all { IsTrue (K.are_clean keeper.new) → IfJobResumes (job_record job.now asked.now (F.answer function)) R.remaining reader.old H.log H.db (λ functions text.
        IfOk result (λ end. end.status ≡ 0 → HasTakenAll (job_record job.now asked.now (F.answer function)) (Some text) (N.took sink.old sink.new))) }

    // With any answer but the sink's own failure it took those of the first slices.
    ensures so_far { IsTrue (K.are_clean keeper.new) → IfJobResumes (job_record job.now asked.now (F.answer function)) R.remaining reader.old H.log H.db (λ functions text.
        MatchResult result (λ end. HasTakenSoFar (job_record job.now asked.now (F.answer function)) (Some text) (N.took sink.old sink.new))
        (λ e. N.may_refuse e ⊎ HasTakenSoFar (job_record job.now asked.now (F.answer function)) (Some text) (N.took sink.old sink.new))) }

    // The status is by the job's rules, whatever was stored and however many runs it took.
    ensures by_rules { IsTrue (K.are_clean keeper.new) → IfJobResumes (job_record job.now asked.now (F.answer function)) R.remaining reader.old H.log H.db (λ functions text.
        IfOk result (λ end. IsByRules (job_record job.now asked.now (F.answer function)) (Some text) end.status)) }

    // With status 0 it counts the records that have a fault.
    ensures skips { IsTrue (K.are_clean keeper.new) → IfJobResumes (job_record job.now asked.now (F.answer function)) R.remaining reader.old H.log H.db (λ functions text.
        IfOk result (λ end. end.status ≡ 0 → HasSkipped (job_record job.now asked.now (F.answer function)) (Some text) end.skips)) }

    // The list, if there is one, took a row for each record that was skipped; and of FAILED slices those by which partitions failed.
    ensures listed { IsTrue (K.are_clean keeper.new) → IfJobResumes (job_record job.now asked.now (F.answer function)) R.remaining reader.old H.log H.db (λ functions text.
        IfOk result (λ end. IfListed list.old list.new (λ old new. HasListed (job_record job.now asked.now (F.answer function)) (Some text) (L.took old new) end.status end.skips))) }

    // It is 0 or 1.
    ensures status { IfOk result (λ end. (end.status ≡ 0) ⊎ (end.status ≡ 1)) }

    // Why there is no answer: by what is asked, or by a failure of the sink's or the list's own.
    ensures cause { IfErr result (IsRunErrorOver N.may_refuse L.may_refuse asked.now) }

    // Disks that are clean after the call were so before it.
    ensures clean { IsTrue (K.are_clean keeper.new) → IsTrue (K.are_clean keeper.old) }

    // Whatever a crash leaves of a slice's files holds that slice of the text so far again.
    ensures left { IsTrue (K.are_clean keeper.new) → IfJobResumes (job_record job.now asked.now (F.answer function)) R.remaining reader.old H.log H.db (λ functions text.
        LeavesJob (job_record job.now asked.now (F.answer function)) functions (Some text) (K.may_leave keeper.old) (K.may_leave keeper.new)) }

    // And where the bytes of the stream aren't known, the slice so far of the items that were read.
    ensures crash { IsTrue (K.are_clean keeper.new) → LeavesAny (job_record job.now asked.now (F.answer function)) H.log H.db (K.may_leave keeper.old) (K.may_leave keeper.new) }
{
    let alloc = rt.host().alloc();
    let name = name_of(alloc, job)?;
    let classes = names_of(alloc, &*job.classes)?;
    let stamps = texts_of(alloc, asked.stamps.as_slice())?;
    let function = Arc::new(alloc, function)?;
    let work = work_of(&name, classes.as_slice(), stamps.as_slice(), &*job, &*asked);
    all_slices::<F, T, H, K, R, N, L>(rt, &work, &function, reader, sink, list, keeper)
}

/// The streams, after all that was written.
fn finished<W: Write + Drop, S: Write + Drop>(
    alloc: Global,
    asked: &Asked,
    sink: CsvSink<W>,
    list: Option<CsvSink<S>>,
) -> Result<(W, Option<S>), CsvJobError>
    ensures results { IfOk result (λ r. Keeps (lines_written W.contents sink) (W.contents r.0)) }
    ensures list { IfOk result (λ r. IfListed list r.1 (λ old new. Keeps (lines_written S.contents old) (S.contents new))) }
    ensures cause { IfErr result (IsRunError asked.now) }
{
    let to = sink.finish()?;
    let listed = end_list(alloc, asked, list)?;
    Ok((to, listed))
}

/// `run_slices` with the records of a stream, and writes the results to another one, each a line, after the header row if it is copied. A part
/// writes nothing. With a third stream it lists there the records that were skipped, and those by which partitions failed. Gives back the streams
/// that were written to.
///
/// # Errors
/// Those of `run_slices`; `Rows`, of the records or of the results; and `Output`, of the list.
pub fn run_csv_job<
    F: RowFunction + Drop + 'static,
    T: Threads + Wait + Clock + Eprint + Host + Copy + Send + Sync + 'static,
    H: Stored,
    K: Keeper,
    R: Read + Drop,
    W: Write + Drop,
    S: Write + Drop,
>(
    rt: &T,
    job: &CsvJob,
    asked: &Asked,
    function: F,
    from: R,
    to: W,
    list: Option<S>,
    keeper: &mut K,
) -> Result<(JobEnd, W, Option<S>), CsvJobError>
    // With status 0 what was written are the results of all records, whatever earlier runs the files are of.
    ensures all { IsTrue (K.are_clean keeper.new) → (functions : Functions) → CanResumeJob (job_record job.now asked.now (F.answer function)) functions (R.remaining from) H.log H.db
        → IfOk result (λ r. r.0.status ≡ 0 → IsJobDone (job_record job.now asked.now (F.answer function)) (R.remaining from) (W.contents to) (W.contents r.1)) }

    // With any status those of the first slices.
    ensures so_far { IsTrue (K.are_clean keeper.new) → (functions : Functions) → CanResumeJob (job_record job.now asked.now (F.answer function)) functions (R.remaining from) H.log H.db
        → IfOk result (λ r. IsDoneSoFar (job_record job.now asked.now (F.answer function)) (R.remaining from) (W.contents to) (W.contents r.1)) }

    // The status is by the job's rules, whatever was stored and however many runs it took.
    ensures by_rules { IsTrue (K.are_clean keeper.new) → (functions : Functions) → CanResumeJob (job_record job.now asked.now (F.answer function)) functions (R.remaining from) H.log H.db
        → IfOk result (λ r. IsByRules (job_record job.now asked.now (F.answer function)) (R.remaining from) r.0.status) }

    // With status 0 it counts the records that have a fault.
    ensures skips { IsTrue (K.are_clean keeper.new) → (functions : Functions) → CanResumeJob (job_record job.now asked.now (F.answer function)) functions (R.remaining from) H.log H.db
        → IfOk result (λ r. r.0.status ≡ 0 → HasSkipped (job_record job.now asked.now (F.answer function)) (R.remaining from) r.0.skips) }

    // The list, if there is one, has a row for each record that was skipped; and of FAILED slices for each by which a partition failed.
    ensures listed { IsTrue (K.are_clean keeper.new) → (functions : Functions) → CanResumeJob (job_record job.now asked.now (F.answer function)) functions (R.remaining from) H.log H.db
        → IfOk result (λ r. IfListed list r.2 (λ old new. IsListWritten (job_record job.now asked.now (F.answer function)) (R.remaining from) (S.contents old) (S.contents new) r.0.status r.0.skips)) }

    // It is 0 or 1.
    ensures status { IfOk result (λ r. (r.0.status ≡ 0) ⊎ (r.0.status ≡ 1)) }

    // Why there is no answer, by what is asked.
    ensures cause { IfErr result (IsRunError asked.now) }

    // Disks that are clean after the call were so before it.
    ensures clean { IsTrue (K.are_clean keeper.new) → IsTrue (K.are_clean keeper.old) }

    // Whatever a crash leaves of a slice's files holds that slice of the text so far again.
    ensures left { IsTrue (K.are_clean keeper.new) → (functions : Functions) → CanResumeJob (job_record job.now asked.now (F.answer function)) functions (R.remaining from) H.log H.db
        → (k : ℕ) (items : List (List ℕ)) (image : Image) → K.may_leave keeper.new k items image
        → K.may_leave keeper.old k items image ⊎ LeavesSlice (job_record job.now asked.now (F.answer function)) functions (R.remaining from) k image }

    // And where the bytes of the stream aren't known, the slice so far of the items that were read.
    ensures crash { IsTrue (K.are_clean keeper.new) → LeavesAny (job_record job.now asked.now (F.answer function)) H.log H.db (K.may_leave keeper.old) (K.may_leave keeper.new) }
{
    let alloc = rt.host().alloc();
    let mut reader = RowsReader::new(alloc, &job.options, asked.measured(from))?;
    let mut sink = CsvSink::new(alloc, &job.options, to);
    sink.write_header(asked.task, &job.options, &reader)?;
    let mut listing = begin_list(alloc, job, asked, &reader, list)?;
    let end = run_slices::<F, T, H, K, Measured<R>, CsvSink<W>, CsvSink<S>>(
        rt,
        job,
        asked,
        function,
        &mut reader,
        &mut sink,
        &mut listing,
        keeper,
    )?;
    let (to, listed) = finished(alloc, asked, sink, listing)?;
    Ok((end, to, listed))
}
