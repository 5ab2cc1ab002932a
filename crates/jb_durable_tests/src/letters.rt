//! A job over letters in three slices, each over files of its own, and what a process run says of it.

ghost use Rattle.std.specs.Prelude.{◌≤◌};
ghost use Rattle.std.specs.Option.{ForSome};
ghost use Rattle.jb_base.specs.Limits.{max_retry_limit, max_skip_limit};
ghost use Rattle.jb_rows.specs.Author.{field_at};
ghost use Rattle.jb_durable_tests.specs.Letters.{letter_by};

use crate::files::{crashed, failing, new_files};
use crate::process_runs::{ProcessRun, resume_and_run};
use jb_base::{ClassId, Name, PackedList};
use jb_rows::{Outcome, Row, RowBuilder, RowFunction, Rows};
use jb_slice_run::{
    Progress, ProgressListener, Rounds, SliceEnd, SliceError, SliceJob, SliceLimits, run_slice,
};
use sqlite::{Alter, Connection, Files};
use sqlite_disk::{Crash, Disk, Fuse, Memory};
use std::alloc::{AllocError, Global};
use std::sync::{Arc, Wait};
use std::thread::Threads;

/// How many records a slice has, but for the last one.
const SLICE_LENGTH: usize = 3;

/// A record without a field is refused, and the result of another is its first field.
#[derive(Drop)]
struct Letters {
    refused: ClassId,
}

impl RowFunction for Letters {
    ghost answer = { λ f fields. letter_by f.refused (field_at fields 0) };

    fn process(&self, row: &Row, built: &mut RowBuilder) -> Result<Outcome, AllocError> {
        match row.get(0) {
            Some(field) => {
                built.push(field)?;
                Ok(Outcome::Given)
            }
            None => Ok(Outcome::Refused(self.refused)),
        }
    }
}

/// What a process run is to do.
#[derive(Clone, Copy)]
pub(crate) struct Call {
    /// A letter for each record. A `-` is a record without a field.
    pub records: &'static str,
    /// So many are skipped in a partition, and in the job.
    pub skips: u8,
    pub job_skips: u8,
    /// It goes on at so many reports of checkpoints, and stops at the next one.
    pub reports: u32,
}

/// The files of the three slices.
#[derive(Drop)]
pub(crate) struct JobFiles<D: Disk> {
    first: Files<D>,
    second: Files<D>,
    third: Files<D>,
}

/// Files that are new.
pub(crate) fn new_job_files(alloc: Global) -> JobFiles<Memory> {
    JobFiles {
        first: new_files(alloc),
        second: new_files(alloc),
        third: new_files(alloc),
    }
}

/// These calls, or more than a process makes.
fn calls_of(is_failing: bool, calls: [u64; 2]) -> [u64; 2] {
    if is_failing { calls } else { [u64::MAX; 2] }
}

/// The same files. Those of this slice fail after some calls: the log after the first number of calls, the file after the second. A crash ends
/// that.
pub(crate) fn failing_job(
    files: JobFiles<Memory>,
    slice: u32,
    calls: [u64; 2],
) -> JobFiles<Fuse<Memory>> {
    let JobFiles {
        first,
        second,
        third,
    } = files;
    JobFiles {
        first: failing(first, calls_of(slice == 0, calls)),
        second: failing(second, calls_of(slice == 1, calls)),
        third: failing(third, calls_of(slice == 2, calls)),
    }
}

/// Goes on at so many reports, and stops at the next one.
#[derive(Drop)]
struct Stops<'a> {
    left: &'a mut u32,
}

impl<'a> ProgressListener for Stops<'a> {
    fn on_progress(&mut self, _progress: Progress) -> bool {
        if *self.left == 0 {
            return false;
        }
        *self.left -= 1;
        true
    }
}

/// A process run of the job, which goes through the slices in order.
#[derive(Drop)]
struct JobRun {
    call: Call,
    /// The number of the next slice.
    number: usize,
    /// How many reports are left.
    reports: u32,
    /// How many records of whole slices were skipped.
    skipped: usize,
    /// No later slice is run.
    has_ended: bool,
    said: String,
}

impl ProcessRun for JobRun {
    fn live<R: Threads + Wait + Sync, S: Alter>(
        &mut self,
        rt: &R,
        alloc: Global,
        conn: &mut Connection<S>,
    ) -> Result<String, AllocError> {
        match run(rt, alloc, conn, self) {
            Ok(end) => {
                self.count(&end);
                text_of(alloc, &end, self.has_ended)
            }
            Err(error) => format!(in alloc; "{error:?}"),
        }
    }
}

impl JobRun {
    /// Whether the records have a next slice, and it is run.
    fn has_next(&self) -> bool {
        !self.has_ended && self.number <= self.call.records.len() / SLICE_LENGTH
    }

    /// Counts a slice that ended. The job ends there if more records of whole slices were skipped than its limit.
    fn count(&mut self, end: &SliceEnd) {
        if end.failures.is_empty() {
            self.skipped = self.skipped.saturating_add(end.skips.len());
        }
        self.has_ended = self.skipped > self.call.job_skips as usize;
    }

    /// Adds what was said of a slice, and a bar. The next slice is the one after it.
    fn add(&mut self, said: Result<String, AllocError>) -> Result<(), AllocError> {
        self.number = self.number.saturating_add(1);
        self.said.push_str(said?.as_str())?;
        self.said.push_str("|")
    }
}

/// The records of a slice.
fn items_of(alloc: Global, records: &str, number: usize) -> Result<PackedList, AllocError> {
    let mut items = Rows::new(alloc);
    let mut record = RowBuilder::new(alloc);
    for (index, letter) in records.as_bytes().iter().enumerate() {
        if index / SLICE_LENGTH == number {
            record.clear();
            if *letter != b'-' {
                record.push(&[*letter])?;
            }
            items.push(&record)?;
        }
    }
    Ok(items.into_list())
}

/// The limits of the job.
fn limits_of(call: Call) -> SliceLimits
    ensures skips { ForSome result.skips (λ limit. limit ≤ max_skip_limit) }
    ensures retries { result.retries ≤ max_retry_limit }
{
    SliceLimits {
        skips: Some(call.skips as u64),
        job_skips: Some(call.job_skips as u64),
        retries: 7,
    }
}

/// The job with this name. A chunk has one record.
fn job_of<'a>(name: &'a Name, call: Call) -> SliceJob<'a> {
    SliceJob {
        name,
        slice_length: SLICE_LENGTH as u64,
        partitions: 2,
        item_count: 1,
        classes: &["no letter"],
        skippable: 1,
        retryable: 0,
        no_rollback: 0,
        limits: limits_of(call),
        stamp: "1",
        stamps: &[],
        threads: 2,
    }
}

/// It has no clauses, so that the proof of a process run doesn't carry those of the call.
fn run<R: Threads + Wait + Sync, S: Alter>(
    rt: &R,
    alloc: Global,
    conn: &mut Connection<S>,
    job_run: &mut JobRun,
) -> Result<SliceEnd, SliceError> {
    let call = job_run.call;
    let number = job_run.number;
    let items = items_of(alloc, call.records, number)?;
    let name = Name::new(String::from_str(alloc, "letters")?);
    let function = Arc::new(
        alloc,
        Letters {
            refused: ClassId::new(0),
        },
    )?;
    let listener = Stops {
        left: &mut job_run.reports,
    };
    run_slice(
        rt,
        alloc,
        conn,
        &job_of(&name, call),
        number as u64,
        &function,
        &items,
        Rounds(1),
        listener,
    )
}

/// Adds the results of all partitions.
fn add_results(text: &mut String, alloc: Global, end: &SliceEnd) -> Result<(), AllocError> {
    let all = end.all_results(alloc)?;
    for index in 0..all.len() {
        let result = Row::of(all.at(index));
        let letter = result.get(0).unwrap_or(b"");
        text.push_str(String::from_utf8_lossy(alloc, letter)?.as_str())?;
    }
    Ok(())
}

/// The status, the results, -NUMBER for each record that was skipped, and PARTITION:NUMBER for each partition that failed. At the end `over` if
/// the job's limit was passed.
fn text_of(alloc: Global, end: &SliceEnd, is_over: bool) -> Result<String, AllocError> {
    let mut text = format!(in alloc; "{:?} ", end.status)?;
    add_results(&mut text, alloc, end)?;
    for skip in &end.skips {
        text.push_str(&format!(in alloc; " -{}", skip.number)?)?;
    }
    for failure in &end.failures {
        text.push_str(&format!(in alloc; " {}:{}", failure.partition, failure.fault.number)?)?;
    }
    if is_over {
        text.push_str(" over")?;
    }
    Ok(text)
}

/// The next slice over its files, if it is run. The run ends if the slice has no end.
fn run_next<R: Threads + Wait + Sync, D: Crash + Drop>(
    rt: &R,
    alloc: Global,
    files: Files<D>,
    job_run: &mut JobRun,
) -> Files<D> {
    if !job_run.has_next() {
        return crashed(files);
    }
    job_run.has_ended = true;
    let (files, said) = resume_and_run(rt, alloc, files, job_run);
    if job_run.add(said).is_err() {
        job_run.has_ended = true;
    }
    crashed(files)
}

/// A process run of the job over the files of its slices, after which the machine stops. It goes from slice to slice until one has no end, or more
/// records were skipped than the job's limit. It says what came of each slice.
pub(crate) fn run_job<R: Threads + Wait + Sync, D: Crash + Drop>(
    rt: &R,
    alloc: Global,
    files: JobFiles<D>,
    call: Call,
) -> (JobFiles<D>, String) {
    let JobFiles {
        first,
        second,
        third,
    } = files;
    let mut job_run = JobRun {
        call,
        number: 0,
        reports: call.reports,
        skipped: 0,
        has_ended: false,
        said: String::new(alloc),
    };
    let files = JobFiles {
        first: run_next(rt, alloc, first, &mut job_run),
        second: run_next(rt, alloc, second, &mut job_run),
        third: run_next(rt, alloc, third, &mut job_run),
    };
    (files, job_run.said)
}
