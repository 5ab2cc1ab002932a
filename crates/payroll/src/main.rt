//! A payroll: time sheets in, pay slips out, each once, through any number of kills. docs/YOUR-JOB.md walks through it.
//!
//! `payroll [OPTIONS] FOLDER` reads time sheets, lines `NAME,HOURS,RATE`, on standard input, and writes pay slips, lines `NAME,PAY`, on
//! standard output. After a crash, call it again with the same sheets: it resumes from the last checkpoint in FOLDER.
//!
//! - `sheet`: a time sheet and its pay slip. `clerk`: what is done to a time sheet.
#![tactic(auto)]

ghost use Rattle.std.specs.Prelude.{◌≡◌, ◌⊎◌, ℕ, List, IfOk, IsTrue};
ghost use Rattle.sqlite_wal.specs.Recovery.{Image};
ghost use Rattle.jb_csv_job.specs.Skipped.{IfListed};
ghost use Rattle.jb_slices.specs.Slice.{Functions};
ghost use Rattle.payroll.specs.Payroll.{AreSkipped, AreSkipsListed, IsPaid, IsPaidSoFar, IsPayrollByRules, IsPayrollTakenUp, LeavesPayroll};

mod clerk;
mod sheet;

use clerk::{CLASSES, Clerk};
use jb_base::DEFAULT_RETRY_LIMIT;
use jb_csv_job::{
    Asked, CsvJob, CsvJobError, Host, JobEnd, Keeper, Output, Request, Stored, Watches, asked_of,
    close_list, exit_code, open_list, ready_folder, run_csv_job,
};
use jb_rows::RowsOptions;
use jb_stack::{AnyAnswer, limits_of, run_apart};
use std::io::{Read, Stdin, Write};
use std::marker::Brand;
use std::process::ExitCode;
use std::sync::Wait;
use std::thread::Threads;
use std::time::Clock;

/// What the job is called, and how it runs.
const JOB: CsvJob<'static> = CsvJob {
    name: "payroll",
    input: "SHEETS",
    records: "time sheets",
    results: "pay slips",
    options: RowsOptions::CSV,
    slice_length: 100_000,
    partitions: 8,
    item_count: 100,
    classes: CLASSES,
    skip_limit: None,
    job_skip_limit: None,
    retry_limit: DEFAULT_RETRY_LIMIT,
    stamp: "1",
};

/// Runs the payroll that the command line asks for: reads the time sheets slice by slice, runs each slice or takes it from its file, and writes
/// the pay slips. With a list it writes there which time sheets were skipped, or made a partition fail. Gives the end, with the exit status, and the
/// streams.
fn paid<
    T: Threads + Wait + Clock + Eprint + Host + Copy + Send + Sync + 'static,
    H: Stored,
    K: Keeper,
    R: Read + Drop,
    W: Write + Drop,
    S: Write + Drop,
>(
    rt: &T,
    asked: &Asked,
    from: R,
    to: W,
    list: Option<S>,
    keeper: &mut K,
) -> Result<(JobEnd, W, Option<S>), CsvJobError>
    // With status 0 the pay slips of all time sheets are written, whatever earlier calls left in the files.
    ensures all { IsTrue (K.are_clean keeper.new) → (functions : Functions) → IsPayrollTakenUp asked.now functions (R.remaining from) H.log H.db
        → IfOk result (λ r. r.0.status ≡ 0 → IsPaid asked.now (R.remaining from) (W.contents to) (W.contents r.1)) }

    // With any status those of the first slices.
    ensures so_far { IsTrue (K.are_clean keeper.new) → (functions : Functions) → IsPayrollTakenUp asked.now functions (R.remaining from) H.log H.db
        → IfOk result (λ r. IsPaidSoFar asked.now (R.remaining from) (W.contents to) (W.contents r.1)) }

    // It is 0 or 1, by the payroll's rules.
    ensures by_rules { IsTrue (K.are_clean keeper.new) → (functions : Functions) → IsPayrollTakenUp asked.now functions (R.remaining from) H.log H.db
        → IfOk result (λ r. IsPayrollByRules asked.now (R.remaining from) r.0.status) }
    ensures status { IfOk result (λ r. (r.0.status ≡ 0) ⊎ (r.0.status ≡ 1)) }

    // With status 0 it counts the time sheets without a pay slip.
    ensures skips { IsTrue (K.are_clean keeper.new) → (functions : Functions) → IsPayrollTakenUp asked.now functions (R.remaining from) H.log H.db
        → IfOk result (λ r. r.0.status ≡ 0 → AreSkipped asked.now (R.remaining from) r.0.skips) }

    // The list, if there is one, has a row for each time sheet that was skipped; and of FAILED slices for each by which a partition failed.
    ensures listed { IsTrue (K.are_clean keeper.new) → (functions : Functions) → IsPayrollTakenUp asked.now functions (R.remaining from) H.log H.db
        → IfOk result (λ r. IfListed list r.2 (λ old new. AreSkipsListed asked.now (R.remaining from) (S.contents old) (S.contents new) r.0.status r.0.skips)) }

    // Whatever a crash leaves of the files of a slice is a payroll so far.
    ensures left { IsTrue (K.are_clean keeper.new) → (functions : Functions) → IsPayrollTakenUp asked.now functions (R.remaining from) H.log H.db
        → (slice : ℕ) (items : List (List ℕ)) (image : Image) → K.may_leave keeper.new slice items image
        → K.may_leave keeper.old slice items image ⊎ LeavesPayroll asked.now functions (R.remaining from) slice image }
{
    run_csv_job::<Clerk, T, H, K, R, W, S>(rt, &JOB, asked, Clerk, from, to, list, keeper)
}

/// The payroll over the standard streams, or with the file that gets its pay slips.
fn answer<T: Threads + Wait + Clock + Eprint + Host + Copy + Send + Sync + 'static>(
    rt: &T,
    asked: &Asked,
) -> Result<JobEnd, CsvJobError> {
    let host = rt.host();
    ready_folder(host, asked)?;
    let to = Output::open(host, asked.output.as_deref())?;
    let list = open_list(host, asked)?;
    let (end, to, list) = paid::<T, Brand, Watches, Stdin, Output, Output>(
        rt,
        asked,
        host.stdin(),
        to,
        list,
        &mut Watches::new(),
    )?;
    close_list(host, list)?;
    to.close(host, end.status == 0)?;
    Ok(end)
}

/// The exit status of what the command line asks for.
fn status_of<T: Threads + Wait + Clock + Eprint + Host + Copy + Send + Sync + 'static>(
    rt: &T,
) -> ExitCode {
    match asked_of(rt, &JOB, None) {
        Ok(Request::Job(asked)) => {
            let answer = answer(rt, &asked);
            exit_code(rt, &JOB, asked.folder.as_str(), answer)
        }
        Ok(Request::Said) => ExitCode::SUCCESS,
        Err(failure) => exit_code(rt, &JOB, "", Err(failure)),
    }
}

fn main(rt: HostRuntime) -> ExitCode {
    let work = move || status_of(&rt);
    match run_apart(&rt, &limits_of(&rt), AnyAnswer, work) {
        Some(status) => status,
        None => exit_code(&rt, &JOB, "", Err(CsvJobError::Memory)),
    }
}
