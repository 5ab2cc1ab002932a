//! A job of three slices over several process runs, each of which ends in a crash.

use crate::letters::{Call, JobFiles, failing_job, new_job_files, run_job};
use sqlite_disk::Memory;
use std::alloc::Global;
use std::process::Abort;
use std::sync::Wait;
use std::test::*;
use std::thread::Threads;

/// More reports than a process run has.
const ALL: u32 = 100;

/// More calls of one file than one process run makes.
const MOST_CALLS: u64 = 400;

/// The slices `a-c`, `def` and `g`, in one process run. It skips as many records as it may.
const JOB: Call = Call {
    records: "a-cdefg",
    skips: 1,
    job_skips: 1,
    reports: ALL,
};

/// What it says.
const WHOLE: &str = "Completed ac -1|Completed def|Completed g|";

/// The files after a process run that stopped at so many reports: at two slice 0 is whole, slice 1 has begun, and slice 2 hasn't.
fn files_after<R: Threads + Wait + Sync>(rt: &R, alloc: Global, reports: u32) -> JobFiles<Memory> {
    let (files, _) = run_job(rt, alloc, new_job_files(alloc), Call { reports, ..JOB });
    files
}

/// A process run of the job that ends in a crash once a slice's files fail, and one more. True if the first one had an end.
fn is_whole_at_once<R: Threads + Wait + Sync + Abort>(
    rt: &R,
    alloc: Global,
    is_new: bool,
    slice: u32,
    calls: [u64; 2],
) -> bool {
    let files = if is_new {
        new_job_files(alloc)
    } else {
        files_after(rt, alloc, 2)
    };
    let (files, first) = run_job(rt, alloc, failing_job(files, slice, calls), JOB);
    let (_, next) = run_job(rt, alloc, files, JOB);
    assert_eq!(rt; next.as_str(), WHOLE, "{is_new} {slice} {calls:?}");
    first.as_str() == WHOLE
}

/// The log of a slice, or its file, takes each number of calls in turn before it fails, until a process run has enough.
fn assert_each_call<R: Threads + Wait + Sync + Abort>(
    rt: &R,
    alloc: Global,
    is_new: bool,
    slice: u32,
    is_log: bool,
) -> Result<(), Fail> {
    for calls in 0..MOST_CALLS {
        let calls = if is_log {
            [calls, u64::MAX]
        } else {
            [u64::MAX, calls]
        };
        if is_whole_at_once(rt, alloc, is_new, slice, calls) {
            return Ok(());
        }
    }
    Err(Fail::from("a process run makes more calls"))
}

/// The same of each slice.
fn assert_each_slice<R: Threads + Wait + Sync + Abort>(
    rt: &R,
    alloc: Global,
    is_new: bool,
) -> Result<(), Fail> {
    for slice in 0..3 {
        for is_log in [true, false] {
            assert_each_call(rt, alloc, is_new, slice, is_log)?;
        }
    }
    Ok(())
}

/// The machine stops at each call of the disk, from the open of the first slice on. The next process run gives the results of one run.
#[test]
fn a_crash_at_each_call_of_three_slices(rt: HostRuntime) -> Result<(), Fail> {
    assert_each_slice(&rt, rt.alloc(), true)
}

/// So it does if slice 0 was whole by then, and slice 1 had begun.
#[test]
fn a_crash_at_each_call_of_a_resumed_job(rt: HostRuntime) -> Result<(), Fail> {
    assert_each_slice(&rt, rt.alloc(), false)
}

/// A call with other limits than the one before, and what it says once it isn't stopped any more.
struct LimitsRow {
    /// Its files are new. If not, they are those of the call before.
    is_new: bool,
    skips: u8,
    job_skips: u8,
    says: &'static str,
}

const LIMITS: [LimitsRow; 7] = [
    LimitsRow {
        is_new: true,
        skips: 1,
        job_skips: 2,
        says: "Failed c -0 0:1|Completed df -4|Completed g|",
    },
    LimitsRow {
        is_new: false,
        skips: 0,
        job_skips: 2,
        says: "LoweredLimit|",
    },
    LimitsRow {
        is_new: false,
        skips: 2,
        job_skips: 3,
        says: "Completed c -0 -1|Completed df -4|Completed g|",
    },
    LimitsRow {
        is_new: true,
        skips: 2,
        job_skips: 2,
        says: "Completed c -0 -1|Completed df -4 over|",
    },
    LimitsRow {
        is_new: false,
        skips: 2,
        job_skips: 1,
        says: "LoweredLimit|",
    },
    LimitsRow {
        is_new: false,
        skips: 2,
        job_skips: 3,
        says: "Completed c -0 -1|Completed df -4|Completed g|",
    },
    LimitsRow {
        is_new: false,
        skips: 1,
        job_skips: 3,
        says: "LoweredLimit|",
    },
];

/// Process runs, each of which goes on for one report more than the one before, until one isn't stopped. It says this.
fn assert_stopped_runs<R: Threads + Wait + Sync + Abort>(
    rt: &R,
    alloc: Global,
    files: JobFiles<Memory>,
    limits: &LimitsRow,
) -> Result<JobFiles<Memory>, Fail> {
    let mut files = files;
    for reports in 0..ALL {
        let call = Call {
            records: "--cd-fg",
            skips: limits.skips,
            job_skips: limits.job_skips,
            reports,
        };
        let (left, said) = run_job(rt, alloc, files, call);
        if !said.as_str().ends_with("Stopped|") {
            assert_eq!(rt; said.as_str(), limits.says);
            return Ok(left);
        }
        files = left;
    }
    Err(Fail::from("a job has more reports"))
}

/// A slice's limit and the job's are reached though each process run stores a checkpoint or two. A raised limit lets the job pass, and a lowered one
/// is refused.
#[test]
fn limits_over_process_runs(rt: HostRuntime) -> Result<(), Fail> {
    let alloc = rt.alloc();
    let mut files = new_job_files(alloc);
    for limits in &LIMITS {
        if limits.is_new {
            files = new_job_files(alloc);
        }
        files = assert_stopped_runs(&rt, alloc, files, limits)?;
    }
    Ok(())
}

/// Records in place of those with which the job began.
struct ChangeRow {
    /// The first process run stops at so many reports.
    reports: u32,
    records: &'static str,
    is_refused: bool,
    says: &'static str,
}

const CHANGES: [ChangeRow; 10] = [
    // Slice 0 is whole, slice 1 has begun, and slice 2 hasn't.
    ChangeRow {
        reports: 2,
        records: "a-Cdefg",
        is_refused: true,
        says: "OtherItems|",
    },
    ChangeRow {
        reports: 2,
        records: "a-cdeFg",
        is_refused: true,
        says: "Completed ac -1|OtherItems|",
    },
    ChangeRow {
        reports: 2,
        records: "a-cdefG",
        is_refused: false,
        says: "Completed ac -1|Completed def|Completed G|",
    },
    ChangeRow {
        reports: 2,
        records: "a-cdefgh",
        is_refused: false,
        says: "Completed ac -1|Completed def|Completed gh|",
    },
    ChangeRow {
        reports: 2,
        records: "a-cdef",
        is_refused: false,
        says: "Completed ac -1|Completed def|Completed |",
    },
    ChangeRow {
        reports: 2,
        records: "a-cde",
        is_refused: true,
        says: "Completed ac -1|OtherItems|",
    },
    ChangeRow {
        reports: 2,
        records: "a-c",
        is_refused: true,
        says: "Completed ac -1|OtherItems|",
    },
    ChangeRow {
        reports: 2,
        records: "a-",
        is_refused: true,
        says: "OtherItems|",
    },
    // All slices are whole.
    ChangeRow {
        reports: ALL,
        records: "a-cdefgh",
        is_refused: true,
        says: "Completed ac -1|Completed def|OtherItems|",
    },
    ChangeRow {
        reports: ALL,
        records: "a-cdef",
        is_refused: true,
        says: "Completed ac -1|Completed def|OtherItems|",
    },
];

/// After a process run over the first records, one over the changed ones says this. If it is refused, the next one over the first records gives
/// their results. If not, the next one over the changed records says the same.
fn assert_change<R: Threads + Wait + Sync + Abort>(rt: &R, alloc: Global, change: &ChangeRow) {
    let call = Call {
        records: change.records,
        ..JOB
    };
    let files = files_after(rt, alloc, change.reports);
    let (files, said) = run_job(rt, alloc, files, call);
    assert_eq!(rt; said.as_str(), change.says, "{}", change.records);
    let (last, says) = if change.is_refused {
        (JOB, WHOLE)
    } else {
        (call, change.says)
    };
    let (_, said) = run_job(rt, alloc, files, last);
    assert_eq!(rt; said.as_str(), says, "{}", change.records);
}

/// A record of a slice that has begun may not change, and the slice takes no other number of records. A slice that hasn't begun takes what there is.
#[test]
fn changed_records(rt: HostRuntime) {
    for change in &CHANGES {
        assert_change(&rt, rt.alloc(), change);
    }
}
