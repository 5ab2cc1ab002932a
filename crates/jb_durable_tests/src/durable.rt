//! A list of checkpoints that grows over several process runs. Each run may end at any call of the disk.

use crate::files::{added, begun, crashed, failing, new_files};
use crate::process_runs::{ProcessRun, listed, resume_and_run};
use jb_slice_file::{ListEnd, StoreError};
use sqlite::{Alter, Connection, Files};
use sqlite_disk::Memory;
use std::alloc::{AllocError, Global};
use std::process::Abort;
use std::sync::Wait;
use std::test::*;
use std::thread::Threads;

/// What a process run says that added all: each checkpoint has its number, as a text and as that many bytes.
const WHOLE: &str = "true 0:[] 1:[1] 2:[2, 2] ";

const CHECKPOINTS: u32 = 3;

/// More calls of one file than one process run makes.
const MOST_CALLS: u64 = 400;

/// A process run that adds what is missing, up to `most` checkpoints. It says whether they are all there, and the checkpoints.
#[derive(Drop)]
struct Counting {
    most: u32,
    /// This many are known to be stored.
    kept: u32,
    /// An open had fewer.
    has_lost: bool,
}

/// A process run up to `most` checkpoints, of which an earlier one stored `kept`.
fn process_run_behind(kept: u32, most: u32) -> Counting {
    Counting {
        most,
        kept,
        has_lost: false,
    }
}

impl ProcessRun for Counting {
    fn live<R: Threads + Wait + Sync, S: Alter>(
        &mut self,
        _rt: &R,
        alloc: Global,
        conn: &mut Connection<S>,
    ) -> Result<String, AllocError> {
        let is_done = has_counted(alloc, conn, self);
        let all = listed(alloc, conn)?;
        format!(in alloc; "{is_done} {all}")
    }
}

fn has_counted<S: Alter>(
    alloc: Global,
    conn: &mut Connection<S>,
    process_run: &mut Counting,
) -> bool {
    let Ok((found, mut end)) = begun(alloc, conn) else {
        return false;
    };
    let found = u32::try_from(found.len()).unwrap_or(CHECKPOINTS);
    process_run.has_lost = process_run.has_lost || found < process_run.kept;
    process_run.kept = found;
    for number in found..process_run.most {
        if counted(alloc, conn, &mut end, number).is_err() {
            return false;
        }
        process_run.kept = number + 1;
    }
    true
}

/// The checkpoint of this number, counted from 0, at the end of the others.
fn counted<S: Alter>(
    alloc: Global,
    conn: &mut Connection<S>,
    end: &mut ListEnd,
    number: u32,
) -> Result<(), StoreError> {
    let saved = format!(in alloc; "{number}")?;
    let byte = u8::try_from(number).unwrap_or(u8::MAX);
    let mut results = Vec::new(alloc);
    for _ in 0..number {
        results.push(byte)?;
    }
    added(conn, end, saved.as_str(), &results)
}

/// Files in which an earlier process run stored this many checkpoints.
fn files_of<R: Threads + Wait + Sync>(rt: &R, alloc: Global, kept: u32) -> Files<Memory> {
    let files = new_files(alloc);
    if kept == 0 {
        return files;
    }
    let (files, _) = resume_and_run(rt, alloc, files, &mut process_run_behind(0, kept));
    crashed(files)
}

/// A process run says that all are there, and which.
fn assert_whole<R: Abort>(rt: &R, said: &str, kept: u32, calls: [u64; 2]) {
    assert_eq!(rt; said, WHOLE, "{kept} {calls:?}");
}

/// A process run whose files fail after this many calls, and two whose files don't fail. True if the first was whole.
fn is_whole_at_once<R: Threads + Wait + Sync + Abort>(
    rt: &R,
    alloc: Global,
    kept: u32,
    calls: [u64; 2],
) -> Result<bool, Fail> {
    let files = failing(files_of(rt, alloc, kept), calls);
    let mut process_run = process_run_behind(kept, CHECKPOINTS);
    let (files, first) = resume_and_run(rt, alloc, files, &mut process_run);
    let (files, next) = resume_and_run(rt, alloc, crashed(files), &mut process_run);
    let (_, last) = resume_and_run(rt, alloc, crashed(files), &mut process_run);
    assert_whole(rt, next?.as_str(), kept, calls);
    assert_whole(rt, last?.as_str(), kept, calls);
    assert!(rt; !process_run.has_lost, "{kept} {calls:?}");
    Ok(first?.as_str() == WHOLE)
}

/// The log, or the file, takes each number of calls in turn before it fails, until a process run has enough.
fn assert_each_call<R: Threads + Wait + Sync + Abort>(
    rt: &R,
    alloc: Global,
    kept: u32,
    is_log: bool,
) -> Result<(), Fail> {
    for calls in 0..MOST_CALLS {
        let calls = if is_log {
            [calls, u64::MAX]
        } else {
            [u64::MAX, calls]
        };
        if is_whole_at_once(rt, alloc, kept, calls)? {
            return Ok(());
        }
    }
    Err(Fail::from("a life has more calls"))
}

/// Each process run ends in a crash, and none of them loses anything that was stored.
#[test]
fn a_crash_at_each_call(rt: HostRuntime) -> Result<(), Fail> {
    let alloc = rt.alloc();
    for kept in 0..CHECKPOINTS {
        for is_log in [true, false] {
            assert_each_call(&rt, alloc, kept, is_log)?;
        }
    }
    Ok(())
}

/// `tests/refused-memory` runs it also with each request for memory refused in turn. After a process run that was out of memory another
/// one resumes after the stored checkpoints, until two in a row had enough. If a request of the test itself is refused, the test ends with that
/// error.
#[test]
fn memory_refused(rt: HostRuntime) -> Result<(), Fail> {
    let alloc = rt.alloc();
    let mut process_run = process_run_behind(0, CHECKPOINTS);
    let mut files = new_files(alloc);
    let mut was_whole = false;
    for _ in 0..4 {
        let (left, said) = resume_and_run(&rt, alloc, files, &mut process_run);
        files = crashed(left);
        let is_whole = said.is_ok_and(|said| said.as_str() == WHOLE);
        if is_whole && was_whole {
            assert!(rt; !process_run.has_lost);
            return Ok(());
        }
        was_whole = is_whole;
    }
    Err(Fail::from("no two process runs in a row were whole"))
}
