//! Steps that are run again from their saved texts with the artifacts that were handed back, after a stop or a lack of memory. Each is
//! beside the step that nothing stops.

use crate::step::between::Between;
use crate::step::rows::{ROWS, Worked};
use crate::step::runs::{assert_told, run_told};
use crate::way::{BOTH_WAYS, Way};
use jb_collect::Status;
use std::alloc::{AllocError, Global};
use std::sync::Wait;
use std::test::*;
use std::thread::Threads;

/// The processor of the second of two partitions is out of memory, once; the restart has new artifacts. Nothing that the other one committed is lost.
const WANTING: &str = "> records=ab/c~d/
[0, 1]
Memory 6 1
.
Begin Rollback After(Rollback) .
0 2 2 0 0 2 2 2 1 0 0 0 0 0 0 done xa xb
2 4 2 2 0 0 0 0 0 0 0 0 0 0 0 waiting
> records=ab/cd/ again new
[1]
Longest(1) 1 of 1
1:4:2 1:4:2:end 1 Completed .
Begin Before After(Commit) .
Completed 4
0 2 2 0 0 2 2 2 1 0 0 0 0 0 0 done xa xb
2 4 4 2 0 2 2 2 1 0 0 0 0 0 0 done xc xd
";

#[test]
fn a_round_is_gone_on_from(rt: HostRuntime) -> Result<(), Fail> {
    assert_told(&rt, rt.alloc(), WANTING)
}

/// The line of the row's run of this number. The first run is stopped after so many rounds. The step is restarted on so many threads until
/// it is over: in one run, or, after a stop before the first round, round by round.
fn run_of(
    alloc: Global,
    row: &Worked,
    run: u64,
    stop: u64,
    threads: u32,
) -> Result<String, AllocError> {
    let line = row.line;
    if run == 0 {
        format!(in alloc; "rounds={stop} {line}")
    } else if stop == 0 {
        format!(in alloc; "again threads={threads} rounds=1 {line}")
    } else {
        format!(in alloc; "again threads={threads} {line}")
    }
}

/// Whether the row's step comes to the same if it is stopped after so many rounds and restarted on so many threads.
fn is_unchanged<R: Threads + Wait + Sync>(
    way: Way,
    rt: &R,
    alloc: Global,
    row: &Worked,
    stop: u64,
    threads: u32,
) -> Result<bool, Fail> {
    let mut between = Between::nothing(alloc);
    let mut courses = String::new(alloc);
    let mut status = Some(Status::Stopped);
    for run in 0..20 {
        if matches!(status, Some(Status::Stopped)) {
            let line = run_of(alloc, row, run, stop, threads)?;
            status = run_told(way, rt, alloc, line.as_str(), &mut between, &mut courses)?;
        }
    }
    let mut partitions = String::new(alloc);
    between.add_to(&mut partitions, alloc)?;
    let is_completed = matches!(status, Some(Status::Completed));
    Ok(is_completed && partitions.as_str() == row.partitions)
}

/// Whether it does so for each stop, on each number of threads.
fn is_never_changed<R: Threads + Wait + Sync>(
    way: Way,
    rt: &R,
    alloc: Global,
    row: &Worked,
) -> Result<bool, Fail> {
    for stop in 0..6 {
        for threads in 1..5 {
            if !is_unchanged(way, rt, alloc, row, stop, threads)? {
                return Ok(false);
            }
        }
    }
    Ok(true)
}

#[test]
fn stops_change_nothing(rt: HostRuntime) -> Result<(), Fail> {
    for way in BOTH_WAYS {
        for row in &ROWS {
            assert!(rt;
                is_never_changed(way, &rt, rt.alloc(), row)?,
                "{way:?} {}",
                row.line
            );
        }
    }
    Ok(())
}
