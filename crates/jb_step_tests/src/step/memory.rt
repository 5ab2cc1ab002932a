//! A step that is out of memory, or has no workers.

use crate::step::between::Between;
use crate::step::rows::{ROWS, SEVEN, Worked};
use crate::step::runs::run_told;
use crate::way::{BOTH_WAYS, Way};
use jb_collect::Status;
use std::alloc::Global;
use std::process::Abort;
use std::sync::Wait;
use std::test::*;
use std::thread::Threads;

/// A restart on one thread and without faults.
struct Unmet {
    line: &'static str,
    /// What its partitions come to if none of the faults was met, and if some were.
    partitions: [&'static str; 2],
}

/// Those of the worked rows.
const UNMET: [Unmet; 4] = [
    Unmet {
        line: "again new threads=1 records=abc/de/fg/",
        partitions: [SEVEN, SEVEN],
    },
    Unmet {
        line: "again new threads=1 records=abcd/ items=4 retryable=2",
        partitions: [
            "0 4 4 0 0 4 4 4 1 0 0 0 0 0 0 done xa xb xc xd\n",
            "0 4 4 4 1 4 4 4 4 1 0 0 0 0 0 done xa xb xc xd\n",
        ],
    },
    Unmet {
        line: "again new threads=1 records=abcd/ retryable=1 skippable=1 one-skip",
        partitions: [
            "0 4 4 0 0 4 4 4 2 0 0 0 0 0 0 done xa xb xc xd\n",
            "0 4 4 2 1 4 4 4 3 1 0 0 0 0 0 done xa xb xc xd\n",
        ],
    },
    Unmet {
        line: "again new threads=1 records=ab/ retryable=3 in-place=1",
        partitions: [
            "0 2 2 0 0 2 2 2 1 0 0 0 0 0 0 done xa xb\n",
            "0 2 2 2 2 2 2 2 2 1 0 0 0 0 1 done xa xb\n",
        ],
    },
];

/// Runs the row's step. If it got no desk, being out of memory, nothing was run, and it is run again.
fn first_run<R: Threads + Wait + Sync>(
    way: Way,
    rt: &R,
    alloc: Global,
    row: &Worked,
    between: &mut Between,
    text: &mut String,
) -> Result<Option<Status>, Fail> {
    let status = run_told(way, rt, alloc, row.line, between, text)?;
    if !text.as_str().starts_with("no desk: Memory") {
        return Ok(status);
    }
    text.clear();
    run_told(way, rt, alloc, row.line, between, text)
}

/// After a first run that says what it lacked: the restart is completed.
fn assert_restarted<R: Threads + Wait + Abort + Sync>(
    way: Way,
    rt: &R,
    alloc: Global,
    row: &Worked,
    unmet: &Unmet,
    between: &mut Between,
) -> Result<(), Fail> {
    let mut text = String::new(alloc);
    let status = run_told(way, rt, alloc, unmet.line, between, &mut text)?;
    assert!(rt; matches!(status, Some(Status::Completed)));
    text.clear();
    between.add_to(&mut text, alloc)?;
    let partitions = text.as_str();
    let [none, some] = unmet.partitions;
    assert!(rt; partitions == none || partitions == some || partitions == row.partitions);
    Ok(())
}

/// A first run of the row's step, which may lack something, and then what belongs to it.
fn tried<R: Threads + Wait + Abort + Sync>(
    way: Way,
    rt: &R,
    alloc: Global,
    row: &Worked,
    unmet: &Unmet,
) -> Result<(), Fail> {
    let mut between = Between::nothing(alloc);
    let mut text = String::new(alloc);
    let status = first_run(way, rt, alloc, row, &mut between, &mut text)?;
    let text = text.as_str();
    if status.is_some() {
        let partitions = text.strip_prefix(row.course).ok_or("its course")?;
        assert!(rt; partitions == row.partitions);
        return Ok(());
    }
    assert!(rt; text.contains("Memory") || text.contains("Workers"));
    assert_restarted(way, rt, alloc, row, unmet, &mut between)
}

/// `tests/refused-memory` runs it also with each request for memory refused in turn, and `tests/no-worker` where no thread can be made. The
/// step has its whole answer, or says what it lacked. In the second case a restart on one thread, which needs no worker, and without faults
/// is completed. If the step found no memory for its desk, it has its whole answer when it is run again. If one of the test's own requests
/// is refused, the test ends with that error.
#[test]
fn memory_refused(rt: HostRuntime) -> Result<(), Fail> {
    for way in BOTH_WAYS {
        for (row, unmet) in ROWS.iter().zip(UNMET.iter()) {
            tried(way, &rt, rt.alloc(), row, unmet)?;
        }
    }
    Ok(())
}
