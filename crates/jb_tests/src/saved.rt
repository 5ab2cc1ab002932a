//! Saved rows: worked rows by their texts, as many as there may be, and out of memory. What is refused, and what resumes, is in
//! `cases/restart`.

use crate::repo::{most_rows, opened, rows_of};
use jb_rules::Row;
use jb_saved::{SavedError, SavedRows, rows_to_go_on};
use std::alloc::{AllocError, Global};
use std::process::Abort;

/// Rows of a step `s`, without the object around them. First come seven records in three partitions after one round, and the same once
/// it is done. Then a partition that failed beside one that is done, no record at all, and one record with the most rollbacks. Then
/// chunks that were rolled back or whose write was skipped. Then calls that were repeated in place: in a chunk that was committed,
/// before one that failed, and in one that was rolled back. Then one record with the most repeats, and one with the most rollbacks too.
/// Then a partition whose items were all filtered, one that was done again record by record, and one that failed after its retries.
const ROWS: &str =
    r#"[0,3,2,0,0,2,2,2,1,0,0,0,0,0,0,"waiting"],[3,5,5,3,0,2,2,2,1,0,0,0,0,0,0,"done"],[5,7,5,5,0,0,0,0,0,0,0,0,0,0,0,"waiting"]
[0,3,3,0,0,3,3,3,2,0,0,0,0,0,0,"done"],[3,5,5,3,0,2,2,2,1,0,0,0,0,0,0,"done"],[5,7,7,5,0,2,2,2,1,0,0,0,0,0,0,"done"]
[0,4,2,0,0,1,2,1,1,1,0,1,0,0,0,"failed"],[4,6,6,4,0,2,2,2,1,0,0,0,0,0,0,"done"]
[0,0,0,0,0,0,0,0,0,0,0,0,0,0,0,"done"]
[0,1,0,0,0,0,0,0,0,1000000000000,0,0,0,0,0,"waiting"]
[0,4,4,2,1,3,4,3,3,1,0,1,0,0,0,"done"]
[0,3,3,0,0,0,3,0,1,0,0,0,0,1,0,"done"]
[0,3,3,2,1,2,2,2,3,1,1,0,0,0,0,"done"]
[0,4,4,0,1,4,4,4,1,0,0,0,0,0,1,"done"]
[0,1,0,0,2,0,0,0,0,1,0,0,0,0,2,"failed"]
[0,2,2,2,2,2,2,2,2,1,0,0,0,0,1,"done"]
[0,1,0,0,1000000000000,0,0,0,0,0,0,0,0,0,1000000000000,"waiting"]
[0,1,0,0,2000000000000,0,0,0,0,1000000000000,0,0,0,0,1000000000000,"waiting"]
[0,4,4,0,0,0,4,0,1,0,0,0,4,0,0,"done"]
[0,4,4,4,1,4,4,4,4,1,0,0,0,0,0,"done"]
[0,1,0,1,2,0,0,0,0,3,0,0,0,0,0,"failed"]"#;

/// The text of these rows of step `s`.
fn text_of(alloc: Global, rows: &str) -> Result<String, AllocError> {
    format!(in alloc; r#"{{"rows":[{rows}],"step":"s","version":2}}"#)
}

/// Whether the rows are what is read, if it was accepted.
fn are_those(saved: &SavedRows, read: Result<SavedRows, SavedError>) -> bool {
    match read {
        Ok(read) => read.rows() == saved.rows(),
        Err(_) => false,
    }
}

/// Whether the rows are written as this text has them, and are what is read again.
fn are_kept(alloc: Global, saved: &SavedRows, text: &str) -> Option<bool> {
    let written = saved.text(alloc).ok()?;
    let read = SavedRows::read(alloc, written.as_bytes());
    Some(written.as_str() == text && are_those(saved, read))
}

/// Whether there are rows to resume from, as many as were saved.
fn goes_on(alloc: Global, saved: &SavedRows) -> bool {
    match rows_to_go_on(alloc, "s", 1_024, saved) {
        Ok(rows) => rows.len() == saved.rows().len(),
        Err(_) => false,
    }
}

/// Whether these rows are read, written, read again, and resumed from, where there is memory for it.
fn is_read(alloc: Global, rows: &str) -> Option<bool> {
    let text = text_of(alloc, rows).ok()?;
    let saved = SavedRows::read(alloc, text.as_bytes()).ok()?;
    let is_kept = are_kept(alloc, &saved, text.as_str())?;
    Some(is_kept && saved.step_id() == "s" && goes_on(alloc, &saved))
}

/// Whether these rows of a repository are saved, written, read, and resumed from, where there is memory for it.
fn is_saved(rt: &impl Abort, alloc: Global, rows: Vec<Row>, told: &str) -> Option<bool> {
    let text = text_of(alloc, told).ok()?;
    let snapshot = opened(rt, rows, 64, 2).snapshot().ok()?;
    let saved = SavedRows::of(alloc, "s", &snapshot).ok()?;
    let is_kept = are_kept(alloc, &saved, text.as_str())?;
    Some(is_kept && saved.rows() == snapshot.rows.as_slice() && goes_on(alloc, &saved))
}

/// As many fresh rows as a table has, of one record each.
fn most_told(alloc: Global) -> Result<String, AllocError> {
    let mut rows = String::new(alloc);
    for lo in 0..1_024u64 {
        let comma = if lo == 0 { "" } else { "," };
        let hi = lo + 1;
        let row = format!(in alloc;
            r#"{comma}[{lo},{hi},{lo},{lo},0,0,0,0,0,0,0,0,0,0,0,"waiting"]"#
        )?;
        rows.push_str(row.as_str())?;
    }
    Ok(rows)
}

/// The rows of each line, and a table of as many rows as there may be.
#[test]
fn rows_are_written_and_read(rt: HostRuntime) -> Result<(), AllocError> {
    let alloc = rt.alloc();
    for line in ROWS.lines() {
        assert!(rt; is_read(alloc, line) == Some(true), "{line}");
    }
    let most = most_told(alloc)?;
    assert!(rt; is_read(alloc, most.as_str()) == Some(true));
    assert!(rt; is_saved(&rt, alloc, most_rows(alloc)?, most.as_str()) == Some(true));
    Ok(())
}

/// Two fresh rows of two records each.
const TWO_ROWS: &str =
    r#"[0,2,0,0,0,0,0,0,0,0,0,0,0,0,0,"waiting"],[2,4,2,2,0,0,0,0,0,0,0,0,0,0,0,"waiting"]"#;

/// Whether they are saved and read, where there is memory for it.
fn are_two(rt: &impl Abort, alloc: Global) -> Option<bool> {
    let rows = rows_of(alloc, &[(0, 2), (2, 4)]).ok()?;
    Some(is_saved(rt, alloc, rows, TWO_ROWS)? && is_read(alloc, TWO_ROWS)?)
}

/// With any one request refused, all of it is done at the second try.
#[test]
fn wants_memory_or_answers_in_full(rt: HostRuntime) {
    let is_done = are_two(&rt, rt.alloc()) == Some(true);
    assert!(rt; is_done || are_two(&rt, rt.alloc()) == Some(true));
}
