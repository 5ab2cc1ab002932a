//! Steps over records, each made of one function: how they end.

ghost use Rattle.jb_rows.specs.Author.{field_at};
ghost use Rattle.jb_step_tests.specs.Letters.{late_by, letter_by};

use crate::lines::{add_line, assert_text, number, rules, value};
use jb_base::{ClassId, MAX_ITEM_COUNT, Name, PackedList, Rules};
use jb_collect::Status;
use jb_records::{
    FirstTries, RecordsEnd, RecordsRun, RecordsStep, RecordsStepError, Shaky, StepFunction,
    run_records, stop_of,
};
use jb_rows::{Outcome, Row, RowBuilder, RowFunction, Rows};
use std::alloc::{AllocError, Global};
use std::sync::{Arc, Wait};
use std::test::*;
use std::thread::Threads;

/// A record without a field is refused, and the result of another is its first field.
#[derive(Drop)]
struct Letters {
    refused: ClassId,
}

impl RowFunction for Letters {
    ghost answer = { λ f fields. letter_by f.refused (field_at fields 0) };

    fn process(&self, row: &Row, built: &mut RowBuilder) -> Result<Outcome, AllocError> {
        match row.get(0) {
            Some(field) => {
                built.push(field)?;
                Ok(Outcome::Given)
            }
            None => Ok(Outcome::Refused(self.refused)),
        }
    }
}

/// The first try at a record of two letters fails.
#[derive(Drop)]
struct Late {
    class: ClassId,
}

impl FirstTries for Late {
    ghost tries = { λ f fields. late_by f.class (field_at fields 0) };

    fn tries_of(&self, alloc: Global, row: &Row) -> Result<Vec<ClassId>, AllocError> {
        match row.get(0) {
            Some(field) if field.len() == 2 => Vec::from_slice(alloc, &[self.class]),
            _ => Ok(Vec::new(alloc)),
        }
    }
}

/// Steps of four records in two partitions on two threads, and what comes of them.
///
/// A line's `records` has each record followed by a dot. The rest of the line is the item count, the sets of classes that are skipped,
/// retried, and retried in place, whether only one fault is skipped, and the greatest number of rounds.
///
/// What comes of the step follows three times: of one run; of intervals of one round; and of such intervals, of which the later ones resume
/// from what was saved of the first. An interval that fails is the last one. Each answer is the error, or this:
/// - The status and the number of skipped records.
/// - The results, each followed by a bar.
/// - The records that were skipped, each as NUMBER/CLASS.
/// - The partitions that failed, each as PARTITION:NUMBER/CLASS.
/// - The records by whose refusals partitions fail, each as !NUMBER/CLASS.
///
/// The lines have a record that is refused, and a try that fails, each under several rules, and both in one chunk.
const STEPS: &str = "> records=a.b.c.d. items=1
Completed 0 a|b|c|d|
Completed 0 a|b|c|d|
Completed 0 a|b|c|d|
> records=a.b.c.d. items=1 rounds=1
Stopped 0 a|c|
Stopped 0 a|c|
Stopped 0 a|c|
> records=a..c.d. items=1
Failed 0 a|c|d| 0:1/0 !1/0
Failed 0 a|c|d| 0:1/0 !1/0
Failed 0 a|c|d| 0:1/0 !1/0
> records=..c.d. items=1 skippable=1
Completed 2 c|d| 0/0 1/0
Completed 2 c|d| 0/0 1/0
Completed 2 c|d| 0/0 1/0
> records=..c.d. items=2 skippable=1 one-skip
Failed 0 c|d| 0:1/0 !1/0
Failed 0 c|d| 0:1/0 !1/0
Failed 0 c|d| 0:1/0 !1/0
> records=.aa.c.d. items=2 skippable=1
Failed 0 c|d| 0:1/1
Failed 0 c|d| 0:1/1
Failed 0 c|d| 0:1/1
> records=aa..c.d. items=2 retryable=2 in-place=2
Failed 0 c|d| 0:1/0 !1/0
Failed 0 c|d| 0:1/0 !1/0
Failed 0 c|d| 0:1/0 !1/0
> records=..c.d. items=2 skippable=1 retryable=1 one-skip
Failed 1 c|d| 0/0 0:1/0 !1/0
Failed 1 c|d| 0/0 0:1/0 !1/0
Failed 1 c|d| 0/0 0:1/0 !1/0
> records=.a.c.d. items=2 retryable=1 in-place=1
Failed 0 c|d| 0:0/0 !0/0
Failed 0 c|d| 0:0/0 !0/0
Failed 0 c|d| 0:0/0 !0/0
> records=.a..b.c.d.e.f. items=2 skippable=1 one-skip
Failed 1 a|c|d|e|f| 0/0 0:2/0 !2/0
Failed 1 a|c|d|e|f| 0/0 0:2/0 !2/0
Failed 1 a|c|d|e|f| 0/0 0:2/0 !2/0
> records=aa.b.c.d. items=1
Failed 0 c|d| 0:0/1
Failed 0 c| 0:0/1
Failed 0 c| 0:0/1
> records=aa.b.c.d. items=1 retryable=2
Completed 0 aa|b|c|d|
Completed 0 aa|b|c|d|
Completed 0 aa|b|c|d|
> records=aa.b.c.d. items=1 skippable=2
SkippedTry
SkippedTry
SkippedTry
";

/// Adds what is new of each partition to what was reported of it.
fn grow(told: &mut Vec<PackedList>, new_results: Vec<PackedList>) -> Result<(), AllocError> {
    for (partition, list) in new_results.into_iter().enumerate() {
        match told.get_mut(partition) {
            Some(own) => own.append(&list)?,
            None => told.push(list)?,
        }
    }
    Ok(())
}

/// Runs the step in intervals of one round, so many at most, while it is only stopped. The later intervals run in memory, or resume from
/// what was saved of the first. Answers the results of the run, or those that were reported.
fn in_intervals<F: StepFunction + Drop + 'static, R: Threads + Wait + Sync>(
    rt: &R,
    alloc: Global,
    step: &RecordsStep,
    function: &Arc<F, Global>,
    records: &PackedList,
    intervals: u64,
    is_kept: bool,
) -> Result<RecordsEnd, RecordsStepError> {
    let run = RecordsRun::begin(alloc, step, function, records)?;
    let (mut run, mut last) = run.run_interval(rt, alloc, Some(1))?;
    if is_kept && last.status == Status::Stopped {
        let (saved, results) = (last.saved.as_bytes(), run.into_results());
        run = RecordsRun::resume(alloc, step, function, records, saved, results)?;
    }
    let mut told = Vec::new(alloc);
    for _ in 1..intervals {
        if last.status != Status::Stopped {
            break;
        }
        let (next, interval) = run.run_interval(rt, alloc, Some(1))?;
        grow(&mut told, last.results)?;
        run = next;
        last = interval;
    }
    let failures = run.failures(alloc, &**function, records, &last)?;
    grow(&mut told, last.results)?;
    Ok(RecordsEnd {
        status: last.status,
        snapshot: last.snapshot,
        results: if is_kept { told } else { run.into_results() },
        failures,
    })
}

/// Adds the results, each followed by a bar.
fn add_results(text: &mut String, alloc: Global, end: &RecordsEnd) -> Result<(), AllocError> {
    let all = end.all_results(alloc)?;
    for index in 0..all.len() {
        let result = Row::of(all.at(index));
        let letters = result.get(0).unwrap_or(b"");
        text.push_str(String::from_utf8_lossy(alloc, letters)?.as_str())?;
        text.push_str("|")?;
    }
    Ok(())
}

/// Adds the records that were skipped, the partitions that failed, and the records by whose refusals partitions fail.
fn add_faults(
    text: &mut String,
    alloc: Global,
    end: &RecordsEnd,
    function: &Shaky<Letters, Late>,
    rules: &Rules,
    records: &PackedList,
) -> Result<(), AllocError> {
    for skip in &end.skipped(alloc, function, records)? {
        text.push_str(&format!(in alloc; " {}/{}", skip.number, skip.class.number())?)?;
    }
    for failure in &end.failures {
        text.push_str(&format!(in alloc; " {}:", failure.partition)?)?;
        if let Some(fault) = failure.fault {
            text.push_str(&format!(in alloc; "{}/{}", fault.number, fault.class.number())?)?;
        }
    }
    for row in end.snapshot.rows.iter() {
        if let Some(stop) = stop_of(alloc, function, rules, records, row)? {
            text.push_str(&format!(in alloc; " !{}/{}", stop.number, stop.class.number())?)?;
        }
    }
    Ok(())
}

/// Adds what came of a step.
fn add_end(
    text: &mut String,
    alloc: Global,
    end: Result<RecordsEnd, RecordsStepError>,
    function: &Shaky<Letters, Late>,
    rules: &Rules,
    records: &PackedList,
) -> Result<(), AllocError> {
    match end {
        Ok(end) => {
            let skips = end.snapshot.totals.process_skip;
            text.push_str(&format!(in alloc; "{:?} {skips} ", end.status)?)?;
            add_results(text, alloc, &end)?;
            add_faults(text, alloc, &end, function, rules, records)
        }
        Err(error) => text.push_str(&format!(in alloc; "{error:?}")?),
    }
}

/// The function.
fn new_letters() -> Shaky<Letters, Late> {
    Shaky {
        function: Letters {
            refused: ClassId::new(0),
        },
        tries: Late {
            class: ClassId::new(1),
        },
    }
}

/// The line's step.
fn step_of(alloc: Global, line: &str) -> Result<RecordsStep, Fail> {
    let item_count = number(line, "items").unwrap_or(0);
    if item_count == 0 || MAX_ITEM_COUNT < item_count {
        return Err(Fail::from("an item count"));
    }
    Ok(RecordsStep {
        id: Name::new(String::from_str(alloc, "letters")?),
        partitions: 2,
        threads: 2,
        item_count,
        rules: rules(line),
    })
}

/// The line's records.
fn records_of(alloc: Global, line: &str) -> Result<PackedList, AllocError> {
    let mut records = Rows::new(alloc);
    let mut record = RowBuilder::new(alloc);
    let mut letters = Vec::new(alloc);
    for sign in value(line, "records").unwrap_or("").as_bytes() {
        if *sign == b'.' {
            record.clear();
            if !letters.is_empty() {
                record.push(letters.as_slice())?;
            }
            records.push(&record)?;
            letters.clear();
        } else {
            letters.push(*sign)?;
        }
    }
    Ok(records.into_list())
}

/// Adds what comes of the line's step in intervals: in memory, or resumed from what was saved of the first.
fn add_intervals<R: Threads + Wait + Sync>(
    text: &mut String,
    rt: &R,
    alloc: Global,
    line: &str,
    step: &RecordsStep,
    records: &PackedList,
    is_kept: bool,
) -> Result<(), AllocError> {
    let function = Arc::new(alloc, new_letters())?;
    let intervals = number(line, "rounds").unwrap_or(8);
    let end = in_intervals(rt, alloc, step, &function, records, intervals, is_kept);
    add_end(text, alloc, end, &*function, &step.rules, records)?;
    text.push_str("\n")
}

/// Adds what comes of the line's step.
fn add_told<R: Threads + Wait + Sync>(
    text: &mut String,
    rt: &R,
    alloc: Global,
    line: &str,
) -> Result<(), Fail> {
    let step = step_of(alloc, line)?;
    let records = records_of(alloc, line)?;
    let rounds = number(line, "rounds");
    let end = run_records(rt, alloc, &step, new_letters(), &records, None, rounds);
    add_end(text, alloc, end, &new_letters(), &step.rules, &records)?;
    text.push_str("\n")?;
    add_intervals(text, rt, alloc, line, &step, &records, false)?;
    add_intervals(text, rt, alloc, line, &step, &records, true)?;
    Ok(())
}

/// Intervals don't change what comes of a step.
#[test]
fn steps_over_records(rt: HostRuntime) -> Result<(), Fail> {
    let mut text = String::new(rt.alloc());
    for line in STEPS.lines() {
        if line.starts_with("> ") {
            add_line(&mut text, line)?;
            add_told(&mut text, &rt, rt.alloc(), line)?;
        }
    }
    assert_text(&rt, text.as_str(), STEPS);
    Ok(())
}
