//! What a round answers, and what is left of it in the table.

ghost use Rattle.std.specs.Prelude.{◌≡◌, IfSome};
ghost use Rattle.jb_chunk.specs.TaskState.{IsReady};
ghost use Rattle.jb_workers.specs.Works.{AllCanBegin};
ghost use Rattle.jb_base.specs.Limits.{max_parts};

use crate::lines::{add_line, add_row, assert_text, has, number, small};
use crate::way::{BOTH_WAYS, Way};
use crate::workers::rounds::run_round_in;
use crate::workers::tasks::{
    Processor, RULES, fresh_rows, letters, prefixing, repository, task_of, with_work, writer,
};
use jb_artifacts::{
    ArtifactsOf, CountCollector, FaultPlan, FaultPlans, Item, ItemProcessor, ListWriter,
    TableReader,
};
use jb_base::{ArtifactError, ClassId, MAX_PARTS, Rules};
use jb_cert::Certificate;
use jb_chunk::{Done, PartitionTask, Task};
use jb_repo::{Event, Snapshot};
use jb_rules::{Counts, Row, RowState};
use jb_workers::{Desk, Gate, RoundError, Work, work};
use std::alloc::{AllocError, Global};
use std::marker::Brand;
use std::sync::atomic::{AtomicU64, Ordering};
use std::sync::ledger::{Blank, Ledger};
use std::sync::{Arc, Wait};
use std::test::*;
use std::thread::Threads;

/// Rounds of two partitions of two letters each, in chunks of two, and what comes of them.
///
/// A line has the lane of partition 0, and that of partition 1 if it takes part (`other`). The task of partition 1 is sound. The line says
/// of the task of partition 0:
/// - its item count, its rollbacks and its repeats in place;
/// - whether each call of its processor for record 1 fails with class 0 (`bad`);
/// - the sets of classes that are retried, once, and of those that are repeated in place;
/// - whether its processor is out of memory (`wanting`).
///
/// A desk has a plan of one round, unless the round isn't planned. If both want one lane, either may get it. `alone` is the work of
/// partition 0 with no round about it.
///
/// The answer follows:
/// - The outcomes with their rows, or the error.
/// - How many came by the gate on both ways, and how many of them came before their chunk began, before it ended, or in another round than the first.
/// - How often a processor was called, and the table.
const ROUNDS: &str = "> lane=0 other=1
Committed(Counts { read: 2, write: 2, commit: 1, rollback: 0, read_skip: 0, process_skip: 0, filter: 0, write_skip: 0 })
0 2 2 0 0 2 2 2 1 0 0 0 0 0 0 done
Committed(Counts { read: 2, write: 2, commit: 1, rollback: 0, read_skip: 0, process_skip: 0, filter: 0, write_skip: 0 })
2 4 4 2 0 2 2 2 1 0 0 0 0 0 0 done
2 came, 2 left, 0 astray
4 calls
0 2 2 0 0 2 2 2 1 0 0 0 0 0 0 done
2 4 4 2 0 2 2 2 1 0 0 0 0 0 0 done
6 events, 1 plans, stopping: false
> lane=0
Committed(Counts { read: 2, write: 2, commit: 1, rollback: 0, read_skip: 0, process_skip: 0, filter: 0, write_skip: 0 })
0 2 2 0 0 2 2 2 1 0 0 0 0 0 0 done
1 came, 1 left, 0 astray
2 calls
0 2 2 0 0 2 2 2 1 0 0 0 0 0 0 done
2 4 2 2 0 0 0 0 0 0 0 0 0 0 0 waiting
4 events, 1 plans, stopping: false
> lane=0 other=1 bad retryable=1
Rolled(ClassId { number: 0 })
0 2 0 2 1 0 0 0 0 1 0 0 0 0 0 waiting
Committed(Counts { read: 2, write: 2, commit: 1, rollback: 0, read_skip: 0, process_skip: 0, filter: 0, write_skip: 0 })
2 4 4 2 0 2 2 2 1 0 0 0 0 0 0 done
2 came, 2 left, 0 astray
4 calls
0 2 0 2 1 0 0 0 0 1 0 0 0 0 0 waiting
2 4 4 2 0 2 2 2 1 0 0 0 0 0 0 done
6 events, 1 plans, stopping: false
> lane=0 other=1 bad
Failed(ClassId { number: 0 })
0 2 0 0 0 0 0 0 0 1 0 0 0 0 0 failed
Committed(Counts { read: 2, write: 2, commit: 1, rollback: 0, read_skip: 0, process_skip: 0, filter: 0, write_skip: 0 })
2 4 4 2 0 2 2 2 1 0 0 0 0 0 0 done
2 came, 2 left, 0 astray
4 calls
0 2 0 0 0 0 0 0 0 1 0 0 0 0 0 failed by 0
2 4 4 2 0 2 2 2 1 0 0 0 0 0 0 done
6 events, 1 plans, stopping: false
> lane=0 other=1 bad retryable=1 in-place=1
Failed(ClassId { number: 0 })
0 2 0 0 1 0 0 0 0 1 0 0 0 0 1 failed
Committed(Counts { read: 2, write: 2, commit: 1, rollback: 0, read_skip: 0, process_skip: 0, filter: 0, write_skip: 0 })
2 4 4 2 0 2 2 2 1 0 0 0 0 0 0 done
2 came, 2 left, 0 astray
5 calls
0 2 0 0 1 0 0 0 0 1 0 0 0 0 1 failed by 0
2 4 4 2 0 2 2 2 1 0 0 0 0 0 0 done
6 events, 1 plans, stopping: false
> lane=0 other=1 wanting
NoMemory
0 2 0 0 0 0 0 0 0 0 0 0 0 0 0 waiting
Committed(Counts { read: 2, write: 2, commit: 1, rollback: 0, read_skip: 0, process_skip: 0, filter: 0, write_skip: 0 })
2 4 4 2 0 2 2 2 1 0 0 0 0 0 0 done
2 came, 2 left, 0 astray
3 calls
0 2 0 0 0 0 0 0 0 0 0 0 0 0 0 waiting
2 4 4 2 0 2 2 2 1 0 0 0 0 0 0 done
6 events, 1 plans, stopping: false
> lane=0 items=1
Refused(BadDelta)
1 came, 1 left, 0 astray
1 calls
0 2 0 0 0 0 0 0 0 0 0 0 0 0 0 waiting
2 4 2 2 0 0 0 0 0 0 0 0 0 0 0 waiting
3 events, 1 plans, stopping: false
> lane=0 rollbacks=1000000000000
Refused(Full)
1 came, 1 left, 0 astray
0 calls
0 2 0 0 0 0 0 0 0 0 0 0 0 0 0 waiting
2 4 2 2 0 0 0 0 0 0 0 0 0 0 0 waiting
3 events, 1 plans, stopping: false
> lane=0 repeats=999999900001
Refused(Full)
1 came, 1 left, 0 astray
0 calls
0 2 0 0 0 0 0 0 0 0 0 0 0 0 0 waiting
2 4 2 2 0 0 0 0 0 0 0 0 0 0 0 waiting
3 events, 1 plans, stopping: false
> lane=0 other=0 either
Refused(LaneBusy)
1 came, 1 left, 0 astray
2 calls
1 done, 1 waiting, Counts { read: 2, write: 2, commit: 1, rollback: 0, read_skip: 0, process_skip: 0, filter: 0, write_skip: 0 }
3 events, 1 plans, stopping: false
> lane=2 other=1
Refused(LaneRange)
1 came, 1 left, 0 astray
2 calls
0 2 0 0 0 0 0 0 0 0 0 0 0 0 0 waiting
2 4 4 2 0 2 2 2 1 0 0 0 0 0 0 done
3 events, 1 plans, stopping: false
> lane=0 other=1 unplanned
Refused(PastPlan)
0 came, 0 left, 0 astray
0 calls
0 2 0 0 0 0 0 0 0 0 0 0 0 0 0 waiting
2 4 2 2 0 0 0 0 0 0 0 0 0 0 0 waiting
0 events, 0 plans, stopping: false
> lane=0 alone
Committed(Counts { read: 2, write: 2, commit: 1, rollback: 0, read_skip: 0, process_skip: 0, filter: 0, write_skip: 0 })
0 2 2 0 0 2 2 2 1 0 0 0 0 0 0 done
1 came, 1 left, 0 astray
2 calls
0 2 2 0 0 2 2 2 1 0 0 0 0 0 0 done
2 4 2 2 0 0 0 0 0 0 0 0 0 0 0 waiting
3 events, 1 plans, stopping: false
> lane=0 items=1 alone
Refused(BadDelta)
1 came, 1 left, 0 astray
1 calls
0 2 0 0 0 0 0 0 0 0 0 0 0 0 0 waiting
2 4 2 2 0 0 0 0 0 0 0 0 0 0 0 waiting
3 events, 1 plans, stopping: false
> lane=0 rollbacks=1000000000000 alone
Refused(Full)
1 came, 1 left, 0 astray
0 calls
0 2 0 0 0 0 0 0 0 0 0 0 0 0 0 waiting
2 4 2 2 0 0 0 0 0 0 0 0 0 0 0 waiting
3 events, 1 plans, stopping: false
> lane=0 repeats=999999900001 alone
Refused(Full)
1 came, 1 left, 0 astray
0 calls
0 2 0 0 0 0 0 0 0 0 0 0 0 0 0 waiting
2 4 2 2 0 0 0 0 0 0 0 0 0 0 0 waiting
3 events, 1 plans, stopping: false
";

type Letters = ArtifactsOf<TableReader, Counted, ListWriter, CountCollector>;

/// A processor that counts its calls.
#[derive(Drop)]
struct Counted {
    processor: Processor,
    calls: Arc<AtomicU64, Global>,
}

impl ItemProcessor for Counted {
    ghost processor = { λ c. ⟦<Processor as ItemProcessor>⟧.processor c.processor };

    fn process_item(&mut self, number: u64, item: &[u8]) -> Result<Option<Item>, ArtifactError> {
        self.calls.fetch_add(1, Ordering::SeqCst);
        self.processor.process_item(number, item)
    }
}

/// A gate that counts who comes by.
#[derive(Drop)]
struct Counter<'a, L: Ledger, R> {
    rt: &'a R,
    desk: &'a Desk<L>,
    came: AtomicU64,
    left: AtomicU64,
    astray: AtomicU64,
}

impl<'a, L: Ledger, R: Wait> Counter<'a, L, R> {
    fn new(rt: &'a R, desk: &'a Desk<L>) -> Counter<'a, L, R> {
        Counter {
            rt,
            desk,
            came: AtomicU64::new(0),
            left: AtomicU64::new(0),
            astray: AtomicU64::new(0),
        }
    }

    /// Whether the lane has a chunk now, if there is memory for the table.
    fn is_running(&self, lane: u32) -> Option<bool> {
        let table = self.desk.status(self.rt).ok()?;
        for row in &table.rows {
            if matches!(row.state, RowState::Running(own) if own == lane) {
                return Some(true);
            }
        }
        Some(false)
    }

    fn count(&self, passed: &AtomicU64, is_well: bool) {
        passed.fetch_add(1, Ordering::SeqCst);
        if !is_well {
            self.astray.fetch_add(1, Ordering::SeqCst);
        }
    }

    fn counts(&self, alloc: Global) -> Result<String, AllocError> {
        let came = self.came.load(Ordering::SeqCst);
        let left = self.left.load(Ordering::SeqCst);
        let astray = self.astray.load(Ordering::SeqCst);
        format!(in alloc; "{came} came, {left} left, {astray} astray\n")
    }
}

impl<L: Ledger + Send + Sync, R: Wait + Sync> Gate for Counter<'_, L, R> {
    fn arrive(&self, lane: u32, round: u64) {
        let is_begun = self.is_running(lane).unwrap_or(false);
        self.count(&self.came, is_begun && round == 0);
    }

    fn leave(&self, lane: u32, round: u64) {
        let is_ended = !self.is_running(lane).unwrap_or(true);
        self.count(&self.left, is_ended && round == 0);
    }
}

/// The artifacts of a partition, with the faults that a line gives.
fn artifacts(
    alloc: Global,
    line: &str,
    calls: &Arc<AtomicU64, Global>,
) -> Result<Letters, AllocError> {
    let mut faults = FaultPlans::new(alloc);
    if has(line, "bad") {
        faults.insert(1, FaultPlan::Bad(ClassId::new(0)))?;
    }
    let processor = Counted {
        processor: prefixing(alloc, faults, !has(line, "wanting"))?,
        calls: Arc::try_clone(calls)?,
    };
    Ok(ArtifactsOf {
        reader: letters(alloc)?,
        processor,
        writer: writer(alloc),
        collector: CountCollector::new(alloc),
    })
}

/// The row that the task of partition 0 has: the desk's, but for its rollbacks and repeats in place.
fn first_row(line: &str) -> Row {
    let [row, _] = fresh_rows();
    let rollback = number(line, "rollbacks").unwrap_or(0);
    let repeats = number(line, "repeats").unwrap_or(0);
    Row {
        counts: Counts {
            rollback,
            ..row.counts
        },
        retries: repeats,
        in_place: repeats,
        ..row
    }
}

/// The task of partition 0, if it is ready.
fn first_task<T: PartitionTask>(line: &str, artifacts: T::Artifacts) -> Option<T>
    ensures ready { IfSome result (λ task. IsReady (T.task_state task)) }
{
    let rules = Rules {
        retryable: number(line, "retryable").unwrap_or(0),
        no_rollback: number(line, "in-place").unwrap_or(0),
        retry_limit: 1,
        ..RULES
    };
    let item_count = number(line, "items").unwrap_or(2);
    task_of::<T>(0, first_row(line), rules, item_count, artifacts)
}

/// The works of the line's round, if each task is ready.
fn works_of<T: PartitionTask>(
    alloc: Global,
    line: &str,
    first: T::Artifacts,
    other: T::Artifacts,
) -> Option<Vec<Work<T>>>
    ensures { IfSome result (λ works. AllCanBegin T.task_state works.items) }
{
    let [_, row] = fresh_rows();
    let first = first_task::<T>(line, first)?;
    let works = with_work(Vec::new(alloc), small(line, "lane")?, first)?;
    match small(line, "other") {
        Some(lane) => with_work(works, lane, task_of::<T>(1, row, RULES, 2, other)?),
        None => Some(works),
    }
}

/// The desk of the line's round.
fn desk_of<L: Ledger>(rt: &impl Wait, alloc: Global, blank: Blank, line: &str) -> Option<Desk<L>>
    requires name { blank.name ≡ L.name }
    requires parts { blank.parts ≡ L.parts }
    requires all { blank.parts ≡ max_parts }
{
    let desk = Desk::<L>::new(repository(alloc, &fresh_rows())?, blank);
    if !has(line, "unplanned") {
        desk.apply(rt, Event::Plan(1, Certificate::FullLoad)).ok()?;
    }
    Some(desk)
}

/// Adds an outcome, and the row of its task.
fn add_done<T: PartitionTask>(
    text: &mut String,
    alloc: Global,
    done: &Done<T>,
) -> Result<(), AllocError> {
    text.push_str(format!(in alloc; "{:?}\n", done.outcome)?.as_str())?;
    add_row(text, alloc, done.task.row())?;
    text.push_str("\n")
}

fn add_error(text: &mut String, alloc: Global, error: RoundError) -> Result<(), AllocError> {
    text.push_str(format!(in alloc; "{error:?}\n")?.as_str())
}

/// Adds how many partitions are done and how many wait, and the sum of their counts.
fn add_states(text: &mut String, alloc: Global, table: &Snapshot) -> Result<(), AllocError> {
    let rows = table.rows.as_slice();
    let done = rows.iter().filter(|row| row.state.is_finished()).count();
    let waiting = rows.iter().filter(|row| row.state.is_waiting()).count();
    let totals = table.totals;
    text.push_str(format!(in alloc; "{done} done, {waiting} waiting, {totals:?}\n")?.as_str())
}

/// Adds a row of the table, and the class by which its partition failed.
fn add_row_of<L: Ledger>(
    text: &mut String,
    rt: &impl Wait,
    alloc: Global,
    desk: &Desk<L>,
    partition: u32,
    row: &Row,
) -> Result<(), AllocError> {
    add_row(text, alloc, row)?;
    if let Some(class) = desk.failure(rt, partition) {
        text.push_str(format!(in alloc; " by {}", class.number())?.as_str())?;
    }
    text.push_str("\n")
}

/// Adds the table; of a round in which either partition may have run, how many did.
fn add_table<L: Ledger>(
    text: &mut String,
    rt: &impl Wait,
    alloc: Global,
    line: &str,
    desk: &Desk<L>,
) -> Result<(), AllocError> {
    let table = desk.status(rt)?;
    if has(line, "either") {
        add_states(text, alloc, &table)?;
    } else {
        for (partition, row) in (0..1_024).zip(table.rows.iter()) {
            add_row_of(text, rt, alloc, desk, partition, row)?;
        }
    }
    let (events, plans, stopping) = (table.events, table.plans, table.stopping);
    let history = format!(in alloc; "{events} events, {plans} plans, stopping: {stopping}\n")?;
    text.push_str(history.as_str())
}

/// Runs the works in one round, and writes its answer.
fn run_round<
    L: Ledger + Send + Sync + 'static,
    T: PartitionTask + Send + 'static,
    R: Threads + Wait + Sync,
>(
    way: Way,
    alloc: Global,
    gate: &Counter<'_, L, R>,
    works: Vec<Work<T>>,
    text: &mut String,
) -> Result<(), AllocError>
    requires { AllCanBegin T.task_state works.items }
{
    match run_round_in(way, gate.desk, gate.rt, alloc, gate, works) {
        Ok(dones) => {
            for done in &dones {
                add_done(text, alloc, done)?;
            }
            Ok(())
        }
        Err(error) => add_error(text, alloc, error),
    }
}

/// Does the work of partition 0 with no round about it, and writes what it answers.
fn run_alone<L: Ledger + Send + Sync + 'static, T: PartitionTask, R: Wait + Sync>(
    alloc: Global,
    gate: &Counter<'_, L, R>,
    lane: u32,
    task: T,
    text: &mut String,
) -> Result<(), Fail>
    requires ready { IsReady (T.task_state task) }
{
    if !task.row().state.is_waiting() {
        return Err(Fail::from("a task"));
    }
    let share = gate.desk.take_share(gate.rt).ok_or("a share")?;
    let (done, share) = work(gate.desk, gate.rt, alloc, gate, Work { lane, task }, share);
    gate.desk.give_back(gate.rt, share);
    match done {
        Ok(done) => add_done(text, alloc, &done)?,
        Err(error) => add_error(text, alloc, error)?,
    }
    Ok(())
}

/// Runs the line's round on this desk, and writes its answer and who came by.
fn run_on<
    L: Ledger + Send + Sync + 'static,
    T: PartitionTask + Send + 'static,
    R: Threads + Wait + Sync,
>(
    way: Way,
    rt: &R,
    alloc: Global,
    desk: &Desk<L>,
    line: &str,
    first: T::Artifacts,
    other: T::Artifacts,
    text: &mut String,
) -> Result<(), Fail> {
    let gate = Counter::new(rt, desk);
    if has(line, "alone") {
        let task = first_task::<T>(line, first).ok_or("a task")?;
        run_alone(alloc, &gate, 0, task, text)?;
    } else {
        let works = works_of::<T>(alloc, line, first, other).ok_or("works")?;
        run_round(way, alloc, &gate, works, text)?;
    }
    text.push_str(gate.counts(alloc)?.as_str())?;
    Ok(())
}

/// Runs the line's round on a new desk, and writes what comes of it.
fn run_told<L: Ledger + Send + Sync + 'static, R: Threads + Wait + Sync>(
    way: Way,
    rt: &R,
    alloc: Global,
    blank: Blank,
    line: String,
    calls: &Arc<AtomicU64, Global>,
    text: &mut String,
) -> Result<(), Fail>
    requires name { blank.name ≡ L.name }
    requires parts { blank.parts ≡ L.parts }
    requires all { blank.parts ≡ max_parts }
{
    let line = line.as_str();
    let desk = desk_of::<L>(rt, alloc, blank, line).ok_or("a desk")?;
    let first = artifacts(alloc, line, calls)?;
    let other = artifacts(alloc, "", calls)?;
    run_on::<L, Task<Letters>, R>(way, rt, alloc, &desk, line, first, other, text)?;
    let calls = calls.swap(0, Ordering::SeqCst);
    text.push_str(format!(in alloc; "{calls} calls\n")?.as_str())?;
    add_table(text, rt, alloc, line, &desk)?;
    Ok(())
}

/// The lines that describe a round, each followed by what comes of it.
fn all_told<R: Threads + Wait + Sync>(
    way: Way,
    rt: &R,
    alloc: Global,
    told: &str,
) -> Result<String, Fail> {
    let calls = Arc::new(alloc, AtomicU64::new(0))?;
    let mut text = String::new(alloc);
    for line in told.lines() {
        if line.starts_with("> ") {
            add_line(&mut text, line)?;
            let blank = Blank::new(MAX_PARTS);
            let line = String::from_str(alloc, line)?;
            run_told::<Brand, R>(way, rt, alloc, blank, line, &calls, &mut text)?;
        }
    }
    Ok(text)
}

#[test]
fn rounds(rt: HostRuntime) -> Result<(), Fail> {
    for way in BOTH_WAYS {
        let text = all_told(way, &rt, rt.alloc(), ROUNDS)?;
        assert_text(&rt, text.as_str(), ROUNDS);
    }
    Ok(())
}
