//! A round on as many lanes as a desk has, of as many partitions as it has.

ghost use Rattle.std.specs.Prelude.{◌≡◌, [], IfSome, Option};
ghost use Rattle.jb_chunk.specs.TaskState.{IsReady};
ghost use Rattle.jb_workers.specs.Works.{AllCanBegin};
ghost use Rattle.jb_base.specs.Limits.{max_parts};

use crate::lines::assert_text;
use crate::way::{BOTH_WAYS, Way};
use crate::workers::rounds::run_round_in;
use crate::workers::tasks::{Processor, RULES, prefixing, task_of, with_work, writer};
use jb_artifacts::{ArtifactsOf, CountCollector, FaultPlans, Item, ListWriter, TableReader};
use jb_base::{MAX_PARTS, PackedList, Range};
use jb_cert::Certificate;
use jb_chunk::{Done, Outcome, PartitionTask, Task};
use jb_repo::{Event, Repo, can_open};
use jb_rules::Row;
use jb_workers::{Desk, NoGate, Work};
use std::alloc::{AllocError, Global};
use std::marker::Brand;
use std::sync::Wait;
use std::sync::ledger::{Blank, Ledger};
use std::test::*;
use std::thread::Threads;

type OneRecord = ArtifactsOf<TableReader, Processor, ListWriter, CountCollector>;

pub(crate) type OneRecordTask = Task<OneRecord>;

/// Each partition has the record of its number.
fn own_row(partition: u32) -> Row {
    let lo = u64::from(partition);
    Row::fresh(Range { lo, hi: lo + 1 })
}

fn own_reader(alloc: Global, partition: u32) -> Result<TableReader, AllocError> {
    let mut records = PackedList::new(alloc);
    records.push(b"a")?;
    Ok(TableReader::new(alloc, u64::from(partition), records, FaultPlans::new(alloc)))
}

fn own_artifacts(alloc: Global, partition: u32) -> Result<OneRecord, AllocError> {
    let reader = own_reader(alloc, partition)?;
    let processor = prefixing(alloc, FaultPlans::new(alloc), true)?;
    Ok(ArtifactsOf {
        reader,
        processor,
        writer: writer(alloc),
        collector: CountCollector::new(alloc),
    })
}

/// The task of the partition, over its own artifacts.
pub(crate) fn own_task(alloc: Global, partition: u32) -> Option<OneRecordTask>
    ensures { IfSome result (λ task. IsReady (⟦<OneRecordTask as PartitionTask>⟧.task_state task)) }
{
    let artifacts = own_artifacts(alloc, partition).ok()?;
    task_of::<OneRecordTask>(partition, own_row(partition), RULES, 1, artifacts)
}

/// A work for each lane: the task that is made for its number.
pub(crate) fn works<T: PartitionTask, F: Fn(u32) -> Option<T>>(
    alloc: Global,
    lanes: u32,
    make: F,
) -> Option<Vec<Work<T>>>
    requires callable { F.IsAlwaysCallable make }
    requires ready { (lane : _) (one : Option T) → F.post make lane one → IfSome one (λ task. IsReady (T.task_state task)) }
    ensures { IfSome result (λ works. AllCanBegin T.task_state works.items) }
{
    let mut works = Vec::new(alloc);
    for lane in 0..lanes {
        works = with_work(works, lane, make(lane)?)?;
    }
    Some(works)
}

/// A repository of so many partitions, for 64 threads.
fn repository(alloc: Global, partitions: u32) -> Option<Repo>
    ensures { IfSome result (λ repo. repo.past ≡ []) }
{
    let mut rows = Vec::new(alloc);
    for partition in 0..partitions {
        rows.push(own_row(partition)).ok()?;
    }
    if can_open(rows.as_slice(), 64, 1) {
        Some(Repo::new(rows, 64, 1))
    } else {
        None
    }
}

/// A desk of 1,024 partitions with a plan of 16 rounds, whose ledger has so many parts.
pub(crate) fn planned_desk<L: Ledger>(
    rt: &impl Wait,
    alloc: Global,
    blank: Blank,
    parts: u64,
) -> Option<Desk<L>>
    requires name { blank.name ≡ L.name }
    requires parts { blank.parts ≡ L.parts }
    requires all { blank.parts ≡ parts }
{
    let desk = Desk::<L>::with_parts(repository(alloc, 1_024)?, blank, parts);
    desk.apply(rt, Event::Plan(16, Certificate::FullLoad)).ok()?;
    Some(desk)
}

/// What comes of a round of these works: the Dones and those that are Committed. Of the table after it: the events, the rows and the Commits.
fn run<
    L: Ledger + Send + Sync + 'static,
    T: PartitionTask + Send + 'static,
    R: Threads + Wait + Sync,
>(way: Way, rt: &R, alloc: Global, blank: Blank, works: Vec<Work<T>>) -> Option<String>
    requires name { blank.name ≡ L.name }
    requires parts { blank.parts ≡ L.parts }
    requires all { blank.parts ≡ max_parts }
    requires ready { AllCanBegin T.task_state works.items }
{
    let desk = planned_desk::<L>(rt, alloc, blank, MAX_PARTS)?;
    let dones = run_round_in(way, &desk, rt, alloc, &NoGate, works).ok()?;
    let (all, committed) = commits(dones.as_slice());
    let after = desk.status(rt).ok()?;
    let (events, rows, commits) = (after.events, after.rows.len(), after.totals.commit);
    let text = format!(in alloc; "{committed} of {all}; {events} {rows} {commits}");
    text.ok()
}

/// How many Dones there are, and how many of them are Committed.
pub(crate) fn commits<T>(dones: &[Done<T>]) -> (usize, usize) {
    let mut committed: usize = 0;
    for done in dones {
        if matches!(done.outcome, Outcome::Committed(_)) {
            committed = committed.saturating_add(1);
        }
    }
    (dones.len(), committed)
}

#[test]
fn a_round_on_64_lanes(rt: HostRuntime) -> Result<(), Fail> {
    let alloc = rt.alloc();
    for way in BOTH_WAYS {
        let works = works(alloc, 64, |lane| own_task(alloc, lane)).ok_or("works")?;
        let came = run::<Brand, _, _>(way, &rt, alloc, Blank::new(MAX_PARTS), works);
        assert_text(
            &rt,
            came.ok_or("a round")?.as_str(),
            "64 of 64; 130 1024 64",
        );
    }
    Ok(())
}
