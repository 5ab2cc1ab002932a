//! Two lanes that wait for each other: they run at once, and each commit is in the table before the round is over.

ghost use Rattle.std.specs.Prelude.{◌≡◌, ◌<◌, IfSome};
ghost use Rattle.jb_workers.specs.Works.{AllCanBegin};
ghost use Rattle.jb_base.specs.Limits.{max_parts};

use crate::lines::assert_text;
use crate::way::{BOTH_WAYS, Way};
use crate::workers::rounds::run_round_in;
use crate::workers::tasks::{RULES, boxes, fresh_rows, repository, task_of, with_work};
use jb_artifacts::Artifacts;
use jb_base::MAX_PARTS;
use jb_cert::Certificate;
use jb_chunk::{Done, PartitionTask, Task};
use jb_repo::{Event, Snapshot};
use jb_workers::{Desk, Gate, Work};
use std::alloc::{AllocError, Global};
use std::marker::Brand;
use std::sync::atomic::{AtomicBool, AtomicU64, Ordering};
use std::sync::ledger::{Blank, Ledger};
use std::sync::{Arc, Wait};
use std::test::*;
use std::thread;
use std::thread::Threads;
use std::time::{Clock, Duration};

/// Each lane waits for the other in `arrive`. Then lane 0 waits for lane 1's end and asks for the status.
#[derive(Drop)]
struct Meeting<L: Ledger, R> {
    rt: R,
    desk: Arc<Desk<L>>,
    here: [AtomicBool; 2],
    gone: AtomicBool,
    alone: AtomicU64,
    commits: [AtomicU64; 2],
}

/// Whether the flag is set within 10,000 turns of a millisecond.
pub(crate) fn wait_for<R: Clock>(rt: &R, flag: &AtomicBool) -> bool {
    for _ in 0..10_000 {
        if flag.load(Ordering::SeqCst) {
            return true;
        }
        thread::sleep(rt, Duration::from_millis(1));
    }
    false
}

impl<L: Ledger, R: Wait + Clock> Meeting<L, R> {
    fn new(rt: R, desk: Arc<Desk<L>>) -> Meeting<L, R> {
        Meeting {
            rt,
            desk,
            here: [AtomicBool::new(false), AtomicBool::new(false)],
            gone: AtomicBool::new(false),
            alone: AtomicU64::new(0),
            commits: [AtomicU64::new(9), AtomicU64::new(9)],
        }
    }

    /// How often a lane waited in vain, and the numbers of Commits of partitions 0 and 1 that lane 0 saw.
    fn seen(&self) -> [u64; 3] {
        [
            self.alone.load(Ordering::SeqCst),
            self.commits[0].load(Ordering::SeqCst),
            self.commits[1].load(Ordering::SeqCst),
        ]
    }

    fn meets(&self, own: usize, other: usize) -> bool
        requires { (own < 2) × (other < 2) }
    {
        self.here[own].store(true, Ordering::SeqCst);
        wait_for(&self.rt, &self.here[other])
    }

    fn look(&self) {
        if let Ok(snapshot) = self.desk.status(&self.rt) {
            for (row, seen) in snapshot.rows.iter().zip(self.commits.iter()) {
                seen.store(row.counts.commit, Ordering::SeqCst);
            }
        }
    }
}

impl<L: Ledger + Send + Sync, R: Wait + Clock + Send + Sync> Gate for Meeting<L, R> {
    fn arrive(&self, lane: u32, round: u64) {
        let met = match lane {
            0 => self.meets(0, 1) && wait_for(&self.rt, &self.gone),
            _ => self.meets(1, 0),
        };
        if !met || round != 0 {
            self.alone.fetch_add(1, Ordering::SeqCst);
        }
        if lane == 0 {
            self.look();
        }
    }

    fn leave(&self, lane: u32, _round: u64) {
        if lane == 1 {
            self.gone.store(true, Ordering::SeqCst);
        }
    }
}

/// The works of partitions 1 and 0, handed over in this order.
fn two_works<T: PartitionTask>(
    alloc: Global,
    later: T::Artifacts,
    earlier: T::Artifacts,
) -> Option<Vec<Work<T>>>
    ensures { IfSome result (λ works. AllCanBegin T.task_state works.items) }
{
    let [row, later_row] = fresh_rows();
    let later = task_of::<T>(1, later_row, RULES, 2, later)?;
    let earlier = task_of::<T>(0, row, RULES, 2, earlier)?;
    let works = with_work(Vec::new(alloc), 1, later)?;
    with_work(works, 0, earlier)
}

/// Whether these are the Dones of partitions 0 and 1, in this order, and the table has their rows.
fn are_in<T: PartitionTask>(dones: &[Done<T>], after: &Snapshot) -> bool {
    dones.len() == 2
        && after.rows.len() == 2
        && dones[0].task.partition() == 0
        && dones[1].task.partition() == 1
        && after.rows[0] == *dones[0].task.row()
        && after.rows[1] == *dones[1].task.row()
}

/// Whether a desk without a request for a stop takes one, and then a Stop.
fn takes_a_stop<L: Ledger>(rt: &impl Wait, desk: &Desk<L>) -> bool {
    let before = desk.is_stopping();
    desk.request_stop();
    let asked = desk.is_stopping();
    let stopped = desk.apply(rt, Event::Stop).is_ok();
    !before && asked && stopped && desk.status(rt).is_ok_and(|after| after.stopping)
}

/// Runs the works in one round, in which the lanes meet. Its Dones are in the table.
fn runs<
    L: Ledger + Send + Sync + 'static,
    T: PartitionTask + Send + 'static,
    R: Threads + Wait + Clock + Send + Sync,
>(way: Way, rt: &R, alloc: Global, gate: &Meeting<L, R>, works: Vec<Work<T>>) -> Option<Snapshot>
    requires ready { AllCanBegin T.task_state works.items }
{
    let desk = &*gate.desk;
    desk.apply(rt, Event::Plan(1, Certificate::FullLoad)).ok()?;
    let dones = run_round_in(way, desk, rt, alloc, gate, works).ok()?;
    let after = desk.status(rt).ok()?;
    if are_in(&dones, &after) {
        Some(after)
    } else {
        None
    }
}

fn text_of(alloc: Global, seen: &[u64; 3], after: &Snapshot) -> Result<String, AllocError> {
    let (events, plans, commits) = (after.events, after.plans, after.totals.commit);
    let [alone, first, second] = *seen;
    let stopping = after.stopping;
    format!(in alloc; "{alone} {first} {second}; {events} {plans} {commits} {stopping}")
}

/// The tasks of partitions 1 and 0, handed over in this order, meet in one round. Answers how often a lane waited in vain, and the Commits
/// that lane 0 saw. Of the table after the round it answers the events, the plans, the Commits, and whether a stop was requested. After it
/// the desk takes a stop.
fn meet<
    L: Ledger + Send + Sync + 'static,
    T: PartitionTask + Send + 'static,
    R: Threads + Wait + Clock + Copy + Send + Sync,
>(
    way: Way,
    rt: &R,
    alloc: Global,
    blank: Blank,
    later: T::Artifacts,
    earlier: T::Artifacts,
) -> Option<String>
    requires name { blank.name ≡ L.name }
    requires parts { blank.parts ≡ L.parts }
    requires all { blank.parts ≡ max_parts }
{
    let works = two_works::<T>(alloc, later, earlier)?;
    let desk = Desk::<L>::new(repository(alloc, &fresh_rows())?, blank);
    let gate = Meeting::new(*rt, Arc::new(alloc, desk).ok()?);
    let after = runs(way, rt, alloc, &gate, works)?;
    if takes_a_stop(rt, &gate.desk) {
        text_of(alloc, &gate.seen(), &after).ok()
    } else {
        None
    }
}

#[test]
fn two_lanes_meet(rt: HostRuntime) -> Result<(), Fail> {
    let alloc = rt.alloc();
    for way in BOTH_WAYS {
        let boxed = boxes(alloc)?;
        let later = Artifacts {
            reader: boxed.reader,
            processor: boxed.processor,
            writer: boxed.writer,
            collector: boxed.collector,
        };
        let boxed = boxes(alloc)?;
        let earlier = Artifacts {
            reader: boxed.reader,
            processor: boxed.processor,
            writer: boxed.writer,
            collector: boxed.collector,
        };
        let blank = Blank::new(MAX_PARTS);
        let met = meet::<Brand, Task, _>(way, &rt, alloc, blank, later, earlier);
        assert_text(&rt, met.ok_or("a round")?.as_str(), "0 0 1; 6 1 2 false");
    }
    Ok(())
}
