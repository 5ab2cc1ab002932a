//! A pool that is ended: its workers end with it, those that had a work and those that had none.

ghost use Rattle.std.specs.Prelude.{◌≡◌};
ghost use Rattle.jb_base.specs.Limits.{max_parts};
ghost use Rattle.jb_workers.specs.Works.{AllCanBegin};

use crate::workers::meeting::wait_for;
use crate::workers::most::{own_task, planned_desk, works};
use jb_base::MAX_PARTS;
use jb_chunk::PartitionTask;
use jb_workers::{Desk, NoGate, Work, start_pool};
use std::alloc::Global;
use std::marker::Brand;
use std::process::Abort;
use std::sync::Wait;
use std::sync::atomic::{AtomicBool, Ordering};
use std::sync::ledger::{Blank, Ledger};
use std::test::*;
use std::thread;
use std::thread::{Scope, Threads};
use std::time::Clock;

/// How many workers the pool should have: as many as a step can keep at work.
const WORKERS: usize = 63;

/// Starts the pool, does the works of a round over it, and ends it: the workers that waited for a work before and after the round.
fn ended<
    's,
    E,
    L: Ledger + Send + Sync + 's,
    T: PartitionTask + Send + 's,
    R: Threads + Wait + Sync + 's,
>(
    scope: &Scope<'s, E>,
    rt: &'s R,
    alloc: Global,
    desk: &'s Desk<L>,
    works: Vec<Work<T>>,
) -> Option<(usize, usize)>
    requires ready { AllCanBegin T.task_state works.items }
{
    let mut pool = start_pool(&*scope, &*desk, &*rt, alloc, &NoGate, WORKERS).ok()?;
    let before = pool.workers();
    let round = desk.run_round_by(&*rt, alloc, &NoGate, &mut pool, works);
    let behind = pool.workers();
    pool.end(&*desk, &*rt);
    round.ok()?;
    Some((before, behind))
}

/// Waits ten seconds for the pool's end. A pool that isn't ended by then ends the test.
fn watch<R: Clock + Abort>(rt: &R, is_over: &AtomicBool) {
    assert!(rt; wait_for(rt, is_over), "a worker outlives its pool");
}

/// The same while another thread waits for the pool's end.
fn ended_in_time<
    's,
    E,
    L: Ledger + Send + Sync + 's,
    T: PartitionTask + Send + 's,
    R: Threads + Wait + Clock + Abort + Sync + 's,
>(
    scope: &Scope<'s, E>,
    rt: &'s R,
    alloc: Global,
    desk: &'s Desk<L>,
    is_over: &'s AtomicBool,
    works: Vec<Work<T>>,
) -> Option<(usize, usize)>
    requires ready { AllCanBegin T.task_state works.items }
{
    let watcher = scope.spawn(move || watch(&*rt, &*is_over)).ok()?;
    let workers = ended(scope, rt, alloc, desk, works);
    is_over.store(true, Ordering::SeqCst);
    watcher.join(rt);
    workers
}

/// The same in its own scope.
fn in_scope<
    L: Ledger + Send + Sync + 'static,
    T: PartitionTask + Send + 'static,
    R: Threads + Wait + Clock + Abort + Sync,
>(rt: &R, alloc: Global, desk: &Desk<L>, works: Vec<Work<T>>) -> Option<(usize, usize)>
    requires ready { AllCanBegin T.task_state works.items }
{
    let is_over = AtomicBool::new(false);
    thread::scope(
        thread::scope_env(),
        rt,
        |scope| -> Option<(usize, usize)>
            requires { AllCanBegin T.task_state works.items }
        { ended_in_time(scope, rt, alloc, desk, &is_over, works) },
    )
}

/// The same on its own desk.
fn on_a_desk<
    L: Ledger + Send + Sync + 'static,
    T: PartitionTask + Send + 'static,
    R: Threads + Wait + Clock + Abort + Sync,
>(rt: &R, alloc: Global, blank: Blank, works: Vec<Work<T>>) -> Option<(usize, usize)>
    requires name { blank.name ≡ L.name }
    requires parts { blank.parts ≡ L.parts }
    requires all { blank.parts ≡ max_parts }
    requires ready { AllCanBegin T.task_state works.items }
{
    let desk = planned_desk::<L>(rt, alloc, blank, MAX_PARTS)?;
    in_scope(rt, alloc, &desk, works)
}

/// All workers wait for a work before the round and after it, and end with the pool: those that had a work, and those that had none.
#[test]
fn workers_end_with_their_pool(rt: HostRuntime) -> Result<(), Fail> {
    let alloc = rt.alloc();
    let works = works(alloc, 2, |lane| own_task(alloc, lane)).ok_or("works")?;
    let workers = on_a_desk::<Brand, _, _>(&rt, alloc, Blank::new(MAX_PARTS), works);
    let (before, behind) = workers.ok_or("workers")?;
    assert!(rt; before == WORKERS && behind == WORKERS);
    Ok(())
}
