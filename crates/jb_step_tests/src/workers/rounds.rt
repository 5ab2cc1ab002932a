//! A round, over new threads or over a pool.

ghost use Rattle.jb_workers.specs.Works.{AllCanBegin};

use crate::way::Way;
use jb_chunk::{Done, PartitionTask};
use jb_workers::{Desk, Gate, RoundError, Work, start_pool};
use std::alloc::Global;
use std::sync::Wait;
use std::sync::ledger::Ledger;
use std::thread;
use std::thread::{Scope, Threads};

/// Does the works of a round in this way. It promises nothing, so that its callers have short proofs.
pub(crate) fn run_round_in<
    L: Ledger + Send + Sync + 'static,
    T: PartitionTask + Send + 'static,
    G: Gate + Sync,
    R: Threads + Wait + Sync,
>(
    way: Way,
    desk: &Desk<L>,
    rt: &R,
    alloc: Global,
    gate: &G,
    works: Vec<Work<T>>,
) -> Result<Vec<Done<T>>, RoundError>
    requires { AllCanBegin T.task_state works.items }
{
    match way {
        Way::NewThreads => desk.run_round(rt, alloc, gate, works),
        Way::KeptWorkers => thread::scope(
            thread::scope_env(),
            rt,
            |scope| -> Result<Vec<Done<T>>, RoundError>
                requires { AllCanBegin T.task_state works.items }
            { over_pool(scope, desk, rt, alloc, gate, works) },
        ),
    }
}

/// Does the works over a pool that has a worker to spare.
fn over_pool<
    's,
    E,
    L: Ledger + Send + Sync + 's,
    T: PartitionTask + Send + 's,
    G: Gate + Sync + 's,
    R: Threads + Wait + Sync + 's,
>(
    scope: &Scope<'s, E>,
    desk: &'s Desk<L>,
    rt: &'s R,
    alloc: Global,
    gate: &'s G,
    works: Vec<Work<T>>,
) -> Result<Vec<Done<T>>, RoundError>
    requires { AllCanBegin T.task_state works.items }
{
    let mut pool = start_pool(&*scope, &*desk, &*rt, alloc, &*gate, works.len())?;
    let dones = desk.run_round_by(&*rt, alloc, &*gate, &mut pool, works);
    pool.end(&*desk, &*rt);
    dones
}
