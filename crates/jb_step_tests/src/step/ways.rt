//! A step, over new threads in each round or over one pool for all of them.

use crate::step::lacking::Lacking;
use crate::way::Way;
use jb_chunk::PartitionTask;
use jb_collect::ListAnalyzer;
use jb_step::{Prepared, StepEnd, StepError, run_step, run_step_by};
use jb_workers::{Desk, Gate, Pool, start_pool};
use std::alloc::Global;
use std::sync::Wait;
use std::sync::ledger::Ledger;
use std::thread;
use std::thread::{Scope, Threads};

/// Runs the step in this way, for so many rounds at most; with none, to its end. Like the other one here it has no contract, so its callers
/// have short proofs.
pub(crate) fn run_in<
    'a,
    T: PartitionTask + Send + 'static,
    L: Ledger + Send + Sync + 'static,
    G: Gate + Sync,
    R: Threads + Wait + Sync,
>(
    way: Way,
    rt: &'a R,
    alloc: Global,
    desk: &'a Desk<L>,
    prepared: Prepared,
    artifacts: Vec<T::Artifacts>,
    analyzer: &'a mut ListAnalyzer,
    reducer: &'a mut Lacking,
    rounds: Option<u64>,
    gate: &'a G,
) -> Result<StepEnd<T::Artifacts>, StepError> {
    match way {
        Way::NewThreads => run_step::<T, L, G, R>(
            rt, alloc, desk, prepared, artifacts, analyzer, reducer, rounds, gate,
        ),
        Way::KeptWorkers => {
            let analyzer = &mut *analyzer;
            let reducer = &mut *reducer;
            thread::scope(
                thread::scope_env(),
                rt,
                move |scope| -> Result<StepEnd<T::Artifacts>, StepError> {
                    over_pool::<_, T, L, G, R>(
                        scope, rt, alloc, desk, prepared, artifacts, analyzer, reducer, rounds,
                        gate,
                    )
                },
            )
        }
    }
}

/// Runs it over a pool. Without memory for a pool, it runs without one.
fn over_pool<
    's,
    E,
    T: PartitionTask + Send + 'static + 's,
    L: Ledger + Send + Sync + 'static + 's,
    G: Gate + Sync + 's,
    R: Threads + Wait + Sync + 's,
>(
    scope: &Scope<'s, E>,
    rt: &'s R,
    alloc: Global,
    desk: &'s Desk<L>,
    prepared: Prepared,
    artifacts: Vec<T::Artifacts>,
    analyzer: &mut ListAnalyzer,
    reducer: &mut Lacking,
    rounds: Option<u64>,
    gate: &'s G,
) -> Result<StepEnd<T::Artifacts>, StepError> {
    let workers = prepared.workers();
    let mut pool = match start_pool(&*scope, &*desk, &*rt, alloc, &*gate, workers) {
        Ok(pool) => pool,
        Err(_) => Pool::empty(alloc),
    };
    let end = run_step_by::<T, L, G, R>(
        &mut pool, &*rt, alloc, &*desk, prepared, artifacts, analyzer, reducer, rounds, &*gate,
    );
    pool.end(&*desk, &*rt);
    end
}
