//! A round by a pool that is made for it.

ghost use Rattle.std.specs.Prelude.{IfOk, IfErr, OnOk};
ghost use Rattle.jb_repo.specs.declared.events.Event.TheVariants.{Round};
ghost use Rattle.jb_workers.specs.Lock.{IsAccepted};
ghost use Rattle.jb_workers.specs.Works.{AllCanBegin, RiseByPartition};
ghost use Rattle.jb_workers.specs.Round.{AreDones, AreRoundOf, IsRoundError};

use crate::desk::Desk;
use crate::gate::Gate;
use crate::pool::start_pool;
use crate::round::RoundError;
use crate::worker::lane_work::Work;
use jb_chunk::{Done, PartitionTask};
use std::alloc::Global;
use std::sync::Wait;
use std::sync::ledger::Ledger;
use std::thread;
use std::thread::{Scope, Threads};

/// Does the works in a scope of threads: none of them is left running.
pub(crate) fn in_scope<
    L: Ledger + Send + Sync + 'static,
    T: PartitionTask + Send + 'static,
    G: Gate + Sync,
    R: Threads + Wait + Sync,
>(
    desk: &Desk<L>,
    rt: &R,
    alloc: Global,
    gate: &G,
    works: Vec<Work<T>>,
) -> Result<Vec<Done<T>>, RoundError>
    requires { AllCanBegin T.task_state works.items }
    ensures round { IfOk result (λ dones. AreRoundOf T.task_state works.items dones.items) }
    ensures in_order { RiseByPartition T.task_state works.items → IfOk result (λ dones. AreDones T.task_state works.items dones.items) }
    ensures closed { OnOk result (IsAccepted Round) }
    ensures error { IfErr result (λ error. IsRoundError T.task_state works.items error) }
{
    thread::scope(
        thread::scope_env(),
        rt,
        |scope| -> Result<Vec<Done<T>>, RoundError>
            requires { AllCanBegin T.task_state works.items }
            ensures { IfOk result (λ dones. AreRoundOf T.task_state works.items dones.items)
                × (RiseByPartition T.task_state works.items → IfOk result (λ dones. AreDones T.task_state works.items dones.items))
                × OnOk result (IsAccepted Round)
                × IfErr result (λ error. IsRoundError T.task_state works.items error) }
        { by_new_pool(scope, desk, rt, alloc, gate, works) },
    )
}

/// Starts a worker for each work but one, does the works, and ends the workers.
fn by_new_pool<
    's,
    E,
    L: Ledger + Send + Sync + 's,
    T: PartitionTask + Send + 's,
    G: Gate + Sync + 's,
    R: Threads + Wait + Sync + 's,
>(
    scope: &Scope<'s, E>,
    desk: &'s Desk<L>,
    rt: &'s R,
    alloc: Global,
    gate: &'s G,
    works: Vec<Work<T>>,
) -> Result<Vec<Done<T>>, RoundError>
    requires { AllCanBegin T.task_state works.items }
    ensures round { IfOk result (λ dones. AreRoundOf T.task_state works.items dones.items) }
    ensures in_order { RiseByPartition T.task_state works.items → IfOk result (λ dones. AreDones T.task_state works.items dones.items) }
    ensures closed { OnOk result (IsAccepted Round) }
    ensures error { IfErr result (λ error. IsRoundError T.task_state works.items error) }
{
    let mut pool = start_pool(
        &*scope,
        &*desk,
        &*rt,
        alloc,
        &*gate,
        works.len().saturating_sub(1),
    )?;
    let dones = desk.run_round_by(&*rt, alloc, &*gate, &mut pool, works);
    pool.end(&*desk, &*rt);
    dones
}
