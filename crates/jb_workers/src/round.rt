//! A round of works.

ghost use Rattle.std.specs.Prelude.{◌≡◌, ◌+◌, ◌≤◌, ◌∷◌, [], IfOk, IfErr, OnOk, length};
ghost use Rattle.jb_repo.specs.declared.events.Event.TheVariants.{Round};
ghost use Rattle.jb_workers.specs.Lock.{IsAccepted};
ghost use Rattle.jb_workers.specs.Turns.{IsDoneOf};
ghost use Rattle.jb_workers.specs.Works.{AllCanBegin, CanBegin, RiseByPartition};
ghost use Rattle.jb_workers.specs.Round.{AreDones, AreRoundOf, IsRoundError};

mod error;
mod order;
mod report;
mod scoped;
mod threads;

use crate::desk::Desk;
use crate::gate::Gate;
use crate::pool::Pool;
pub use crate::round::error::RoundError;
use crate::round::order::in_order;
use crate::round::report::all_done;
use crate::round::scoped::in_scope;
use crate::round::threads::do_works;
use crate::worker::lane_work::Work;
use crate::worker::work;
use jb_chunk::{Done, PartitionTask};
use std::alloc::Global;
use std::sync::Wait;
use std::sync::ledger::Ledger;
use std::thread::Threads;

impl<L: Ledger + Send + Sync + 'static> Desk<L> {
    /// Does one work in the caller's thread and each other work in its own thread, and then applies Round. A round of one work starts no
    /// thread. The attempts come by rising partition. If the works come so too, each attempt has the place of its work.
    pub fn run_round<T: PartitionTask + Send + 'static, G: Gate + Sync, R: Threads + Wait + Sync>(
        &self,
        rt: &R,
        alloc: Global,
        gate: &G,
        works: Vec<Work<T>>,
    ) -> Result<Vec<Done<T>>, RoundError>
        requires { AllCanBegin T.task_state works.items }
        ensures round { IfOk result (λ dones. AreRoundOf T.task_state works.items dones.items) }
        ensures in_order { RiseByPartition T.task_state works.items → IfOk result (λ dones. AreDones T.task_state works.items dones.items) }
        ensures closed { OnOk result (IsAccepted Round) }
        ensures error { IfErr result (λ error. IsRoundError T.task_state works.items error) }
    {
        if works.len() > 1 {
            return in_scope(self, rt, alloc, gate, works);
        }
        let mut empty = Pool::empty(alloc);
        let dones = self.run_round_by(rt, alloc, gate, &mut empty, works);
        empty.end(self, rt);
        dones
    }
}

impl<L: Ledger> Desk<L> {
    /// As `run_round`, but the pool's workers do the works, one each, and the caller's thread does one. A round of more works than that is
    /// refused with `WorkerNotStarted`, and none of its works is started.
    pub fn run_round_by<T: PartitionTask, G: Gate, R: Wait>(
        &self,
        rt: &R,
        alloc: Global,
        gate: &G,
        pool: &mut Pool<T, L>,
        works: Vec<Work<T>>,
    ) -> Result<Vec<Done<T>>, RoundError>
        requires { AllCanBegin T.task_state works.items }
        ensures round { IfOk result (λ dones. AreRoundOf T.task_state works.items dones.items) }
        ensures in_order { RiseByPartition T.task_state works.items → IfOk result (λ dones. AreDones T.task_state works.items dones.items) }
        ensures closed { OnOk result (IsAccepted Round) }
        ensures error { IfErr result (λ error. IsRoundError T.task_state works.items error) }
        ensures enough { OnOk result (length works.items ≤ pool.old + 1) }
        ensures kept { OnOk result (pool.new ≡ pool.old) }
    {
        let works = in_order(works)?;
        if works.len().saturating_sub(1) > pool.idle.len() {
            return Err(RoundError::WorkerNotStarted);
        }
        let Some(mut parts) = self.take_parts(rt, 1) else {
            return Err(RoundError::WorkerNotStarted);
        };
        let reports = do_works(self, rt, alloc, gate, pool, works, &mut parts);
        self.put_back(rt, parts);
        let reports = reports?;
        let dones = all_done(alloc, reports)?;
        match self.close_round(rt) {
            Ok(()) => Ok(dones),
            Err(refused) => Err(RoundError::Refused(refused)),
        }
    }
    /// As `run_round_by`, of one work, which the caller's thread does: it takes no memory for lists.
    pub fn run_one<T: PartitionTask, G: Gate, R: Wait>(
        &self,
        rt: &R,
        alloc: Global,
        gate: &G,
        only: Work<T>,
    ) -> Result<Done<T>, RoundError>
        requires { CanBegin (T.task_state only.task) }
        ensures done { IfOk result (λ done. IsDoneOf T.task_state only done) }
        ensures closed { OnOk result (IsAccepted Round) }
        ensures error { IfErr result (λ error. IsRoundError T.task_state (only ∷ []) error) }
    {
        let Some(share) = self.take_share(rt) else {
            return Err(RoundError::WorkerNotStarted);
        };
        let (done, share) = work(self, rt, alloc, gate, only, share);
        self.give_back(rt, share);
        let done = done?;
        match self.close_round(rt) {
            Ok(()) => Ok(done),
            Err(refused) => Err(RoundError::Refused(refused)),
        }
    }
}
