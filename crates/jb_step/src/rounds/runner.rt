//! The desk, as what runs the rounds of a step.

ghost use Rattle.std.specs.Prelude.{◌≡◌, true, IfOk};
ghost use Rattle.jb_step.specs.inside.rounds.Round.{AreWhole, had_memory};
ghost use Rattle.jb_workers.specs.Round.{AreDones};
ghost use Rattle.jb_workers.specs.Turns.{IsDoneOf};
ghost use Rattle.jb_workers.specs.Works.{AllCanBegin, CanBegin, RiseByPartition};

use crate::rounds::error::StepRunError;
use jb_cert::Certificate;
use jb_chunk::{Done, Outcome, PartitionTask};
use jb_repo::{Event, Refused, Snapshot};
use jb_workers::{Desk, Gate, Pool, Work};
use std::alloc::{AllocError, Global};
use std::sync::Wait;
use std::sync::ledger::Ledger;
use std::thread::Threads;

/// The task of a partition, as threads run it.
pub(crate) trait StepTask: PartitionTask + Send + 'static {}

impl<T: PartitionTask + Send + 'static> StepTask for T {}

/// The ledger of a desk that threads share.
pub(crate) trait StepLedger: Ledger + Send + Sync + 'static {}

impl<L: Ledger + Send + Sync + 'static> StepLedger for L {}

/// The gate by which they come.
pub(crate) trait StepGate: Gate + Sync {}

impl<G: Gate + Sync> StepGate for G {}

/// What starts them, and waits for them.
pub(crate) trait StepThreads: Threads + Wait + Sync {}

impl<R: Threads + Wait + Sync> StepThreads for R {}

/// A desk, whose rounds run in threads that come by a gate.
#[derive(Drop)]
pub(crate) struct RoundRunner<'a, L: Ledger, G, R> {
    pub desk: &'a Desk<L>,
    pub gate: &'a G,
    pub rt: &'a R,
}

impl<'a, L: StepLedger, G: StepGate, R: StepThreads> RoundRunner<'a, L, G, R> {
    /// Applies a Plan.
    pub(crate) fn plan(&self, rounds: u64, certificate: Certificate) -> Result<(), Refused> {
        self.desk.apply(self.rt, Event::Plan(rounds, certificate))
    }

    /// Applies a Stop.
    pub(crate) fn stop(&self) -> Result<(), Refused> {
        self.desk.apply(self.rt, Event::Stop)
    }

    /// Attempts the works' next chunks, each once and with memory, and closes the round. The pool does it, if it has a worker for each work
    /// but one. Otherwise the round starts threads. The attempts come in the order of the works.
    pub(crate) fn run_round<T: StepTask>(
        &self,
        alloc: Global,
        pool: &mut Pool<T, L>,
        works: Vec<Work<T>>,
    ) -> Result<Vec<Done<T>>, StepRunError>
        requires can { AllCanBegin T.task_state works.items }
        requires rise { RiseByPartition T.task_state works.items }
        ensures dones { IfOk result (λ dones. AreDones T.task_state works.items dones.items) }
        ensures whole { IfOk result (λ dones. AreWhole dones.items) }
    {
        let dones = if works.len() > pool.workers().saturating_add(1) {
            self.desk.run_round(self.rt, alloc, self.gate, works)?
        } else {
            self.desk
                .run_round_by(self.rt, alloc, self.gate, pool, works)?
        };
        if !are_whole(dones.as_slice()) {
            return Err(StepRunError::Memory);
        }
        Ok(dones)
    }

    /// Attempts the next chunk of one work in the caller's thread, with memory, and closes the round.
    pub(crate) fn run_one<T: PartitionTask>(
        &self,
        alloc: Global,
        only: Work<T>,
    ) -> Result<Done<T>, StepRunError>
        requires { CanBegin (T.task_state only.task) }
        ensures done { IfOk result (λ done. IsDoneOf T.task_state only done) }
        ensures whole { IfOk result (λ done. had_memory done.outcome ≡ true) }
    {
        let done = self.desk.run_one(self.rt, alloc, self.gate, only)?;
        if !is_whole(&done) {
            return Err(StepRunError::Memory);
        }
        Ok(done)
    }

    /// Whether a stop was asked for.
    pub(crate) fn is_stopping(&self) -> bool {
        self.desk.is_stopping()
    }

    /// The rows now, and what the history says as a whole.
    pub(crate) fn snapshot(&self) -> Result<Snapshot, AllocError> {
        self.desk.status(self.rt)
    }
}

// True if each attempt had memory.
fn are_whole<T: PartitionTask>(dones: &[Done<T>]) -> bool
    ensures { result ≡ true → AreWhole dones.now }
{
    for done in dones {
        if !is_whole(done) {
            return false;
        }
    }
    true
}

fn is_whole<T: PartitionTask>(done: &Done<T>) -> bool
    ensures { result ≡ had_memory done.now.outcome }
{
    match done.outcome {
        Outcome::NoMemory => false,
        Outcome::Committed(_) | Outcome::Rolled(_) | Outcome::Failed(_) => true,
    }
}
