//! Workers that stay between rounds.
//!
//! - `mailbox`: the queue between a caller and a worker, and `signal`: the token by which they wait for each other.
//! - `caller`: the caller's end of it, and `serving`: what the worker does at the other one.

ghost use Rattle.std.specs.Prelude.{◌≡◌, ◌+◌, ◌≤◌, false, true, None, IfOk, IfErr, OnOk, OnErr};
ghost use Rattle.std.specs.Arc.{arc_value};
ghost use denote.Param.Send.{IsSync, IsSend};
ghost use Rattle.crossbeam_queue.specs.Passes.{view, IsPassOf};
ghost use Rattle.jb_workers.specs.inside.Mailboxes.{known};
ghost use Rattle.jb_workers.specs.declared.round.error.RoundError.TheVariants.{Memory};

pub(crate) mod caller;
pub(crate) mod mailbox;
mod serving;
mod signal;

use crate::desk::Desk;
use crate::gate::Gate;
use crate::pool::caller::IdleWorker;
use crate::pool::mailbox::Mailbox;
use crate::pool::serving::serve;
use crate::round::RoundError;
use core::thread::Stack;
use jb_chunk::PartitionTask;
use std::alloc::Global;
use std::marker::Model;
use std::sync::ledger::{Ledger, Share};
use std::sync::{Arc, Wait};
use std::thread::{Promise, PromisedHandle, Scope, Threads};

/// That a worker gives back its part of the book.
#[derive(Drop)]
struct GivesPart;

impl<L: Ledger> Promise<Share<L>> for GivesPart {
    ghost kept_by = { λ p r. r.parts ≡ 1 };
}

type Handle<L> = PromisedHandle<Share<L>, GivesPart>;

/// The bytes of a worker's stack. The C library keeps 40 MB of stacks for the next threads, and the stacks of 63 workers fit into that.
/// Larger stacks don't fit, such as the library's default of 8 MB: each would be requested from the system again.
const WORKER_STACK: usize = 512 * 1024;

/// Workers that stay between rounds: those that wait for a work, and their threads.
///
/// `start_pool` starts them in a scope of threads. It can't be dropped: `end` ends and joins them. Contracts see how many wait for a
/// work.
pub struct Pool<T: PartitionTask, L: Ledger> {
    pub(crate) idle: Vec<IdleWorker<T>>,
    threads: Vec<Handle<L>>,
}

impl<T: PartitionTask, L: Ledger> Model for Pool<T, L> {
    ghost use Rattle.std.specs.Prelude.{ℕ, vec_len};

    ghost Value = { ℕ };

    ghost view = { λ pool. vec_len pool.idle };
}

impl<T: PartitionTask, L: Ledger> Pool<T, L> {
    /// A pool with no worker.
    pub fn empty(alloc: Global) -> Pool<T, L>
        ensures { result ≡ 0 }
    {
        Pool {
            idle: Vec::new(alloc),
            threads: Vec::new(alloc),
        }
    }

    /// How many workers wait for a work.
    pub fn workers(&self) -> usize
        ensures { result ≡ self.now }
    {
        self.idle.len()
    }

    /// Ends the workers, joins their threads, and gives their parts of the book back to the desk.
    pub fn end<R: Threads + Wait>(self, desk: &Desk<L>, rt: &R) {
        let Pool { idle, threads } = self;
        drop(idle);
        // It waits for each thread. Their mailboxes are closed now, so each ends when it sees that.
        for thread in threads {
            let share = thread.join(rt);
            desk.give_back(rt, share);
        }
    }
}

/// A worker with a part of the book, and its thread. `Memory`, or `WorkerNotStarted` where no thread can be made, or the desk has no part
/// left for it. A part is lost only with a thread that can't be made.
fn start_one<
    's,
    E,
    L: Ledger + Send + Sync + 's,
    T: PartitionTask + Send + 's,
    G: Gate + Sync + 's,
    R: Threads + Wait + Sync + 's,
>(
    scope: &Scope<'s, E>,
    desk: &'s Desk<L>,
    rt: &'s R,
    alloc: Global,
    gate: &'s G,
) -> Result<(IdleWorker<T>, Handle<L>), RoundError> {
    let Ok((mailbox, ours, theirs)) = Mailbox::<T>::new(alloc) else {
        return Err(RoundError::Memory);
    };
    let Ok(mailbox) = Arc::new(alloc, mailbox) else {
        return Err(RoundError::Memory);
    };
    let Ok(shared) = Arc::try_clone(&mailbox) else {
        return Err(RoundError::Memory);
    };
    let Some(share) = desk.take_share(&*rt) else {
        return Err(RoundError::WorkerNotStarted);
    };
    let job = move || -> Share<L>
        requires { IsSync R.row × IsSync G.row × IsSend T.row × (share.parts ≡ 1) × IsPassOf (arc_value shared).queue theirs × (view theirs ≡ known false true None) }
        ensures { result.parts ≡ 1 }
    { serve(&*desk, &*rt, alloc, &*gate, &shared, theirs, share) };
    match Stack::new()
        .stack_size(WORKER_STACK)
        .spawn_scoped_with(scope, GivesPart, job)
    {
        Ok(thread) => Ok((IdleWorker::new(mailbox, ours), thread)),
        Err(_) => Err(RoundError::WorkerNotStarted),
    }
}

/// One worker more. `Memory`, or `WorkerNotStarted` where no thread can be made, or the desk has no part left for it.
fn add_worker<
    's,
    E,
    L: Ledger + Send + Sync + 's,
    T: PartitionTask + Send + 's,
    G: Gate + Sync + 's,
    R: Threads + Wait + Sync + 's,
>(
    scope: &Scope<'s, E>,
    desk: &'s Desk<L>,
    rt: &'s R,
    alloc: Global,
    gate: &'s G,
    pool: &mut Pool<T, L>,
) -> Result<(), RoundError>
    ensures more { OnOk result (pool.new ≡ pool.old + 1) }
    ensures same { OnErr result (pool.new ≡ pool.old) }
{
    if pool.idle.reserve(1).is_err() || pool.threads.reserve(1).is_err() {
        return Err(RoundError::Memory);
    }
    let (worker, thread) = start_one(&*scope, &*desk, &*rt, alloc, &*gate)?;
    if pool.threads.push(thread).is_err() || pool.idle.push(worker).is_err() {
        return Err(RoundError::Memory);
    }
    Ok(())
}

/// A pool of so many workers for rounds of the desk, or of fewer where a thread could not be made. They work in the scope of threads;
/// `Pool::end` ends them there, with the same desk.
///
/// # Errors
/// `Memory` alone; no worker is left running then.
pub fn start_pool<
    's,
    E,
    L: Ledger + Send + Sync + 's,
    T: PartitionTask + Send + 's,
    G: Gate + Sync + 's,
    R: Threads + Wait + Sync + 's,
>(
    scope: &Scope<'s, E>,
    desk: &'s Desk<L>,
    rt: &'s R,
    alloc: Global,
    gate: &'s G,
    workers: usize,
) -> Result<Pool<T, L>, RoundError>
    ensures few { IfOk result (λ pool. pool ≤ workers) }
    ensures err { IfErr result (λ error. error ≡ Memory) }
{
    let mut pool = Pool::empty(alloc);
    for _ in 0..workers {
        match add_worker(&*scope, &*desk, &*rt, alloc, &*gate, &mut pool) {
            Ok(()) => {}
            Err(RoundError::Memory) => {
                pool.end(&*desk, &*rt);
                return Err(RoundError::Memory);
            }
            Err(RoundError::WorkerNotStarted) | Err(RoundError::Refused(_)) => break,
        }
    }
    Ok(pool)
}
