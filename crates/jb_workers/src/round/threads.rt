//! Works done at once: each by a worker of the pool, but the first, which the caller's thread does. A single work is done there alone.

ghost use Rattle.std.specs.Prelude.{◌≡◌, ◌+◌, ◌≤◌, ◌<◌, ◌∷◌, [], false, IfOk, IfErr, OnOk, vec_len};
ghost use Rattle.jb_workers.specs.Works.{CanBegin, AllCanBegin};
ghost use Rattle.jb_workers.specs.Round.{AreReports, is_refusal};
ghost use Rattle.jb_workers.specs.declared.round.error.RoundError.TheVariants.{Memory};

use crate::desk::Desk;
use crate::desk::parts::Parts;
use crate::gate::Gate;
use crate::pool::Pool;
use crate::round::RoundError;
use crate::round::report::{Report, with_report};
use crate::worker::lane_work::Work;
use crate::worker::work;
use jb_chunk::PartitionTask;
use std::alloc::Global;
use std::sync::Wait;
use std::sync::ledger::Ledger;

/// Does a work in the caller's thread, and reports on it.
fn do_here<L: Ledger, T: PartitionTask, G: Gate, R: Wait>(
    desk: &Desk<L>,
    rt: &R,
    alloc: Global,
    gate: &G,
    only: Work<T>,
    parts: &mut Parts<L>,
) -> Result<Vec<Report<T>>, RoundError>
    requires can { CanBegin (T.task_state only.task) }
    requires part { 0 < parts.old.number }
    ensures reports { IfOk result (λ reports. AreReports T.task_state (only ∷ []) reports.items) }
    ensures err { IfErr result (λ error. error ≡ Memory) }
{
    let lane = only.lane;
    let Ok(none) = Vec::with_capacity(alloc, 1) else {
        return Err(RoundError::Memory);
    };
    let share = parts.take_one();
    let (done, share) = work(desk, rt, alloc, gate, only, share);
    parts.put_back(share);
    with_report(none, lane, done)
}

/// Asks a worker for each work but the first, the last work's first; does the first work itself; and waits for the workers.
pub(crate) fn do_works<L: Ledger, T: PartitionTask, G: Gate, R: Wait>(
    desk: &Desk<L>,
    rt: &R,
    alloc: Global,
    gate: &G,
    pool: &mut Pool<T, L>,
    mut works: Vec<Work<T>>,
    parts: &mut Parts<L>,
) -> Result<Vec<Report<T>>, RoundError>
    requires can { AllCanBegin T.task_state works.items }
    requires workers { vec_len works ≤ pool.old + 1 }
    requires part { 0 < parts.old.number }
    ensures reports { IfOk result (λ reports. AreReports T.task_state works.items reports.items) }
    ensures err { IfErr result (λ error. is_refusal error ≡ false) }
    ensures kept { OnOk result (pool.new ≡ pool.old) }
{
    let Some(next) = works.pop() else {
        return Ok(Vec::new(alloc));
    };
    if works.is_empty() {
        return do_here(desk, rt, alloc, gate, next, parts);
    }
    let lane = next.lane;
    let Some(worker) = pool.idle.pop() else {
        unreachable!();
    };
    let asked = worker.ask(rt, next);
    let before = do_works(desk, rt, alloc, gate, pool, works, parts);
    let (answer, worker) = asked.wait(rt);
    if pool.idle.push(worker).is_err() {
        return Err(RoundError::Memory);
    }
    let before = before?;
    let Some(done) = answer else {
        return Err(RoundError::WorkerNotStarted);
    };
    let reports = with_report(before, lane, done)?;
    Ok(reports)
}
