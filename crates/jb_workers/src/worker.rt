//! What one worker of a round does.

ghost use Rattle.std.specs.Prelude.{◌≡◌, ◌+◌, IfOk, IfErr, MatchResult};
ghost use Rattle.jb_workers.specs.Events.{commit_of};
ghost use Rattle.jb_workers.specs.Works.{CanBegin};
ghost use Rattle.jb_workers.specs.Turns.{IsDoneOf, IsKeptOut};

pub(crate) mod entry;
pub(crate) mod lane_work;

use crate::desk::Desk;
use crate::gate::Gate;
use crate::laws::attempts_fit;
use crate::round::RoundError;
use crate::worker::entry::event_of;
use crate::worker::lane_work::Work;
use jb_chunk::{Done, PartitionTask};
use jb_repo::{Refused, is_at_limit};
use std::alloc::Global;
use std::sync::Wait;
use std::sync::ledger::{Ledger, Share};

/// What one worker of a round does. It begins the task's next chunk on the desk, comes by the gate, attempts the chunk,
/// enters what came of it, and comes by the gate again. Its share of the book is one higher exactly if the Done is
/// Committed. The desk's lock is held while an event is applied, and not during the attempt.
///
/// The share is a part of the desk's book, as `Desk::take_share` gives it. Where Begin is refused, nothing else is done. Where
/// the task is at its limit of rollbacks or of repeats, Drop is entered in place of an attempt, and the refusal is Full. Where
/// the desk refuses what came of the attempt, or the attempt found no memory, Drop is entered.
pub fn work<L: Ledger, T: PartitionTask, G: Gate, R: Wait>(
    desk: &Desk<L>,
    rt: &R,
    alloc: Global,
    gate: &G,
    work: Work<T>,
    share: Share<L>,
) -> (Result<Done<T>, RoundError>, Share<L>)
    requires can { CanBegin (T.task_state work.task) }
    requires part { share.parts ≡ 1 }
    ensures done { IfOk result.0 (λ done. IsDoneOf T.task_state work done) }
    ensures kept_out { IfErr result.0 (λ error. IsKeptOut T.task_state work error) }
    ensures parts { result.1.parts ≡ 1 }
    ensures amount { MatchResult result.0 (λ done. result.1.amount ≡ share.amount + commit_of done.outcome) (λ error. result.1.amount ≡ share.amount) }
{
    let Work { lane, task } = work;
    let mut share = share;
    let round = match desk.begin(rt, lane, task.partition()) {
        Ok(round) => round,
        Err(refused) => return kept_out(refused, share),
    };
    gate.arrive(lane, round);
    if is_at_limit(task.row()) {
        desk.give_up(rt, lane);
        gate.leave(lane, round);
        return kept_out(Refused::Full, share);
    }
    let done = task.attempt(alloc);
    attempts_fit();
    let event = event_of(lane, done.outcome, done.task.row().written, done.again);
    let ended = desk.end(rt, lane, event, &mut share);
    gate.leave(lane, round);
    match ended {
        Ok(()) => (Ok(done), share),
        Err(refused) => kept_out(refused, share),
    }
}

/// The answer of a work that was refused for this reason, with its share.
fn kept_out<L: Ledger, T: PartitionTask>(
    refused: Refused,
    share: Share<L>,
) -> (Result<Done<T>, RoundError>, Share<L>)
    ensures { result ≡ (Err (RoundError.Refused refused), share) }
{
    (Err(RoundError::Refused(refused)), share)
}
