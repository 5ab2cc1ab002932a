//! What a worker of a pool does between its start and its end.

ghost use Rattle.std.specs.Prelude.{◌≡◌, false, true, None, Some};
ghost use Rattle.crossbeam_queue.specs.Passes.{view, IsPassOf};
ghost use Rattle.jb_workers.specs.Works.{CanBegin};
ghost use Rattle.jb_workers.specs.inside.Mailboxes.{known};

use crate::desk::Desk;
use crate::gate::Gate;
use crate::pool::mailbox::{End, Mailbox};
use crate::worker::lane_work::Work;
use crate::worker::work;
use jb_chunk::PartitionTask;
use std::alloc::Global;
use std::snapshot::Snapshot;
use std::sync::Wait;
use std::sync::ledger::{Ledger, Share};

/// Does a work that was asked for, and answers.
fn do_asked<L: Ledger, T: PartitionTask, G: Gate, R: Wait>(
    desk: &Desk<L>,
    rt: &R,
    alloc: Global,
    gate: &G,
    mailbox: &Mailbox<T>,
    end: &mut End<T>,
    next: Work<T>,
    share: Share<L>,
) -> Share<L>
    requires end { IsPassOf mailbox.now.queue end.old × (view end.old ≡ known false true (Some next)) }
    requires can { CanBegin (T.task_state next.task) }
    requires part { share.parts ≡ 1 }
    ensures end { IsPassOf mailbox.now.queue end.new × (view end.new ≡ known false true None) }
    ensures part { result.parts ≡ 1 }
{
    let asked = Snapshot::of(&next);
    let (answer, share) = work(desk, rt, alloc, gate, next, share);
    mailbox.answer(rt, end, asked, answer);
    share
}

/// Does the works that are asked for, one after another, until the mailbox is closed; gives its part of the book back then.
pub(crate) fn serve<L: Ledger, T: PartitionTask, G: Gate, R: Wait>(
    desk: &Desk<L>,
    rt: &R,
    alloc: Global,
    gate: &G,
    mailbox: &Mailbox<T>,
    end: End<T>,
    share: Share<L>,
) -> Share<L>
    requires end { IsPassOf mailbox.now.queue end × (view end ≡ known false true None) }
    requires part { share.parts ≡ 1 }
    ensures { result.parts ≡ 1 }
{
    let mut end = end;
    let mut share = share;
    // It waits for the caller: for the token of a work, or for that of a closed mailbox, which ends it. The caller's end of the mailbox closes
    // it when it is dropped.
    for _ in rt.forever() {
        if let Some(next) = mailbox.take(rt, &mut end) {
            share = do_asked(desk, rt, alloc, gate, mailbox, &mut end, next, share);
        } else if mailbox.is_closed() {
            return share;
        }
    }
    unreachable!()
}
