//! The caller's end of a mailbox, before and after it asked for a work.

ghost use Rattle.std.specs.Prelude.{◌≡◌, true, false, None, Some, IfSome};
ghost use Rattle.std.specs.Arc.{arc_value};
ghost use Rattle.crossbeam_queue.specs.Passes.{view, IsPassOf};
ghost use Rattle.jb_workers.specs.Works.{CanBegin};
ghost use Rattle.jb_workers.specs.Turns.{MeetsWork};
ghost use Rattle.jb_workers.specs.inside.Mailboxes.{known};

use crate::pool::mailbox::{End, Mailbox, Message};
use crate::round::RoundError;
use crate::worker::lane_work::Work;
use jb_chunk::{Done, PartitionTask};
use std::snapshot::Snapshot;
use std::sync::atomic::Ordering;
use std::sync::{Arc, Wait};

/// A mailbox that is closed once this is dropped, so that its worker ends.
pub struct OpenMailbox<T: PartitionTask> {
    pub(crate) mailbox: Arc<Mailbox<T>>,
}

impl<T: PartitionTask> Drop for OpenMailbox<T> {
    fn drop(self) {
        let OpenMailbox { mailbox } = self;
        mailbox.closed.store(true, Ordering::SeqCst);
        mailbox.asked.give();
    }
}

/// A worker that waits for a work.
#[derive(Drop)]
pub struct IdleWorker<T: PartitionTask> {
    open: OpenMailbox<T>,
    end: End<T>,
    ghost of: { IsPassOf (arc_value open.mailbox).queue end },
    ghost idle: { view end ≡ known true false None },
}

/// A worker that was asked for a work. It can't be dropped: its caller waits for the answer.
pub struct BusyWorker<T: PartitionTask> {
    open: OpenMailbox<T>,
    end: End<T>,
    pub(crate) work: Snapshot<Work<T>>,
    ghost of: { IsPassOf (arc_value open.mailbox).queue end },
    ghost busy: { view end ≡ known true false (Some work.value) },
}

impl<T: PartitionTask> IdleWorker<T> {
    /// The worker at the other end of a mailbox.
    pub(crate) fn new(mailbox: Arc<Mailbox<T>>, end: End<T>) -> IdleWorker<T>
        requires { IsPassOf (arc_value mailbox).queue end × (view end ≡ known true false None) }
    {
        IdleWorker {
            open: OpenMailbox { mailbox },
            end,
        }
    }

    /// Asks for the work.
    pub(crate) fn ask<R: Wait>(self, rt: &R, work: Work<T>) -> BusyWorker<T>
        requires can { CanBegin (T.task_state work.task) }
        ensures work { result.work.value ≡ work }
    {
        let IdleWorker { open, mut end } = self;
        let asked = Snapshot::of(&work);
        open.mailbox.ask(rt, &mut end, work);
        BusyWorker {
            open,
            end,
            work: asked,
        }
    }
}

/// Waits for the answer: `None` if the worker didn't take the work.
fn heard<R: Wait, T: PartitionTask>(
    rt: &R,
    mailbox: &Mailbox<T>,
    end: &mut End<T>,
    work: &Snapshot<Work<T>>,
) -> Option<Result<Done<T>, RoundError>>
    requires end { IsPassOf mailbox.now.queue end.old × (view end.old ≡ known true false (Some work.now.value)) }
    ensures end { IsPassOf mailbox.now.queue end.new × (view end.new ≡ known true false None) }
    ensures meets { IfSome result (λ answer. MeetsWork T.task_state work.now.value answer) }
{
    // It waits for the worker's answer, which ends it. The worker answers each work that it was asked for.
    for _ in rt.forever() {
        match mailbox.hear(rt, end) {
            Some(Message::Answer(answer)) => return Some(answer),
            Some(Message::Ask(_)) => return None,
            None => {}
        }
    }
    unreachable!()
}

impl<T: PartitionTask> BusyWorker<T> {
    /// Waits for the answer: `None` if the worker didn't take the work.
    pub(crate) fn wait<R: Wait>(
        self,
        rt: &R,
    ) -> (Option<Result<Done<T>, RoundError>>, IdleWorker<T>)
        ensures meets { IfSome result.0 (λ answer. MeetsWork T.task_state self.work.value answer) }
    {
        let BusyWorker {
            open,
            mut end,
            work,
        } = self;
        let answer = heard(rt, &open.mailbox, &mut end, &work);
        (answer, IdleWorker { open, end })
    }
}
