//! A queue of one place between a caller and a worker: a work goes one way, its answer the other.

ghost use Rattle.std.specs.Prelude.{◌≡◌, true, false, None, Some, [], IfOk, IfSome};
ghost use Rattle.std.specs.Option.{IfNone};
ghost use Rattle.crossbeam_queue.specs.Passes.{view, IsPassOf, ruled_capacity};
ghost use Rattle.jb_workers.specs.Works.{CanBegin};
ghost use Rattle.jb_workers.specs.Turns.{MeetsWork};
ghost use Rattle.jb_workers.specs.inside.Mailboxes.{known, IsMailbox, AsksForAWork, Takes, AnswersAWork, Hears};

use crate::pool::signal::Signal;
use crate::round::RoundError;
use crate::worker::lane_work::Work;
use crossbeam_queue::protocol::{Lesson, Outcome, Protocol, Split};
use crossbeam_queue::{Pass, RuledArrayQueue};
use jb_chunk::{Done, PartitionTask};
use std::alloc::{AllocError, Global};
use std::snapshot::Snapshot;
use std::sync::Wait;
use std::sync::atomic::{AtomicBool, Ordering};

/// What lies in a mailbox.
#[derive(Drop)]
pub enum Message<T> {
    Ask(Work<T>),
    Answer(Result<Done<T>, RoundError>),
}

/// What one end of a mailbox knows: whose end it is, and the work that it asked for, or that it does. No value of it is made.
pub struct Known<T> {
    pub of_caller: bool,
    pub of_worker: bool,
    pub work: Option<Work<T>>,
}

/// The rule of a mailbox: one work at a time, and an answer is that of the work.
pub struct OneAtATime;

impl<T: PartitionTask> Protocol<Message<T>, Known<T>> for OneAtATime {
    ghost use Rattle.std.specs.Prelude.{true, None};
    ghost use Rattle.jb_workers.specs.inside.Mailboxes.{known, IsMailbox};

    ghost holds = { IsMailbox T.task_state };

    ghost first = { known true true None };
}

/// The caller's end and the worker's.
pub struct Ends;

impl<T> Split<Known<T>> for Ends {
    ghost use Rattle.std.specs.Prelude.{true, false};
    ghost use Rattle.jb_workers.specs.inside.Mailboxes.{known};

    ghost left = { λ v. known true false v.work };

    ghost right = { λ v. known false true v.work };
}

/// The caller asks for a work.
pub struct Asking;

impl<T: PartitionTask> Outcome<Message<T>, Known<T>> for Asking {
    ghost then = { AsksForAWork };
}

impl<T: PartitionTask> Lesson<Message<T>, Known<T>> for Asking {
    ghost fact = { λ v items. items ≡ [] };
}

/// The worker takes a work up.
pub struct Taking;

impl<T: PartitionTask> Outcome<Message<T>, Known<T>> for Taking {
    ghost then = { Takes T.task_state };
}

/// The worker answers.
pub struct Answering;

impl<T: PartitionTask> Outcome<Message<T>, Known<T>> for Answering {
    ghost then = { AnswersAWork };
}

impl<T: PartitionTask> Lesson<Message<T>, Known<T>> for Answering {
    ghost fact = { λ v items. items ≡ [] };
}

/// The caller hears the answer.
pub struct Hearing;

impl<T: PartitionTask> Outcome<Message<T>, Known<T>> for Hearing {
    ghost then = { Hears T.task_state };
}

type Queue<T> = RuledArrayQueue<Message<T>, Known<T>, OneAtATime>;

pub(crate) type End<T> = Pass<Message<T>, Known<T>>;

/// The queue, with a signal for each way. Once it is closed, its worker ends.
#[derive(Drop)]
pub struct Mailbox<T: PartitionTask> {
    pub(crate) queue: Queue<T>,
    pub(crate) asked: Signal,
    answered: Signal,
    pub(crate) closed: AtomicBool,
    ghost one: { ruled_capacity queue ≡ 1 },
}

impl<T: PartitionTask> Mailbox<T> {
    /// A mailbox, its caller's end and its worker's.
    pub(crate) fn new(alloc: Global) -> Result<(Mailbox<T>, End<T>, End<T>), AllocError>
        ensures caller { IfOk result (λ r. IsPassOf r.0.queue r.1 × (view r.1 ≡ known true false None)) }
        ensures worker { IfOk result (λ r. IsPassOf r.0.queue r.2 × (view r.2 ≡ known false true None)) }
    {
        let (queue, mut caller) = Queue::<T>::ruled(alloc, 1)?;
        let worker = queue.another::<Ends>(&mut caller);
        let mailbox = Mailbox {
            queue,
            asked: Signal::new(),
            answered: Signal::new(),
            closed: AtomicBool::new(false),
        };
        Ok((mailbox, caller, worker))
    }

    /// Asks for a work.
    pub(crate) fn ask<R: Wait>(&self, rt: &R, end: &mut End<T>, work: Work<T>)
        requires end { IsPassOf self.now.queue end.old × (view end.old ≡ known true false None) }
        requires can { CanBegin (T.task_state work.task) }
        ensures end { IsPassOf self.now.queue end.new × (view end.new ≡ known true false (Some work)) }
    {
        match self.queue.push_as::<Asking, R>(rt, end, Message::Ask(work)) {
            Ok(()) => self.asked.give(),
            Err(_) => unreachable!(),
        }
    }

    /// The answer to the work, if it is there once the worker has answered.
    pub(crate) fn hear<R: Wait>(&self, rt: &R, end: &mut End<T>) -> Option<Message<T>>
        requires end { IsPassOf self.now.queue end.old × (((view end.old).of_caller ≡ true) × ((view end.old).of_worker ≡ false)) }
        ensures end { IsPassOf self.now.queue end.new }
        ensures none { IfNone result (view end.new ≡ view end.old) }
        ensures some { IfSome result (λ x. Hears T.task_state (view end.old) x (view end.new)) }
    {
        self.answered.wait(rt);
        self.queue.try_pop_as::<Hearing>(end)
    }

    /// Waits for a work and takes it, or gives `None` if the mailbox was closed.
    pub(crate) fn take<R: Wait>(&self, rt: &R, end: &mut End<T>) -> Option<Work<T>>
        requires end { IsPassOf self.now.queue end.old × (view end.old ≡ known false true None) }
        ensures end { IsPassOf self.now.queue end.new }
        ensures none { IfNone result (view end.new ≡ known false true None) }
        ensures some { IfSome result (λ work. (view end.new ≡ known false true (Some work)) × CanBegin (T.task_state work.task)) }
    {
        self.asked.wait(rt);
        match self.queue.try_pop_as::<Taking>(end) {
            Some(Message::Ask(work)) => Some(work),
            Some(Message::Answer(_)) | None => None,
        }
    }

    /// Answers the work that was taken.
    pub(crate) fn answer<R: Wait>(
        &self,
        rt: &R,
        end: &mut End<T>,
        work: Snapshot<Work<T>>,
        answer: Result<Done<T>, RoundError>,
    )
        requires end { IsPassOf self.now.queue end.old × (view end.old ≡ known false true (Some work.value)) }
        requires meets { MeetsWork T.task_state work.value answer }
        ensures end { IsPassOf self.now.queue end.new × (view end.new ≡ known false true None) }
    {
        match self
            .queue
            .push_as::<Answering, R>(rt, end, Message::Answer(answer))
        {
            Ok(()) => self.answered.give(),
            Err(_) => unreachable!(),
        }
    }

    /// Whether it was closed.
    pub(crate) fn is_closed(&self) -> bool {
        self.closed.load(Ordering::SeqCst)
    }
}
