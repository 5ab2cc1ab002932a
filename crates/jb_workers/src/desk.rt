//! A repository under one lock.

ghost use Rattle.std.specs.Prelude.{◌≡◌, ◌+◌, ◌<◌, ◌||◌, [], true, false, OnOk, OnErr, IfOk, IfErr, IfSome};
ghost use Rattle.std.specs.Option.{IfNone};
ghost use Rattle.jb_base.specs.Limits.{max_parts};
ghost use Rattle.jb_repo.specs.declared.events.Event.TheVariants.{Begin, Round};
ghost use Rattle.jb_repo.specs.History.{is_plan, is_stop, is_round};
ghost use Rattle.jb_workers.specs.Events.{commit_in};
ghost use Rattle.jb_workers.specs.Lock.{IsSeen, IsLastFail, IsAccepted, IsRefused};

pub(crate) mod parts;
pub(crate) mod state;

use crate::desk::parts::Parts;
use crate::desk::state::DeskState;
use jb_base::{ClassId, MAX_PARTS};
use jb_repo::{Event, Refused, Repo, Snapshot};
use std::alloc::AllocError;
use std::sync::atomic::{AtomicBool, Ordering};
use std::sync::ledger::{Blank, Ledger, Share};
use std::sync::{Mutex, Wait};

/// A repository under one lock, with the book of its commits, and a stop flag beside it.
///
/// Each time that the lock is got, the history is accepted, the rows are those after it, and the book's number is its
/// number of Commits. A thread that waits for the lock waits for one that applies an event or copies the table.
/// That one waits for nobody.
#[derive(Drop)]
pub struct Desk<L: Ledger> {
    state: Mutex<DeskState<L>>,
    stopping: AtomicBool,
}

impl<L: Ledger> Desk<L> {
    /// A desk over a repository with no event yet, and the ledger of its commits, which has `MAX_PARTS` parts.
    pub fn new(repo: Repo, blank: Blank) -> Desk<L>
        requires name { blank.name ≡ L.name }
        requires parts { blank.parts ≡ L.parts }
        requires all { blank.parts ≡ max_parts }
        requires empty { repo.past ≡ [] }
    {
        Desk::with_parts(repo, blank, MAX_PARTS)
    }

    /// The same with a ledger of so many parts. Each worker holds one, so no more of them work at once.
    pub fn with_parts(repo: Repo, blank: Blank, number: u64) -> Desk<L>
        requires name { blank.name ≡ L.name }
        requires parts { blank.parts ≡ L.parts }
        requires all { blank.parts ≡ number }
        requires empty { repo.past ≡ [] }
    {
        let (book, share) = blank.open::<L>();
        let spare = Parts::new(share, number);
        Desk {
            state: Mutex::new(DeskState::new(repo, book, spare)),
            stopping: AtomicBool::new(false),
        }
    }

    /// Asks for a stop. It waits for nobody: it stores one flag.
    pub fn request_stop(&self) {
        self.stopping.store(true, Ordering::SeqCst);
    }

    /// Whether a stop was asked for.
    pub fn is_stopping(&self) -> bool {
        self.stopping.load(Ordering::SeqCst)
    }

    /// The table at some moment. The only error: out of memory for its rows.
    pub fn status<R: Wait>(&self, rt: &R) -> Result<Snapshot, AllocError>
        ensures { IfOk result (λ snapshot. IsSeen snapshot) }
    {
        self.state.lock(rt).snapshot()
    }

    /// The class of the partition's last Fail, at some moment, or `None` if it has no Fail.
    pub fn failure<R: Wait>(&self, rt: &R, partition: u32) -> Option<ClassId>
        ensures { IsLastFail partition result }
    {
        self.state.lock(rt).failure(partition)
    }

    /// Applies a Plan or a Stop.
    pub fn apply<R: Wait>(&self, rt: &R, event: Event) -> Result<(), Refused>
        requires { is_plan event || is_stop event ≡ true }
        ensures accepted { OnOk result (IsAccepted event) }
        ensures refused { IfErr result (λ refused. IsRefused event refused) }
    {
        self.state.lock(rt).apply(event)
    }

    /// A part of the book for a worker of the caller's own, who does a `work` with it; `None` where no part is left.
    pub fn take_share<R: Wait>(&self, rt: &R) -> Option<Share<L>>
        ensures { IfSome result (λ share. share.parts ≡ 1) }
    {
        let mut part = self.take_parts(rt, 1)?;
        Some(part.take_one())
    }

    /// Takes a worker's part back.
    pub fn give_back<R: Wait>(&self, rt: &R, share: Share<L>)
        requires { share.parts ≡ 1 }
    {
        self.put_back(rt, Parts::new(share, 1));
    }

    /// So many of the parts that no worker holds; `None` where there are fewer.
    pub(crate) fn take_parts<R: Wait>(&self, rt: &R, number: u64) -> Option<Parts<L>>
        ensures number { IfSome result (λ parts. parts.number ≡ number) }
        ensures few { IfNone result (0 < number) }
    {
        self.state.lock(rt).spare.take(number)
    }

    pub(crate) fn put_back<R: Wait>(&self, rt: &R, parts: Parts<L>) {
        self.state.lock(rt).spare.merge(parts);
    }

    /// Begins the partition's next chunk on the lane, and answers the number of the round.
    pub(crate) fn begin<R: Wait>(&self, rt: &R, lane: u32, partition: u32) -> Result<u64, Refused>
        ensures accepted { OnOk result (IsAccepted (Begin lane partition)) }
        ensures refused { IfErr result (λ refused. IsRefused (Begin lane partition) refused) }
    {
        self.state.lock(rt).begin(lane, partition)
    }

    /// Gives the lane's chunk up.
    pub(crate) fn give_up<R: Wait>(&self, rt: &R, lane: u32) {
        let _ = self.state.lock(rt).apply(Event::Drop(lane));
    }

    /// Applies the event of the lane's attempt, or Drop where it is refused.
    pub(crate) fn end<R: Wait>(
        &self,
        rt: &R,
        lane: u32,
        event: Event,
        mine: &mut Share<L>,
    ) -> Result<(), Refused>
        requires part { 0 < mine.old.parts }
        requires no_round { is_round event ≡ false }
        ensures parts { mine.new.parts ≡ mine.old.parts }
        ensures ok { OnOk result (mine.new.amount ≡ mine.old.amount + commit_in event) }
        ensures err { OnErr result (mine.new.amount ≡ mine.old.amount) }
        ensures accepted { OnOk result (IsAccepted event) }
        ensures refused { IfErr result (λ refused. IsRefused event refused) }
    {
        self.state.lock(rt).end(lane, event, mine)
    }

    /// Applies Round.
    pub(crate) fn close_round<R: Wait>(&self, rt: &R) -> Result<(), Refused>
        ensures accepted { OnOk result (IsAccepted Round) }
        ensures refused { IfErr result (λ refused. IsRefused Round refused) }
    {
        self.state.lock(rt).close_round()
    }
}
