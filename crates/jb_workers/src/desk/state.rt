//! What lies under the lock.

ghost use Rattle.std.specs.Prelude.{◌≡◌, ◌+◌, ◌<◌, [], false, OnOk, OnErr, IfOk, IfErr};
ghost use Rattle.jb_repo.specs.declared.events.Event.TheVariants.{Begin, Round};
ghost use Rattle.jb_repo.specs.History.{is_commit_event, is_round, number};
ghost use Rattle.jb_repo.specs.Table.{after, with_room, failure};
ghost use Rattle.jb_workers.specs.Events.{commits, commit_in};
ghost use Rattle.jb_workers.specs.Lock.{IsBooked, IsSeen, IsLastFail, IsAccepted, IsRefused};

use crate::desk::parts::Parts;
use crate::worker::entry::commits_in;
use jb_base::ClassId;
use jb_repo::{Event, Refused, Repo, Snapshot};
use std::alloc::AllocError;
use std::sync::ledger::{Book, Ledger, Share};

/// The repository, the book of its commits, the parts of the book that no worker holds, and the number of rounds that
/// are over.
///
/// The repository itself keeps that its history is accepted and that its rows are those after it.
#[derive(Drop)]
pub(crate) struct DeskState<L: Ledger> {
    repo: Repo,
    book: Book<L>,
    pub(crate) spare: Parts<L>,
    rounds: u64,
    ghost booked: { book.total ≡ commits repo.past },
    ghost numbered: { rounds ≡ number is_round repo.past },
}

impl<L: Ledger> DeskState<L> {
    pub(crate) fn new(repo: Repo, book: Book<L>, spare: Parts<L>) -> DeskState<L>
        requires empty { repo.past ≡ [] }
        requires none { book.total ≡ 0 }
        ensures { (result.repo ≡ repo) × (result.spare ≡ spare) }
    {
        DeskState {
            repo,
            book,
            spare,
            rounds: 0,
        }
    }

    /// The table as it is now.
    pub(crate) fn snapshot(&self) -> Result<Snapshot, AllocError>
        ensures seen { IfOk result (λ snapshot. IsSeen snapshot) }
        ensures booked { IsBooked self.now.repo self.now.book.total }
    {
        let _history = self.repo.history();
        self.repo.snapshot()
    }

    /// The class of the partition's last Fail, if it has one.
    pub(crate) fn failure(&self, partition: u32) -> Option<ClassId>
        ensures class { result ≡ failure self.now.repo partition }
        ensures seen { IsLastFail partition result }
    {
        let _history = self.repo.history();
        self.repo.failure(partition)
    }

    /// Applies an event that is neither Commit nor Round.
    pub(crate) fn apply(&mut self, event: Event) -> Result<(), Refused>
        requires no_commit { is_commit_event event ≡ false }
        requires no_round { is_round event ≡ false }
        ensures ok { OnOk result (self.new.repo ≡ after (with_room self.old.repo self.new.repo.room) event) }
        ensures err { OnErr result (self.new.repo ≡ self.old.repo) }
        ensures accepted { OnOk result (IsAccepted event) }
        ensures refused { IfErr result (λ refused. IsRefused event refused) }
    {
        let _history = self.repo.history();
        self.repo.apply(event)
    }

    /// Begins the partition's next chunk on the lane, and answers the number of the round.
    pub(crate) fn begin(&mut self, lane: u32, partition: u32) -> Result<u64, Refused>
        ensures ok { IfOk result (λ round. (self.new.repo ≡ after (with_room self.old.repo self.new.repo.room) (Begin lane partition)) × (round ≡ number is_round self.old.repo.past)) }
        ensures err { OnErr result (self.new.repo ≡ self.old.repo) }
        ensures accepted { OnOk result (IsAccepted (Begin lane partition)) }
        ensures refused { IfErr result (λ refused. IsRefused (Begin lane partition) refused) }
    {
        self.apply(Event::Begin(lane, partition))?;
        Ok(self.rounds)
    }

    /// Applies an event that is no Round, and counts it in the book and in the caller's share where it is a Commit.
    fn enter(&mut self, event: Event, mine: &mut Share<L>) -> Result<(), Refused>
        requires part { 0 < mine.old.parts }
        requires no_round { is_round event ≡ false }
        ensures parts { mine.new.parts ≡ mine.old.parts }
        ensures ok { OnOk result ((self.new.repo ≡ after (with_room self.old.repo self.new.repo.room) event) × (mine.new.amount ≡ mine.old.amount + commit_in event)) }
        ensures err { OnErr result ((self.new.repo ≡ self.old.repo) × (mine.new.amount ≡ mine.old.amount)) }
        ensures accepted { OnOk result (IsAccepted event) }
        ensures refused { IfErr result (λ refused. IsRefused event refused) }
    {
        let DeskState { repo, book, .. } = self;
        let _history = repo.history();
        repo.apply(event)?;
        book.add(mine, commits_in(event));
        Ok(())
    }

    /// Applies the event of the lane's attempt, or Drop where it is refused.
    pub(crate) fn end(
        &mut self,
        lane: u32,
        event: Event,
        mine: &mut Share<L>,
    ) -> Result<(), Refused>
        requires part { 0 < mine.old.parts }
        requires no_round { is_round event ≡ false }
        ensures parts { mine.new.parts ≡ mine.old.parts }
        ensures ok { OnOk result ((self.new.repo ≡ after (with_room self.old.repo self.new.repo.room) event) × (mine.new.amount ≡ mine.old.amount + commit_in event)) }
        ensures err { OnErr result (mine.new.amount ≡ mine.old.amount) }
        ensures accepted { OnOk result (IsAccepted event) }
        ensures refused { IfErr result (λ refused. IsRefused event refused) }
    {
        if let Err(refused) = self.enter(event, mine) {
            let _ = self.apply(Event::Drop(lane));
            return Err(refused);
        }
        Ok(())
    }

    /// Applies Round, and counts it.
    #[tactic(auto, using(crate::proofs::Rounds::few_rounds))]
    pub(crate) fn close_round(&mut self) -> Result<(), Refused>
        ensures ok { OnOk result (self.new.repo ≡ after (with_room self.old.repo self.new.repo.room) Round) }
        ensures err { OnErr result (self.new.repo ≡ self.old.repo) }
        ensures accepted { OnOk result (IsAccepted Round) }
        ensures refused { IfErr result (λ refused. IsRefused Round refused) }
    {
        let DeskState { repo, rounds, .. } = self;
        let _events = repo.history().len();
        repo.apply(Event::Round)?;
        *rounds += 1;
        Ok(())
    }
}
