//! The repository: the opening rows, the history, and what the history says now.

ghost use Rattle.std.specs.Prelude.{◌≡◌, ◌+◌, ◌<◌, ◌≤◌, ◌++◌, ◌∷◌, [], None, reverse, OnOk, OnErr, IfOk, IfErr, vec_len, vec_capacity};
ghost use Rattle.jb_repo.specs.Rows.{total_counts};
ghost use Rattle.jb_repo.specs.Table.{refusal, after, with_room, rows_of, own_events, failure};
ghost use Rattle.jb_repo.specs.Answers.{IsRefusal, HasPlaces, places_of, needed};
ghost use Rattle.jb_repo.specs.Openable.{IsOpenable, IsReplayable, opened_journal};

use crate::events::Event;
use crate::laws::lower_laws;
use crate::projection::Projection;
use crate::refused::Refused;
use crate::snapshot::Snapshot;
use jb_base::ClassId;
use jb_rules::{Counts, Row};
use std::alloc::{AllocError, Global};
use std::marker::Model;

mod questions;
mod refusals;

/// The job repository of a step: the rows that it was opened with, the events that it accepted, and what they say now.
///
/// Jakarta Batch 2.1, "Job Repository", leaves open what a job repository stores. That it is the list of events, and which
/// events are accepted, is this project's own choice. Contracts see the opening rows, the threads, the item count, the
/// history, and for how many events there is memory. All else follows from these. No call walks the history: an event
/// costs the same however long it is, and a Plan or a snapshot as much as there are partitions. The history is copied only
/// when its memory grows, and by its growth that comes ever more rarely.
#[derive(Drop)]
pub struct Repo {
    opening: Vec<Row>,
    threads: u32,
    item_count: u64,
    history: Vec<Event>,
    projection: Projection,
}

impl Model for Repo {
    ghost use Rattle.jb_repo.specs.Table.{Journal};

    ghost Value = { Journal };

    ghost use Rattle.jb_repo.specs.Representation.{journal_of, IsRepresentation};

    ghost view = { journal_of };

    ghost invariant = { IsRepresentation };
}

impl Repo {
    ghost use Rattle.jb_repo.specs.Shown.{IsSnapshot};

    /// A repository of these rows, with no event yet. `can_open` is the test of its condition. It takes no memory.
    pub fn new(rows: Vec<Row>, threads: u32, item_count: u64) -> Self
        requires { IsOpenable (opened_journal rows.items threads item_count) }
        ensures { result ≡ opened_journal rows.items threads item_count }
    {
        let projection = Projection::new(rows.as_slice());
        let history = Vec::new(*rows.allocator());
        Repo {
            opening: rows,
            threads,
            item_count,
            history,
            projection,
        }
    }

    /// The events that were accepted, the oldest first.
    pub fn history(&self) -> &[Event]
        ensures events { result.now ≡ reverse self.now.past }
        ensures replayable { IsReplayable self.now }
        ensures places { HasPlaces self.now }
    {
        self.history.as_slice()
    }

    /// The sums of the rows' counts.
    pub fn totals(&self) -> Counts
        ensures { result ≡ total_counts (rows_of self.now) }
    {
        self.projection.totals
    }

    /// How many events of the history are the partition's own: its Begins, and the outcomes of the lanes that ran it. 0
    /// if there is no such partition.
    pub fn own_events(&self, partition: u32) -> u64
        ensures { result ≡ own_events self.now partition }
    {
        let index = partition as usize;
        if index < self.opening.len() {
            self.projection.own_events[index]
        } else {
            0
        }
    }

    /// The class of the partition's last Fail in the history. `None` if it has no Fail, as for a partition that had failed
    /// when the repository was opened, or if there is no such partition.
    pub fn failure(&self, partition: u32) -> Option<ClassId>
        ensures { result ≡ failure self.now partition }
    {
        if (partition as usize) < self.opening.len() {
            self.projection.failures.class_of(partition)
        } else {
            None
        }
    }

    /// The rows and totals now, the numbers of events and plans, and whether a stop was asked for. The only error is
    /// out of memory for the rows.
    pub fn snapshot(&self) -> Result<Snapshot, AllocError>
        ensures { IfOk result (λ snapshot. IsSnapshot self.now snapshot) }
    {
        let rows = Vec::from_slice(self.allocator(), self.rows_now())?;
        let totals = self.totals();
        Ok(Snapshot {
            rows,
            totals,
            events: self.history.len() as u64,
            plans: self.plans(),
            stopping: self.is_stopping(),
        })
    }

    pub(crate) fn allocator(&self) -> Global {
        *self.opening.allocator()
    }

    /// Accepts the event, or refuses it and changes nothing. If several refusals fit, the first is answered:
    ///
    /// - `Plan`: Stopping; StillRunning (a lane runs, or a plan is open); BadPlan; Full; Memory.
    /// - `Begin`: Stopping; NoPartition; LaneRange; LaneBusy (the lane started a chunk in this round); NotIdle (the
    ///   partition did, or is finished or failed); PastPlan (no plan is open); Full; Memory. Full: there are no two places, or
    ///   the partition has as many rollbacks as it may have, or no room for 100,000 repeats in place.
    /// - `Commit`: LaneRange; NotRunning; BadDelta (it isn't one of the next block, or comes after more than 100,000 repeats).
    /// - `Roll`, `Fail`: LaneRange; NotRunning; BadDelta (after more than 100,000 repeats). `Drop`: LaneRange; NotRunning.
    /// - `Round`: StillRunning; PastPlan; Full; Memory. `Stop`: Full; Memory.
    ///
    /// A Begin reserves the place of its outcome, so Commit, Roll, Fail and Drop take no memory. Memory is the answer only
    /// if there was less room than the event needs. If there was enough, the call takes no memory.
    pub fn apply(&mut self, event: Event) -> Result<(), Refused>
        ensures accepted { OnOk result ((refusal self.old event ≡ None) × (self.new ≡ after (with_room self.old self.new.room) event)) }
        ensures refused { IfErr result (λ refused. IsRefusal self.old event refused) }
        ensures unchanged { OnErr result (self.new ≡ self.old) }
        ensures replayable { IsReplayable self.new }
        ensures in_place { needed self.old event ≤ self.old.room → self.new.room ≡ self.old.room }
        ensures outcomes { places_of event ≡ 0 → self.new.room ≡ self.old.room }
        ensures places { HasPlaces self.new }
    {
        if let Some(refused) = self.refusal(event) {
            return Err(refused);
        }
        let asked = self.projection.reserved + event.places();
        if make_room(&mut self.history, asked).is_err() {
            return Err(Refused::Memory);
        }
        self.projection.note(event, self.item_count);
        put_last(&mut self.history, event);
        Ok(())
    }
}

/// Makes room for so many more events, if there isn't room for them.
fn make_room(history: &mut Vec<Event>, asked: usize) -> Result<(), AllocError>
    ensures items { history.new.items ≡ history.old.items }
    ensures len { vec_len history.new ≡ vec_len history.old }
    ensures room { OnOk result (vec_len history.new + asked ≤ vec_capacity history.new) }
    ensures in_place { vec_len history.old + asked ≤ vec_capacity history.old → vec_capacity history.new ≡ vec_capacity history.old }
    ensures full { OnErr result (vec_capacity history.old < vec_len history.old + asked) }
    ensures unchanged { OnErr result (vec_capacity history.new ≡ vec_capacity history.old) }
{
    if asked <= history.capacity() - history.len() {
        return Ok(());
    }
    history.reserve(asked)?;
    Ok(())
}

/// Puts the event at the end of the history, which has room for it.
fn put_last(history: &mut Vec<Event>, event: Event)
    requires { vec_len history.old < vec_capacity history.old }
    ensures items { history.new.items ≡ history.old.items ++ event ∷ [] }
    ensures room { vec_capacity history.new ≡ vec_capacity history.old }
{
    history.push_reserved(event);
}
