//! The table of refusals, memory aside.

ghost use Rattle.std.specs.Prelude.{◌≡◌, ◌<◌};
ghost use Rattle.jb_repo.specs.Table.{refusal, first_refusal, outcome_conditions, undone_conditions};

use crate::deltas::Delta;
use crate::events::Event;
use crate::refused::Refused;
use crate::repository::Repo;
use crate::table::{is_at_limit, is_ended};
use jb_base::MAX_RETRY_LIMIT;
use jb_cert::Certificate;

impl Repo {
    fn plan_refusal(&self, rounds: u64, certificate: Certificate) -> Option<Refused>
        ensures { result ≡ refusal self.now (Event.Plan rounds certificate) }
    {
        if self.is_stopping() {
            Some(Refused::Stopping)
        } else if self.reserved() > 0 || self.is_plan_open() {
            Some(Refused::StillRunning)
        } else if !self.is_good_plan(rounds, certificate) {
            Some(Refused::BadPlan)
        } else if self.is_full(1) {
            Some(Refused::Full)
        } else {
            None
        }
    }

    fn begin_refusal(&self, lane: u32, partition: u32) -> Option<Refused>
        ensures { result ≡ refusal self.now (Event.Begin lane partition) }
    {
        let row = self.row(partition);
        if self.is_stopping() {
            Some(Refused::Stopping)
        } else if partition as usize >= self.opening.len() {
            Some(Refused::NoPartition)
        } else if lane >= self.threads {
            Some(Refused::LaneRange)
        } else if self.is_lane_marked(lane) {
            Some(Refused::LaneBusy)
        } else if self.is_partition_marked(partition) || is_ended(row) {
            Some(Refused::NotIdle)
        } else if !self.is_plan_open() {
            Some(Refused::PastPlan)
        } else if self.is_full(2) || row.is_some_and(|row| is_at_limit(&row)) {
            Some(Refused::Full)
        } else {
            None
        }
    }

    fn commit_refusal(&self, lane: u32, delta: Delta, written: u32, again: u32) -> Option<Refused>
        ensures { result ≡ refusal self.now (Event.Commit lane delta written again) }
    {
        if lane >= self.threads {
            Some(Refused::LaneRange)
        } else if self.owner(lane).is_none() {
            Some(Refused::NotRunning)
        } else if !self.is_good_commit(lane, delta.counts(), u64::from(written))
            || u64::from(again) > MAX_RETRY_LIMIT
        {
            Some(Refused::BadDelta)
        } else {
            None
        }
    }

    /// A chunk that was rolled back, or failed, after so many repeats.
    fn undone_refusal(&self, lane: u32, again: u32) -> Option<Refused>
        ensures { result ≡ first_refusal (undone_conditions self.now lane again) }
    {
        if lane >= self.threads {
            Some(Refused::LaneRange)
        } else if self.owner(lane).is_none() {
            Some(Refused::NotRunning)
        } else if u64::from(again) > MAX_RETRY_LIMIT {
            Some(Refused::BadDelta)
        } else {
            None
        }
    }

    fn outcome_refusal(&self, lane: u32) -> Option<Refused>
        ensures { result ≡ first_refusal (outcome_conditions self.now lane) }
    {
        if lane >= self.threads {
            Some(Refused::LaneRange)
        } else if self.owner(lane).is_none() {
            Some(Refused::NotRunning)
        } else {
            None
        }
    }

    fn round_refusal(&self) -> Option<Refused>
        ensures { result ≡ refusal self.now Event.Round }
    {
        if self.reserved() > 0 {
            Some(Refused::StillRunning)
        } else if !self.is_plan_open() {
            Some(Refused::PastPlan)
        } else if self.is_full(1) {
            Some(Refused::Full)
        } else {
            None
        }
    }

    fn stop_refusal(&self) -> Option<Refused>
        ensures { result ≡ refusal self.now Event.Stop }
    {
        if self.is_full(1) {
            Some(Refused::Full)
        } else {
            None
        }
    }

    /// The first refusal of the table, memory aside.
    pub(super) fn refusal(&self, event: Event) -> Option<Refused>
        ensures { result ≡ refusal self.now event }
    {
        match event {
            Event::Plan(rounds, certificate) => self.plan_refusal(rounds, certificate),
            Event::Begin(lane, partition) => self.begin_refusal(lane, partition),
            Event::Commit(lane, delta, written, again) => {
                self.commit_refusal(lane, delta, written, again)
            }
            Event::Roll(lane, _, again) | Event::Fail(lane, _, again) => {
                self.undone_refusal(lane, again)
            }
            Event::Drop(lane) => self.outcome_refusal(lane),
            Event::Round => self.round_refusal(),
            Event::Stop => self.stop_refusal(),
        }
    }
}
