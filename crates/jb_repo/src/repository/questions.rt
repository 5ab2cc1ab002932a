//! What the rest of the repository asks, answered by what is stored beside the history.

ghost use Rattle.std.specs.Prelude.{◌≡◌, ◌<◌, ◌≤◌, length, IfSome};
ghost use Rattle.jb_repo.specs.History.{owner, number, is_plan, is_stopping, is_plan_open, is_lane_marked, is_partition_marked};
ghost use Rattle.jb_repo.specs.Rows.{total_counts};
ghost use Rattle.jb_repo.specs.inside.Fit.{CountsFit};
ghost use Rattle.jb_repo.specs.Sound.{IsTable};
ghost use Rattle.jb_repo.specs.Table.{rows_of, row_of, reserved, is_full, is_good_plan, is_good_commit};
ghost use Rattle.jb_rules.specs.Sound.{IsSoundRow};

use crate::laws::lower_laws;
use crate::repository::Repo;
use crate::steps::is_commit;
use crate::table::remaining_counts;
use jb_base::{MAX_EVENTS, MAX_PARTITIONS};
use jb_cert::{Certificate, is_least_plan};
use jb_rules::{Counts, Row};

impl Repo {
    /// The rows now.
    pub(super) fn rows_now(&self) -> &[Row]
        ensures rows { result.now ≡ rows_of self.now }
        ensures table { IsTable result.now (total_counts result.now) }
        ensures fit { CountsFit (total_counts result.now) }
    {
        lower_laws();
        &self.projection.rows[..self.opening.len()]
    }

    /// The row of a partition now.
    pub(super) fn row(&self, partition: u32) -> Option<Row>
        ensures row { result ≡ row_of self.now partition }
        ensures sound { IfSome result (λ row. IsSoundRow row) }
    {
        lower_laws();
        let index = partition as usize;
        if index < self.opening.len() {
            Some(self.projection.rows[index])
        } else {
            None
        }
    }

    /// How many lanes run: the places that are reserved for outcomes.
    pub(super) fn reserved(&self) -> usize
        ensures { result ≡ reserved self.now }
    {
        self.projection.reserved
    }

    /// Whether the history has not so many places left beside the reserved ones.
    pub(super) fn is_full(&self, places: usize) -> bool
        requires { places ≤ 2 }
        ensures { result ≡ is_full self.now places }
    {
        MAX_EVENTS < self.history.len() + self.projection.reserved + places
    }

    /// Whether the number of rounds is the least one for what is left, and the certificate holds.
    pub(super) fn is_good_plan(&self, rounds: u64, certificate: Certificate) -> bool
        ensures { result ≡ is_good_plan self.now rounds certificate }
    {
        lower_laws();
        let rows = self.rows_now();
        let mut counts = [0; MAX_PARTITIONS];
        remaining_counts(rows, self.item_count, &mut counts);
        is_least_plan(&counts[..rows.len()], self.threads, rounds, certificate)
    }

    /// Whether the delta and the number written are those of a commit of the partition that the lane runs.
    pub(super) fn is_good_commit(&self, lane: u32, delta: Counts, written: u64) -> bool
        requires { lane < self.now.threads }
        ensures { result ≡ is_good_commit self.now (owner lane self.now.past) delta written }
    {
        let Some(partition) = self.owner(lane) else {
            return false;
        };
        match self.row(partition) {
            Some(row) => is_commit(row, delta, written, self.item_count),
            None => false,
        }
    }

    /// How many events are plans.
    pub(super) fn plans(&self) -> u64
        ensures { result ≡ number is_plan self.now.past }
    {
        self.projection.plan.count
    }

    /// Whether a stop was asked for.
    pub(super) fn is_stopping(&self) -> bool
        ensures { result ≡ is_stopping self.now.past }
    {
        self.projection.plan.stopping
    }

    /// Whether a plan is open.
    pub(super) fn is_plan_open(&self) -> bool
        ensures { result ≡ is_plan_open self.now.past }
    {
        self.projection.plan.is_open()
    }

    /// The partition that a lane runs, if it runs one.
    pub(super) fn owner(&self, lane: u32) -> Option<u32>
        requires { lane < self.now.threads }
        ensures { result ≡ owner lane self.now.past }
    {
        self.projection.owners.owner(lane)
    }

    /// Whether the lane started a chunk in this round.
    pub(super) fn is_lane_marked(&self, lane: u32) -> bool
        requires { lane < self.now.threads }
        ensures { result ≡ is_lane_marked lane self.now.past }
    {
        self.projection.marks.has_lane(lane)
    }

    /// Whether a chunk of the partition was started in this round.
    pub(super) fn is_partition_marked(&self, partition: u32) -> bool
        requires { partition < length self.now.opening }
        ensures { result ≡ is_partition_marked partition self.now.past }
    {
        self.projection.marks.has_partition(partition)
    }
}
