//! A gate at which a lane asks for a stop.

use crate::lines::{has, number};
use jb_workers::{Desk, Gate};
use std::sync::ledger::Ledger;

/// Asks for a stop when this lane comes by in this round, as it begins or as it is done. Without a lane or a round it never does.
#[derive(Drop)]
pub(crate) struct Stopping<'a, L: Ledger> {
    desk: &'a Desk<L>,
    lane: u64,
    round: u64,
    leaving: bool,
}

impl<'a, L: Ledger> Stopping<'a, L> {
    /// The gate of the line.
    pub(crate) fn told(desk: &'a Desk<L>, line: &str) -> Stopping<'a, L> {
        Stopping {
            desk,
            lane: number(line, "lane").unwrap_or(u64::MAX),
            round: number(line, "round").unwrap_or(u64::MAX),
            leaving: has(line, "leaving"),
        }
    }

    fn come_by(&self, lane: u32, round: u64, leaving: bool) {
        if self.lane == u64::from(lane) && self.round == round && self.leaving == leaving {
            self.desk.request_stop();
        }
    }
}

impl<L: Ledger + Send + Sync> Gate for Stopping<'_, L> {
    fn arrive(&self, lane: u32, round: u64) {
        self.come_by(lane, round, false);
    }

    fn leave(&self, lane: u32, round: u64) {
        self.come_by(lane, round, true);
    }
}
