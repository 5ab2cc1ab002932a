//! The steps of a row: its next chunk, and what becomes of the row when the chunk starts and when it ends.

ghost use Rattle.std.specs.Prelude.{◌≡◌, ◌≤◌, ◌+◌, ◌-◌, ◌*◌, ◌<◌};
ghost use Rattle.jb_base.specs.Limits.{max_item_count, max_records, max_rollbacks, max_in_place};
ghost use Rattle.jb_rules.specs.Counts.{IsDelta};
ghost use Rattle.jb_rules.specs.Laws.{RowsStaySound};
ghost use Rattle.jb_rules.specs.Rows.{row_block, remaining_of, begun_row, repeated_row, committed_row, skips_of, rolled_row, failed_row, dropped_row};
ghost use Rattle.jb_rules.specs.Sound.{IsSoundRow};

use crate::counts::Counts;
use crate::row::{Row, RowState};
use jb_base::Range;
use jb_plan::{chunks_left, next_chunk};

impl Row {
    /// The row's next chunk; if none is left, the empty range at its `at`.
    pub fn block(&self, item_count: u64) -> Range
        requires sound { IsSoundRow self.now }
        requires some_items { 1 ≤ item_count }
        requires few_items { item_count ≤ max_item_count }
        ensures block { result ≡ row_block item_count self.now }
        ensures from { result.lo ≡ self.now.at }
        ensures forward { result.lo ≤ result.hi }
        ensures some { self.now.at < self.now.hi → self.now.at < result.hi }
        ensures within { result.hi ≤ self.now.hi }
    {
        let none = Range {
            lo: self.at,
            hi: self.at,
        };
        next_chunk(self.at, self.redo, self.hi, item_count).unwrap_or(none)
    }

    /// How many chunks the row has left to start. It is 0 unless the partition waits.
    pub fn remaining(&self, item_count: u64) -> u64
        requires sound { IsSoundRow self.now }
        requires some_items { 1 ≤ item_count }
        requires few_items { item_count ≤ max_item_count }
        ensures { result ≡ remaining_of item_count self.now self.now.state }
    {
        match self.state {
            RowState::Waiting => chunks_left(self.at, self.redo, self.hi, item_count),
            RowState::Running(_) | RowState::Finished | RowState::Failed => 0,
        }
    }

    /// The row when this lane starts its next chunk.
    pub fn begun(&self, lane: u32) -> Row
        requires sound { IsSoundRow self.now }
        requires unfinished { self.now.at < self.now.hi }
        ensures row { result ≡ begun_row self.now lane }
        ensures sound { IsSoundRow result }
    {
        Row {
            state: RowState::Running(lane),
            ..*self
        }
    }

    /// The row after so many calls of its chunk were repeated in place. Each repeat is a retry.
    pub fn repeated(&self, again: u64) -> Row
        requires sound { IsSoundRow self.now }
        requires room { self.now.in_place + again ≤ max_in_place }
        ensures row { result ≡ repeated_row self.now again }
        ensures sound { IsSoundRow result }
    {
        let mut row = *self;
        row.repeat(again);
        row
    }

    /// As `repeated`, of the row itself.
    pub fn repeat(&mut self, again: u64)
        requires sound { IsSoundRow self.old }
        requires room { self.old.in_place + again ≤ max_in_place }
        ensures row { self.new ≡ repeated_row self.old again }
        ensures sound { IsSoundRow self.new }
    {
        self.retries += again;
        self.in_place += again;
    }

    /// The row after a chunk that ends at record `at` was committed with these counts.
    pub fn committed(&self, at: u64, delta: &Counts) -> Row
        requires sound { IsSoundRow self.now }
        requires from { self.now.at < at }
        requires to { at ≤ self.now.hi }
        requires delta { IsDelta (at - self.now.at) delta.now }
        ensures row { result ≡ committed_row self.now at delta.now }
        ensures sound { IsSoundRow result }
    {
        let mut row = *self;
        row.commit(at, delta);
        row
    }

    /// As `committed`, of the row itself.
    pub fn commit(&mut self, at: u64, delta: &Counts)
        requires sound { IsSoundRow self.old }
        requires from { self.old.at < at }
        requires to { at ≤ self.old.hi }
        requires delta { IsDelta (at - self.old.at) delta.now }
        ensures row { self.new ≡ committed_row self.old at delta.now }
        ensures sound { IsSoundRow self.new }
    {
        self.at = at;
        self.written += delta.write;
        self.counts.add(delta);
        self.state = if at == self.hi {
            RowState::Finished
        } else {
            RowState::Waiting
        };
    }

    /// How many faults the partition has skipped in chunks that were committed: in reads, process calls and writes.
    pub fn skips(&self) -> u64
        requires { IsSoundRow self.now }
        ensures value { result ≡ skips_of self.now }
        ensures few { result ≤ 2 * max_records }
    {
        self.counts.read_skip + self.counts.process_skip + self.counts.write_skip
    }

    /// The row after its chunk, which ends at record `end`, was rolled back to be retried. Its state stays: if a lane ran
    /// it, `dropped` makes it wait again.
    pub fn rolled(&self, end: u64) -> Row
        requires sound { IsSoundRow self.now }
        requires end { end ≤ self.now.hi }
        requires room { self.now.counts.rollback < max_rollbacks }
        ensures row { result ≡ rolled_row self.now end }
        ensures sound { IsSoundRow result }
    {
        let counts = Counts {
            rollback: self.counts.rollback + 1,
            ..self.counts
        };
        Row {
            redo: self.redo.max(end),
            retries: self.retries + 1,
            counts,
            ..*self
        }
    }

    /// The row after its chunk failed. A failing chunk is rolled back too, and counts as one rollback.
    pub fn failed(&self) -> Row
        requires sound { IsSoundRow self.now }
        requires unfinished { self.now.at < self.now.hi }
        requires room { self.now.counts.rollback < max_rollbacks }
        ensures row { result ≡ failed_row self.now }
        ensures sound { IsSoundRow result }
    {
        let counts = Counts {
            rollback: self.counts.rollback + 1,
            ..self.counts
        };
        Row {
            counts,
            state: RowState::Failed,
            ..*self
        }
    }

    /// The row after its chunk was given up, and nothing of it was done.
    pub fn dropped(&self) -> Row
        requires sound { IsSoundRow self.now }
        requires unfinished { self.now.at < self.now.hi }
        ensures row { result ≡ dropped_row self.now }
        ensures sound { IsSoundRow result }
    {
        Row {
            state: RowState::Waiting,
            ..*self
        }
    }
}

/// The law of a row's steps: each one keeps the row rules.
pub fn rows_stay_sound()
    ensures { RowsStaySound }
{}
