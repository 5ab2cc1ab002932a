//! The state of a partition, and the rules that each row keeps.

ghost use Rattle.std.specs.Prelude.{◌≡◌, ◌↔◌, IsTrue};
ghost use Rattle.jb_rules.specs.Rows.{fresh_row, range_of};
ghost use Rattle.jb_rules.specs.Laws.{RowsAreTested, UnfinishedRowsGoOn};
ghost use Rattle.jb_rules.specs.RowTest.{is_sound};
ghost use Rattle.jb_rules.specs.States.{is_waiting, is_running, is_finished, is_failed, has_ended};
ghost use Rattle.jb_rules.specs.Sound.{IsCounted, IsPlaced, IsSoundRow};

use crate::counts::Counts;
use jb_base::{MAX_IN_PLACE, MAX_RECORDS, MAX_ROLLBACKS, Range};

/// The state of a partition.
#[derive(Clone, Copy, Debug, PartialEq, Eq)]
pub enum RowState {
    /// Some chunk is left, and none is being done.
    Waiting,
    /// The lane of this number does the next chunk.
    Running(u32),
    /// No record is left.
    Finished,
    /// A fault was neither skipped nor retried.
    Failed,
}

impl RowState {
    /// Whether some chunk is left, and none is being done.
    pub fn is_waiting(&self) -> bool
        ensures { result ≡ is_waiting self.now }
    {
        matches!(*self, RowState::Waiting)
    }

    /// Whether a lane does the partition's next chunk.
    pub fn is_running(&self) -> bool
        ensures { result ≡ is_running self.now }
    {
        matches!(*self, RowState::Running(_))
    }

    /// Whether no record is left.
    pub fn is_finished(&self) -> bool
        ensures { result ≡ is_finished self.now }
    {
        matches!(*self, RowState::Finished)
    }

    /// Whether a fault was neither skipped nor retried.
    pub fn is_failed(&self) -> bool
        ensures { result ≡ is_failed self.now }
    {
        matches!(*self, RowState::Failed)
    }

    /// Whether no chunk of the partition starts any more: it is finished, or it has failed.
    pub fn has_ended(&self) -> bool
        ensures { result ≡ has_ended self.now }
    {
        matches!(*self, RowState::Finished | RowState::Failed)
    }
}

/// The checkpoint of a partition: its range, the next record, and its counts.
#[derive(Clone, Copy, Debug, PartialEq, Eq)]
pub struct Row {
    /// The first record of the range.
    pub lo: u64,
    /// The end of the range: the number after its last record.
    pub hi: u64,
    /// The next record: those before it are committed.
    pub at: u64,
    /// Up to here records are done in chunks of one, since an earlier chunk was rolled back.
    pub redo: u64,
    /// How many retries were made: chunks that were rolled back to be done again, and calls that were repeated in place.
    pub retries: u64,
    /// How many results the writer holds.
    pub written: u64,
    /// The metrics.
    pub counts: Counts,
    /// How many calls were repeated in place.
    pub in_place: u64,
    /// The state of the partition.
    pub state: RowState,
}

impl Row {
    /// The row of a partition that has not started. An empty range is finished from the start.
    pub fn fresh(range: Range) -> Row
        ensures { result ≡ fresh_row range }
    {
        Row {
            lo: range.lo,
            hi: range.hi,
            at: range.lo,
            redo: range.lo,
            retries: 0,
            written: 0,
            counts: Counts::ZERO,
            in_place: 0,
            state: if range.lo == range.hi {
                RowState::Finished
            } else {
                RowState::Waiting
            },
        }
    }

    /// The records of the row's partition.
    pub fn range(&self) -> Range
        ensures { result ≡ range_of self.now }
    {
        Range {
            lo: self.lo,
            hi: self.hi,
        }
    }

    fn is_placed(&self) -> bool
        ensures { IsTrue result ↔ IsPlaced self.now }
    {
        self.lo <= self.at
            && self.at <= self.hi
            && self.hi <= MAX_RECORDS
            && self.lo <= self.redo
            && self.redo <= self.hi
    }

    fn is_counted(&self) -> bool
        requires { IsPlaced self.now }
        ensures { IsTrue result ↔ IsCounted self.now }
    {
        let counts = &self.counts;
        let passed = self.at - self.lo;
        if counts.read > passed || counts.read_skip != passed - counts.read {
            return false;
        }
        if counts.write != self.written || counts.write > counts.read {
            return false;
        }
        if self.in_place > self.retries || self.retries - self.in_place > counts.rollback {
            return false;
        }
        let left = counts.read - counts.write;
        if counts.process_skip > left || counts.filter > left - counts.process_skip {
            return false;
        }
        let exact = counts.filter == left - counts.process_skip;
        (counts.write_skip != 0 || exact)
            && counts.write_skip <= counts.commit
            && counts.commit <= passed
            && (passed == 0 || counts.commit >= 1)
            && counts.rollback <= MAX_ROLLBACKS
            && self.in_place <= MAX_IN_PLACE
    }

    /// Whether the row keeps the row rules, which every row that a run leaves does.
    pub fn sound(&self) -> bool
        ensures rules { IsTrue result ↔ IsSoundRow self.now }
        ensures test { result ≡ is_sound self.now }
    {
        rows_are_tested();
        let finished = matches!(self.state, RowState::Finished);
        self.is_placed() && self.is_counted() && finished == (self.at == self.hi)
    }
}

/// The law of `Row::sound`: the row rules as a test agree with the row rules as a fact.
pub fn rows_are_tested()
    ensures { RowsAreTested }
{}

/// A row that keeps the row rules and isn't finished has a record left.
pub fn unfinished_rows_go_on()
    ensures { UnfinishedRowsGoOn }
{}
