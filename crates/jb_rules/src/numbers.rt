//! A row as texts list it: its numbers, and the name of its state.

ghost use Rattle.std.specs.Prelude.{◌≡◌, false, IfSome};
ghost use Rattle.jb_rules.specs.Laws.{NumbersMakeRows};
ghost use Rattle.jb_rules.specs.Numbers.{numbers_of, row_of_numbers, state_name, state_named};
ghost use Rattle.jb_rules.specs.States.{is_running};

use crate::counts::Counts;
use crate::row::{Row, RowState};

impl Row {
    /// How many numbers a row has.
    pub const NUMBERS: usize = 15;

    /// The numbers of the row, in the order in which saved texts and reports list them (own choice).
    pub fn numbers(&self) -> [u64; Row::NUMBERS]
        ensures { result ≡ numbers_of self.now }
    {
        let counts = &self.counts;
        [
            self.lo,
            self.hi,
            self.at,
            self.redo,
            self.retries,
            self.written,
            counts.read,
            counts.write,
            counts.commit,
            counts.rollback,
            counts.read_skip,
            counts.process_skip,
            counts.filter,
            counts.write_skip,
            self.in_place,
        ]
    }

    /// The row of these numbers, in the same order, and of this state.
    pub fn of_numbers(numbers: &[u64; Row::NUMBERS], state: RowState) -> Row
        ensures row { result ≡ row_of_numbers numbers.now state }
        ensures numbers { numbers_of result ≡ numbers.now }
    {
        let [
            lo,
            hi,
            at,
            redo,
            retries,
            written,
            read,
            write,
            commit,
            rollback,
            read_skip,
            process_skip,
            filter,
            write_skip,
            in_place,
        ] = *numbers;
        Row {
            lo,
            hi,
            at,
            redo,
            retries,
            written,
            counts: Counts {
                read,
                write,
                commit,
                rollback,
                read_skip,
                process_skip,
                filter,
                write_skip,
            },
            in_place,
            state,
        }
    }
}

impl RowState {
    /// The name of the state, as saved texts and reports have it (own choice).
    pub fn name(self) -> &'static str
        ensures { result.now ≡ state_name self }
    {
        match self {
            RowState::Waiting => "waiting",
            RowState::Running(_) => "running",
            RowState::Finished => "done",
            RowState::Failed => "failed",
        }
    }

    /// The state of this name. `running` names none, since it doesn't say on which lane.
    pub fn of_name(name: &str) -> Option<RowState>
        ensures form { result ≡ state_named name.now }
        ensures still { IfSome result (λ state. is_running state ≡ false) }
    {
        match name {
            "waiting" => Some(RowState::Waiting),
            "done" => Some(RowState::Finished),
            "failed" => Some(RowState::Failed),
            _ => None,
        }
    }
}

/// The law of `Row::numbers` and `Row::of_numbers`: a row is rebuilt from its numbers, and a row made of numbers has these.
pub fn numbers_make_rows()
    ensures { NumbersMakeRows }
{}
