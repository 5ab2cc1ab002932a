//! Plans of slots, and why a plan is not valid.
use std::fmt;
use thiserror::Error;

/// One chunk of one partition, and the lane that runs it in its round. All three are counted from 0.
#[derive(Clone, Copy, Debug, PartialEq, Eq)]
pub struct Slot {
    pub lane: u32,
    pub partition: u32,
    pub chunk: u64,
}

/// The rounds of a plan, in the order in which they are run, each with its slots. A round may be empty.
#[derive(Clone, Debug, PartialEq, Eq, Drop)]
pub struct Plan {
    pub rounds: Vec<Vec<Slot>>,
}

/// Why a plan is not valid, or could not be checked.
#[derive(Clone, Copy, Debug, PartialEq, Eq, Error)]
pub enum PlanFault {
    /// A lane is not below the number of threads.
    LaneRange,
    /// A lane or a partition comes twice in a round.
    TwiceInRound,
    /// A chunk is not its partition's next one: an earlier one has not run, or it has run itself.
    OutOfOrder,
    /// A chunk is in no round.
    Missing,
    /// There is no such partition, or it has no such chunk.
    Stranger,
    /// There was no memory for the check.
    Memory,
}

/// The fault's name, or `no memory`.
impl fmt::Display for PlanFault {
    ghost use Rattle.std.specs.Prelude.{Some};
    ghost use Rattle.jb_cert.specs.Texts.{plan_fault_text};

    ghost output = { λ fault. Some (plan_fault_text fault) };

    fn fmt<W: fmt::Write>(&self, f: &mut fmt::Formatter<W>) -> fmt::Result {
        f.write_str(match self {
            PlanFault::LaneRange => "LaneRange",
            PlanFault::TwiceInRound => "TwiceInRound",
            PlanFault::OutOfOrder => "OutOfOrder",
            PlanFault::Missing => "Missing",
            PlanFault::Stranger => "Stranger",
            PlanFault::Memory => "no memory",
        })
    }
}
