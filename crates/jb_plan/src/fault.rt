//! What can be wrong with a partition plan.

use std::fmt;
use thiserror::Error;

/// Why a partition plan is refused. Partitions are named by their places in the plan's list of ranges, from 0.
#[derive(Clone, Copy, Debug, PartialEq, Eq, Error)]
pub enum PlanError {
    /// The plan has no range.
    NoPartition,
    /// The plan has more than 1,024 ranges.
    TooMany,
    /// This range ends before it begins.
    Reversed(usize),
    /// This range ends past the last record.
    PastEnd(usize),
    /// Some record is in both of these ranges.
    Overlap(usize, usize),
    /// The plan asks for more than 4,096 threads.
    Threads,
    /// There was no memory for the plan.
    Memory,
}

/// The fault's name, with the partitions in parentheses; or `no memory`.
impl fmt::Display for PlanError {
    ghost use Rattle.std.specs.Prelude.{Some};
    ghost use Rattle.jb_plan.specs.Texts.{error_text};

    ghost output = { λ error. Some (error_text error) };

    fn fmt<W: fmt::Write>(&self, f: &mut fmt::Formatter<W>) -> fmt::Result {
        match self {
            PlanError::NoPartition => f.write_str("NoPartition"),
            PlanError::TooMany => f.write_str("TooMany"),
            PlanError::Reversed(range) => write!(f, "Reversed({range})"),
            PlanError::PastEnd(range) => write!(f, "PastEnd({range})"),
            PlanError::Overlap(first, second) => write!(f, "Overlap({first},{second})"),
            PlanError::Threads => f.write_str("Threads"),
            PlanError::Memory => f.write_str("no memory"),
        }
    }
}
