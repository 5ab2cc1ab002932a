//! Partition plans, and plans that were checked.

ghost use Rattle.std.specs.Prelude.{◌≡◌, ◌≤◌};
ghost use Rattle.jb_base.specs.Limits.{max_records, max_threads};
ghost use Rattle.jb_plan.specs.Plans.{IsRunnable, IsCheckedPlan, checked_plan, threads_of};

use jb_base::{MAX_THREADS, Range, Ranges};
use std::marker::Model;

/// How a step's records are to be partitioned (Jakarta Batch 2.1, "Partition Plan"; the ranges are this project's own).
#[derive(Debug, Drop)]
pub struct PartitionPlan {
    /// The records of each partition.
    pub ranges: Ranges,
    /// How many threads to use; 0 asks for as many as there are partitions.
    pub threads: u32,
    /// Whether a restart begins all partitions from the start (partitionsOverride).
    pub replace: bool,
}

/// A plan that can be run: 1 to 1,024 ranges, none of them reversed, no record in two of them, and 1 to 64 threads.
#[derive(Debug, Drop)]
pub struct Checked {
    ranges: Ranges,
    threads: u32,
    replace: bool,
}

impl Model for Checked {
    ghost use Rattle.jb_plan.specs.Plans.{CheckedPlan, IsCheckedPlan};

    ghost Value = { CheckedPlan };

    ghost view = { λ c. record { ranges = c.ranges; threads = c.threads; replace = c.replace } };

    ghost invariant = { λ c. IsCheckedPlan (record { ranges = c.ranges; threads = c.threads; replace = c.replace }) };
}

impl PartitionPlan {
    /// How many threads the plan gets.
    fn threads(&self, records: u64) -> u32
        requires { IsRunnable records self.now }
        ensures { result ≡ threads_of self.now }
    {
        let asked = match self.threads {
            0 => self.ranges.as_slice().len() as u32,
            asked => asked,
        };
        asked.min(MAX_THREADS)
    }
}

impl Checked {
    /// The checked form of a plan that a step of so many records can run.
    pub(crate) fn of(plan: PartitionPlan, records: u64) -> Checked
        requires runnable { IsRunnable records plan }
        requires records { records ≤ max_records }
        ensures { result ≡ checked_plan plan }
    {
        let threads = plan.threads(records);
        Checked {
            ranges: plan.ranges,
            threads,
            replace: plan.replace,
        }
    }

    /// The records of each partition.
    pub fn ranges(&self) -> &[Range]
        ensures ranges { result.now ≡ self.now.ranges }
        ensures checked { IsCheckedPlan self.now }
    {
        self.ranges.as_slice()
    }

    /// How many threads the step uses: as many as the plan asks for, or one for each partition if it asks for 0, but 64
    /// at most. A runtime may use fewer (Jakarta Batch 2.1, "Partition Plan"); the limit is this project's own.
    pub fn threads(&self) -> u32
        ensures threads { result ≡ self.now.threads }
        ensures some { 1 ≤ result }
        ensures few { result ≤ max_threads }
    {
        self.threads
    }

    /// Whether a restart begins all partitions from the start.
    pub fn replace(&self) -> bool
        ensures { result ≡ self.now.replace }
    {
        self.replace
    }
}
