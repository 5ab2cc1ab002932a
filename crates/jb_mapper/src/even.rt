//! A mapper that divides the records evenly.

ghost use Rattle.std.specs.Prelude.{◌≡◌, ◌≤◌, ◌<◌, IfOk};
ghost use Rattle.jb_plan.specs.Plans.{IsRunnable};
ghost use Rattle.jb_base.specs.Limits.{max_partitions, max_partitions_asked, max_threads_asked};
ghost use Rattle.jb_mapper.specs.EvenCover.{bound, even_ranges, IsEvenCover};
ghost use Rattle.jb_mapper.specs.Mapping.{even};

use crate::mapper::PartitionMapper;
use jb_base::{ArtifactError, Range, Ranges};
use jb_plan::PartitionPlan;
use std::alloc::{AllocError, Global};

/// A mapper that covers the records by consecutive ranges whose lengths differ by one at most.
#[derive(Debug, Drop)]
pub struct EvenMapper {
    alloc: Global,
    partitions: u32,
    threads: u32,
    replace: bool,
    ghost some: { 1 ≤ partitions },
}

impl EvenMapper {
    /// A mapper of 1 to 4,096 partitions. Takes no memory.
    pub fn new(alloc: Global, partitions: u32, threads: u32, replace: bool) -> EvenMapper
        requires some { 1 ≤ partitions }
        requires few { partitions ≤ max_partitions_asked }
        ensures { ⟦<EvenMapper as PartitionMapper>⟧.mapping result ≡ even partitions threads replace }
    {
        EvenMapper {
            alloc,
            partitions,
            threads,
            replace,
        }
    }
}

impl PartitionMapper for EvenMapper {
    ghost mapping = { λ m. even m.partitions m.threads m.replace };

    fn map(&mut self, records: u64) -> Result<PartitionPlan, ArtifactError> {
        let ranges = ranges(self.alloc, records, u64::from(self.partitions))?;
        Ok(PartitionPlan {
            ranges: Ranges::new(ranges),
            threads: self.threads,
            replace: self.replace,
        })
    }
}

/// The records of the first `i` ranges.
#[tactic(auto, using(crate::proofs::EvenRanges::bound_below))]
fn bound_of(records: u64, partitions: u64, i: u64) -> u64
    requires some { 1 ≤ partitions }
    requires within { i ≤ partitions }
    ensures { result ≡ bound records partitions i }
{
    i * (records / partitions) + i.min(records % partitions)
}

/// So many even ranges of the records.
#[tactic(auto, unfolding(crate::specs::EvenCover::even_ranges))]
fn ranges(alloc: Global, records: u64, partitions: u64) -> Result<Vec<Range>, AllocError>
    requires { 1 ≤ partitions }
    ensures { IfOk result (λ ranges. ranges.items ≡ even_ranges records partitions) }
{
    let mut ranges = Vec::new(alloc);
    for i in 0..partitions {
        ranges.push(Range {
            lo: bound_of(records, partitions, i),
            hi: bound_of(records, partitions, i + 1),
        })?;
    }
    Ok(ranges)
}

/// The law of even ranges: they are consecutive from 0 to the number of records. If the records don't divide evenly, the
/// first ranges are one longer. Each record is in exactly one range.
pub fn even_cover(records: u64, partitions: u32)
    requires { 1 ≤ partitions }
    ensures { IsEvenCover records partitions (even_ranges records partitions) }
{}

/// The law of even plans: they can be run with 1 to 1,024 partitions and at most 4,096 threads. So `jb_plan::checked`
/// accepts them for each number of records that it takes.
pub fn even_plan_is_runnable(records: u64, partitions: u32, threads: u32, replace: bool)
    requires some { 1 ≤ partitions }
    requires few { partitions ≤ max_partitions }
    requires threads { threads ≤ max_threads_asked }
    ensures { IsRunnable records (record { ranges = even_ranges records partitions; threads = threads; replace = replace }) }
{}
