//! A mapper with one plan.

ghost use Rattle.std.specs.Prelude.{◌≡◌};
ghost use Rattle.jb_mapper.specs.Mapping.{fixed};

use crate::mapper::PartitionMapper;
use jb_base::ArtifactError;
use jb_plan::PartitionPlan;

/// A mapper that answers a copy of its plan for any number of records.
#[derive(Debug, Drop)]
pub struct FixedMapper {
    plan: PartitionPlan,
}

impl FixedMapper {
    /// A mapper with this plan. Takes no memory.
    pub fn new(plan: PartitionPlan) -> FixedMapper
        ensures { ⟦<FixedMapper as PartitionMapper>⟧.mapping result ≡ fixed plan }
    {
        FixedMapper { plan }
    }
}

impl PartitionMapper for FixedMapper {
    ghost mapping = { λ m. fixed m.plan };

    fn map(&mut self, _records: u64) -> Result<PartitionPlan, ArtifactError> {
        let ranges = self.plan.ranges.clone()?;
        Ok(PartitionPlan {
            ranges,
            threads: self.plan.threads,
            replace: self.plan.replace,
        })
    }
}
