//! The interface of a partition mapper.

ghost use Rattle.std.specs.Prelude.{◌≡◌, Ok, Err, IfOk};
ghost use Rattle.jb_base.specs.declared.class.ClassId.{ClassId};
ghost use Rattle.jb_mapper.specs.Mapping.{Mapping};

use jb_base::ArtifactError;
use jb_plan::PartitionPlan;

/// Divides the records of a step among partitions (Jakarta Batch 2.1, "Partition Mapper").
///
/// Its meaning is a plan or a fault class for each number of records. The plan isn't checked: [`jb_plan::checked`] does
/// that. A fault that the mapper's value and the number don't determine has no answer here but `Memory`.
pub trait PartitionMapper {
    ghost mapping: { Self → Mapping };

    /// The plan for a step of so many records.
    ///
    /// # Errors
    /// The mapper's fault for that number, or `Memory` if there is no memory for the plan. No call changes what the mapper means.
    fn map(&mut self, records: u64) -> Result<PartitionPlan, ArtifactError>
        ensures plan { IfOk result (λ plan. mapping self.old records ≡ Ok plan) }
        ensures fault { (class : ClassId) → result ≡ Err (ArtifactError.Fault class) → mapping self.old records ≡ Err class }
        ensures same { mapping self.new ≡ mapping self.old };
}
