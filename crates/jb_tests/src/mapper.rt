//! Plans of both mappers, and the even cover computed on worked numbers.

ghost use Rattle.std.specs.Prelude.{◌≡◌, [], ◌∷◌};
ghost use Rattle.jb_mapper.specs.EvenCover.{even_ranges};

use jb_base::{ArtifactError, Range};
use jb_mapper::{EvenMapper, FixedMapper, PartitionMapper};
use jb_plan::PartitionPlan;
use std::test::Fail;

/// The even covers of seven records by three partitions, of two by four, and of none by one.
fn worked_covers()
    ensures seven { even_ranges 7 3 ≡ record { lo = 0; hi = 3 } ∷ record { lo = 3; hi = 5 } ∷ record { lo = 5; hi = 7 } ∷ [] }
    ensures two { even_ranges 2 4 ≡ record { lo = 0; hi = 1 } ∷ record { lo = 1; hi = 2 } ∷ record { lo = 2; hi = 2 } ∷ record { lo = 2; hi = 2 } ∷ [] }
    ensures none { even_ranges 0 1 ≡ record { lo = 0; hi = 0 } ∷ [] }
{}

/// Whether these are the even ranges of the most records that a step may have, by the most partitions that a mapper may get.
fn are_4_096(ranges: &[Range]) -> bool {
    match (ranges.first(), ranges.last()) {
        (Some(first), Some(last)) => {
            let bounds = (first.hi, last.lo, last.hi);
            ranges.len() == 4_096 && bounds == (2_442, 9_997_559, 10_000_000)
        }
        _ => false,
    }
}

/// The most partitions that a mapper may get: an even plan, and its copy.
#[test]
fn plans_of_4_096_partitions(rt: HostRuntime) -> Result<(), Fail> {
    worked_covers();
    let plan = EvenMapper::new(rt.alloc(), 4_096, 64, true).map(10_000_000);
    let copy = FixedMapper::new(plan.ok().ok_or("a plan")?).map(0);
    let copy = copy.ok().ok_or("its copy")?;
    assert!(rt; are_4_096(copy.ranges.as_slice()) && copy.threads == 64 && copy.replace);
    Ok(())
}

/// What a mapper of seven records answers. If it is out of memory, the plan of the second call instead.
fn answer(mapper: &mut dyn PartitionMapper) -> Result<PartitionPlan, ArtifactError> {
    match mapper.map(7) {
        Err(ArtifactError::Memory) => mapper.map(7),
        answer => answer,
    }
}

/// Whether the plan is one of three partitions on two threads.
fn is_of_three(plan: &PartitionPlan) -> bool {
    plan.threads == 2 && !plan.replace && plan.ranges.as_slice().len() == 3
}

/// With any one request refused, both mappers answer the whole plan, or out of memory and then the whole plan.
#[test]
fn wants_memory_or_answers_in_full(rt: HostRuntime) -> Result<(), Fail> {
    let plan = answer(&mut EvenMapper::new(rt.alloc(), 3, 2, false));
    let plan = plan.ok().ok_or("an even plan")?;
    assert!(rt; is_of_three(&plan));
    let copy = answer(&mut FixedMapper::new(plan));
    assert!(rt; is_of_three(&copy.ok().ok_or("its copy")?));
    Ok(())
}
