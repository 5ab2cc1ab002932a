//! What the step of a line begins with, or why it can't begin.

ghost use Rattle.std.specs.Prelude.{Err};

use crate::lines::{has, number, rules, small};
use crate::step::given::Given;
use crate::step::lacking::Lacking;
use jb_base::{ArtifactError, ClassId, MAX_ITEM_COUNT, MAX_RECORDS, Name};
use jb_job::{Spec, Step};
use jb_mapper::{FixedMapper, PartitionMapper};
use jb_plan::PartitionPlan;
use jb_step::{Prepared, Saved, StepError, prepare};
use std::alloc::Global;
use std::test::*;

/// The step's id.
pub(crate) const STEP: &str = "step";

/// A mapper that answers a fault of this class, or is out of memory.
#[derive(Drop)]
struct Failing {
    class: ClassId,
    lacking: bool,
    /// How often it was called.
    asked: u64,
}

impl PartitionMapper for Failing {
    ghost mapping = { λ m _. Err m.class };

    fn map(&mut self, _records: u64) -> Result<PartitionPlan, ArtifactError> {
        self.asked = self.asked.saturating_add(1);
        if self.lacking {
            return Err(ArtifactError::Memory);
        }
        Err(ArtifactError::Fault(self.class))
    }
}

/// What the step of the line begins with, by this mapper.
fn begun_by(
    alloc: Global,
    line: &str,
    records: u64,
    mapper: &mut dyn PartitionMapper,
    reducer: &mut Lacking,
    saved: Option<Saved>,
) -> Result<Result<Prepared, StepError>, Fail> {
    let item_count = number(line, "items").unwrap_or(2);
    if item_count < 1 || MAX_ITEM_COUNT < item_count || MAX_RECORDS < records {
        return Err(Fail::from("a step"));
    }
    let id = Name::new(String::from_str(alloc, STEP)?);
    let step = Step::new(id, item_count, rules(line), Spec::new(1, 0, false, None));
    Ok(prepare(alloc, &step, records, mapper, reducer, saved))
}

/// What the step of the line begins with. Its mapper may be `failing`, by a fault or, if `forgetful`, out of memory. Then it is written how
/// often the mapper was called.
pub(crate) fn begun(
    alloc: Global,
    line: &str,
    reducer: &mut Lacking,
    saved: Option<Saved>,
    text: &mut String,
) -> Result<Result<Prepared, StepError>, Fail> {
    let given = Given::read(alloc, line)?;
    let records = given.count();
    if !has(line, "failing") {
        let plan = given.plan(small(line, "threads").unwrap_or(2), has(line, "override"));
        let mut mapper = FixedMapper::new(plan);
        return begun_by(alloc, line, records, &mut mapper, reducer, saved);
    }
    let mut mapper = Failing {
        class: ClassId::new(3),
        lacking: has(line, "forgetful"),
        asked: 0,
    };
    let begun = begun_by(alloc, line, records, &mut mapper, reducer, saved)?;
    text.push_str(format!(in alloc; "asked {}\n", mapper.asked)?.as_str())?;
    Ok(begun)
}
