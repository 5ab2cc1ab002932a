//! What a step begins with, by the partition plan that it asks for.

ghost use Rattle.std.specs.Prelude.{◌≡◌, ◌≤◌, ◌⊎◌, ◌++◌, [], Ok, IfErr, IfOk, OnOk};
ghost use Rattle.jb_collect.specs.ReducerCalls.{calls_before};
ghost use Rattle.jb_base.specs.Limits.{max_records};
ghost use Rattle.jb_plan.specs.Plans.{IsRunnable};
ghost use Rattle.jb_step.specs.preparing.Setup.{IsSetup, overrides, gone_on, saved_faults};
ghost use Rattle.jb_program.specs.JobRun.{plan_for};
ghost use Rattle.jb_program.specs.StepRun.{IsNotBegun, setup_with};

use crate::streams::ProgramError;
use jb_base::Ranges;
use jb_collect::FaultlessReducer;
use jb_job::Step;
use jb_mapper::{EvenMapper, FixedMapper, PartitionMapper};
use jb_plan::PartitionPlan;
use jb_step::{Prepared, Saved, StepError, prepare};
use std::alloc::{AllocError, Global};

fn copied(alloc: Global, ranges: &Ranges) -> Result<Ranges, AllocError>
    ensures { IfOk result (λ copy. copy ≡ ranges.now) }
{
    let ranges = Vec::from_slice(alloc, ranges.as_slice())?;
    Ok(Ranges::new(ranges))
}

/// Prepares the step with the plan of a mapper that has the step's own.
fn prepared_by(
    alloc: Global,
    step: &Step,
    records: u64,
    mapper: &mut dyn PartitionMapper,
    saved: Option<Saved>,
    reducer: &mut FaultlessReducer,
) -> Result<Prepared, ProgramError>
    requires few { records ≤ max_records }
    requires mapped { mapping mapper.old records ≡ Ok (plan_for step.now.spec records) }
    ensures runnable { OnOk result (IsRunnable records (plan_for step.now.spec records)) }
    ensures accepted { OnOk result (saved_faults step.now records step.now.spec.replace saved ≡ []) }
    ensures prepared { IfOk result (λ prepared. prepared ≡ setup_with step.now (plan_for step.now.spec records) (gone_on step.now.spec.replace saved)) }
    ensures setup { IfOk result (λ prepared. IsSetup prepared) }
    ensures begun { OnOk result (reducer.new ≡ reducer.old ++ calls_before (overrides step.now.spec.replace saved)) }
    ensures why { IfErr result (λ e. (e ≡ ProgramError.Memory) ⊎ IsNotBegun step.now records (plan_for step.now.spec records) saved e) }
{
    match prepare(alloc, step, records, mapper, reducer, saved) {
        Ok(prepared) => Ok(prepared),
        Err(error) => match error {
            StepError::Plan(fault) => Err(ProgramError::from(fault)),
            StepError::Saved(place) => Err(ProgramError::Saved(place)),
            StepError::Memory => Err(ProgramError::Memory),
            _ => unreachable!(),
        },
    }
}

/// Prepares a step with so many records: with its own ranges, or with even ones, or with the rows of an earlier run, unless
/// its plan overrides them.
pub fn prepared_step(
    alloc: Global,
    step: &Step,
    records: u64,
    saved: Option<Saved>,
    reducer: &mut FaultlessReducer,
) -> Result<Prepared, ProgramError>
    requires few { records ≤ max_records }
    ensures runnable { OnOk result (IsRunnable records (plan_for step.now.spec records)) }
    ensures accepted { OnOk result (saved_faults step.now records step.now.spec.replace saved ≡ []) }
    ensures prepared { IfOk result (λ prepared. prepared ≡ setup_with step.now (plan_for step.now.spec records) (gone_on step.now.spec.replace saved)) }
    ensures setup { IfOk result (λ prepared. IsSetup prepared) }
    ensures begun { OnOk result (reducer.new ≡ reducer.old ++ calls_before (overrides step.now.spec.replace saved)) }
    ensures why { IfErr result (λ e. (e ≡ ProgramError.Memory) ⊎ IsNotBegun step.now records (plan_for step.now.spec records) saved e) }
{
    let spec = step.spec();
    match spec.ranges() {
        None => {
            let mut mapper = EvenMapper::new(
                alloc,
                spec.partitions(),
                spec.threads(),
                spec.replace(),
            );
            prepared_by(alloc, step, records, &mut mapper, saved, reducer)
        }
        Some(ranges) => {
            let mut mapper = FixedMapper::new(PartitionPlan {
                ranges: copied(alloc, ranges)?,
                threads: spec.threads(),
                replace: spec.replace(),
            });
            prepared_by(alloc, step, records, &mut mapper, saved, reducer)
        }
    }
}
