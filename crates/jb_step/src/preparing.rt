//! What a step begins with: its reducer, its mapper, its plan of partitions, and the saved rows of a stopped run.

ghost use Rattle.std.specs.Prelude.{◌≡◌, ◌≤◌, ◌++◌, ◌∷◌, [], true, IfOk, IfErr, OnOk};
ghost use Rattle.jb_base.specs.Limits.{max_records};
ghost use Rattle.jb_collect.specs.declared.calls.ReducerCall.TheVariants as act;
ghost use Rattle.jb_collect.specs.AnsweredCalls.{Grew, since, well};
ghost use Rattle.jb_step.specs.declared.error.StepError.TheVariants.{Memory};
ghost use Rattle.jb_step.specs.preparing.Prepare.{AreCallsBefore, IsOverridden, IsPreparation, IsPrepareRefusal, overrides_by};
ghost use Rattle.jb_step.specs.preparing.Setup.{IsSetup, fresh_rows, saved_faults};
ghost use Rattle.jb_step.specs.inside.preparing.Fresh.{IsDiscardRefused, IsUnopened, IsUnplanned, opened_setup, setup_of_rows};

pub(crate) mod prepared;
pub(crate) mod start;

use crate::callbacks::reduce::undo;
use crate::error::StepError;
use crate::preparing::prepared::Prepared;
use crate::saved::Saved;
use jb_base::ArtifactError;
use jb_collect::{PartitionStatus, Reducer};
use jb_job::Step;
use jb_mapper::PartitionMapper;
use jb_plan::{Checked, checked};
use jb_saved::SavedPlace;
use std::alloc::Global;

/// Calls the reducer's `begin` and the mapper, and checks its plan and the rows that a stopped run of the step saved, in this order.
///
/// Without saved rows the partitions begin from the start on the plan's ranges. With saved rows the step resumes from them. Then only the
/// plan's thread number counts. A finished partition isn't needed any more, and a failed one resumes at its checkpoint.
///
/// If the plan replaces the partitions (`override`), the saved rows are discarded, and only their step is checked. The partitions begin
/// from the start on the plan's ranges, and the reducer's `rollback` is called, the last of all.
///
/// # Errors
/// `Reducer` and `Mapper` with the class of their fault, and `Plan` with the first fault of the mapper's plan. `Saved` with the first of
/// `Step`, if the rows are another step's, and `Records`, if a row from which the step would resume ends past the last record. `Memory`.
///
/// If `begin` succeeded, the reducer is rolled back before the error is answered. It isn't rolled back a second time if the rollback of
/// discarded results failed. If it is out of memory for the rollback, the error is `Memory`.
pub fn prepare(
    alloc: Global,
    step: &Step,
    records: u64,
    mapper: &mut dyn PartitionMapper,
    reducer: &mut dyn Reducer,
    saved: Option<Saved>,
) -> Result<Prepared, StepError>
    requires { records ≤ max_records }
    ensures prepared { IfOk result (λ prepared. IsPreparation step.now records (mapping mapper.old records) saved prepared) }
    ensures setup { IfOk result (λ prepared. IsSetup prepared) }
    ensures refused { IfErr result (λ error. IsPrepareRefusal step.now records (mapping mapper.old records) saved (since (reduced reducer.old) (reduced reducer.new)) error) }
    ensures calls { AreCallsBefore (overrides_by (mapping mapper.old records) saved) result (since (reduced reducer.old) (reduced reducer.new)) }
    ensures overridden { IfOk result (λ prepared. IsOverridden (mapping mapper.old records) saved (since (reduced reducer.old) (reduced reducer.new)) prepared) }
    ensures grew { Grew (reduced reducer.old) (reduced reducer.new) }
    ensures mapper { mapping mapper.new ≡ mapping mapper.old }
{
    match reducer.begin() {
        Ok(()) => prepare_begun(alloc, step, records, mapper, reducer, saved),
        Err(ArtifactError::Fault(class)) => Err(StepError::Reducer(class)),
        Err(ArtifactError::Memory) => Err(StepError::Memory),
    }
}

// The same, after the reducer's `begin`.
fn prepare_begun(
    alloc: Global,
    step: &Step,
    records: u64,
    mapper: &mut dyn PartitionMapper,
    reducer: &mut dyn Reducer,
    saved: Option<Saved>,
) -> Result<Prepared, StepError>
    requires { records ≤ max_records }
    ensures prepared { IfOk result (λ prepared. IsPreparation step.now records (mapping mapper.old records) saved prepared) }
    ensures setup { IfOk result (λ prepared. IsSetup prepared) }
    ensures refused { IfErr result (λ error. IsPrepareRefusal step.now records (mapping mapper.old records) saved (well act.Begin ∷ since (reduced reducer.old) (reduced reducer.new)) error) }
    ensures calls { AreCallsBefore (overrides_by (mapping mapper.old records) saved) result (well act.Begin ∷ since (reduced reducer.old) (reduced reducer.new)) }
    ensures overridden { IfOk result (λ prepared. IsOverridden (mapping mapper.old records) saved (well act.Begin ∷ since (reduced reducer.old) (reduced reducer.new)) prepared) }
    ensures grew { Grew (reduced reducer.old) (reduced reducer.new) }
    ensures mapper { mapping mapper.new ≡ mapping mapper.old }
{
    match planned(alloc, step, records, mapper, saved) {
        Ok((prepared, overrides)) => {
            if overrides {
                discard(prepared, reducer)
            } else {
                Ok(prepared)
            }
        }
        Err(error) => match undo(reducer) {
            Ok(_) => Err(error),
            Err(_) => Err(StepError::Memory),
        },
    }
}

// Rolls the reducer back for what is discarded. If that fails, the step ends: `after` is called, and no second `rollback`.
fn discard(prepared: Prepared, reducer: &mut dyn Reducer) -> Result<Prepared, StepError>
    ensures same { IfOk result (λ p. p ≡ prepared) }
    ensures discarded { OnOk result (reduced reducer.new ≡ reduced reducer.old ++ well act.Rollback ∷ []) }
    ensures refused { IfErr result (λ error. IsDiscardRefused error (reduced reducer.old) (reduced reducer.new)) }
    ensures grew { Grew (reduced reducer.old) (reduced reducer.new) }
{
    let error = match reducer.rollback() {
        Ok(()) => return Ok(prepared),
        Err(ArtifactError::Fault(class)) => StepError::Reducer(class),
        Err(ArtifactError::Memory) => StepError::Memory,
    };
    match reducer.after(PartitionStatus::Rollback) {
        Ok(()) | Err(ArtifactError::Fault(_)) => Err(error),
        Err(ArtifactError::Memory) => Err(StepError::Memory),
    }
}

// What the mapper's plan and the saved rows give, and whether the plan overrides these.
fn planned(
    alloc: Global,
    step: &Step,
    records: u64,
    mapper: &mut dyn PartitionMapper,
    saved: Option<Saved>,
) -> Result<(Prepared, bool), StepError>
    requires { records ≤ max_records }
    ensures prepared { IfOk result (λ r. IsPreparation step.now records (mapping mapper.old records) saved r.0) }
    ensures overrides { IfOk result (λ r. r.1 ≡ overrides_by (mapping mapper.old records) saved) }
    ensures setup { IfOk result (λ r. IsSetup r.0) }
    ensures refused { IfErr result (λ error. IsUnplanned step.now records (mapping mapper.old records) saved error) }
    ensures mapper { mapping mapper.new ≡ mapping mapper.old }
{
    let plan = match mapper.map(records) {
        Ok(plan) => plan,
        Err(ArtifactError::Fault(class)) => return Err(StepError::Mapper(class)),
        Err(ArtifactError::Memory) => return Err(StepError::Memory),
    };
    match checked(plan, records) {
        Ok(plan_checked) => {
            let overrides = plan_checked.replace() && saved.is_some();
            let prepared = opened(alloc, &plan_checked, step, records, saved)?;
            Ok((prepared, overrides))
        }
        Err(fault) => Err(StepError::Plan(fault)),
    }
}

// What a checked plan and the saved rows give.
fn opened(
    alloc: Global,
    plan: &Checked,
    step: &Step,
    records: u64,
    saved: Option<Saved>,
) -> Result<Prepared, StepError>
    ensures accepted { OnOk result (saved_faults step.now records plan.now.replace saved ≡ []) }
    ensures prepared { IfOk result (λ prepared. prepared ≡ opened_setup plan.now step.now saved) }
    ensures setup { IfOk result (λ prepared. IsSetup prepared) }
    ensures refused { IfErr result (λ error. IsUnopened step.now records plan.now.replace saved error) }
{
    match saved {
        None => fresh(alloc, plan, step),
        Some(saved) => {
            if !plan.replace() {
                return Prepared::resumed(alloc, plan, step, records, &saved);
            }
            if saved.step_id() != step.id() {
                return Err(StepError::Saved(SavedPlace::Step));
            }
            fresh(alloc, plan, step)
        }
    }
}

// All partitions begin from the start on the plan's ranges. The only error is `Memory`.
fn fresh(alloc: Global, plan: &Checked, step: &Step) -> Result<Prepared, StepError>
    ensures value { IfOk result (λ prepared. prepared ≡ setup_of_rows (fresh_rows plan.now.ranges) plan.now step.now true) }
    ensures setup { IfOk result (λ prepared. IsSetup prepared) }
    ensures err { IfErr result (λ error. error ≡ Memory) }
{
    Ok(Prepared::fresh(alloc, plan, step)?)
}
