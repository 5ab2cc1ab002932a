//! The fault plans of a partition's artifacts.

ghost use Rattle.std.specs.Prelude.{◌≡◌, filter, IfOk, OnOk};
ghost use Rattle.jb_artifacts.specs.Faults.{plans_of, with_plan};
ghost use Rattle.jb_documents.specs.FaultOrder.{AreFaultsInOrder};
ghost use Rattle.jb_program.specs.PartitionRun.{fault_plan_of, is_of_range, plans_in};

use jb_artifacts::{FaultList, FaultPlan, FaultPlans};
use jb_base::Range;
use jb_documents::{ClassIds, FaultKind, PlannedFault, PlannedFaults};
use std::alloc::{AllocError, Global};

fn fault_list(alloc: Global, classes: &ClassIds) -> Result<FaultList, AllocError>
    ensures { IfOk result (λ list. list ≡ classes.now) }
{
    let classes = Vec::from_slice(alloc, classes.as_slice())?;
    Ok(FaultList::from_vec(classes))
}

fn fault_plan(alloc: Global, kind: &FaultKind) -> Result<FaultPlan, AllocError>
    ensures { IfOk result (λ plan. plan ≡ fault_plan_of kind.now) }
{
    match kind {
        FaultKind::Bad(class) => Ok(FaultPlan::Bad(*class)),
        FaultKind::Shaky(classes) => {
            let list = fault_list(alloc, classes)?;
            Ok(FaultPlan::Shaky(list))
        }
    }
}

/// The faults for records of the range: they are next to each other.
fn faults_in(faults: &[PlannedFault], range: Range) -> &[PlannedFault]
    requires { AreFaultsInOrder faults.now }
    ensures { result.now ≡ filter (is_of_range range) faults.now }
{
    let first = faults.partition_point(|fault| fault.number < range.lo);
    let later = &faults[first..];
    let count = later.partition_point(|fault| fault.number < range.hi);
    &later[..count]
}

/// Puts the plan for the fault's record among the others.
fn put_plan(alloc: Global, fault: &PlannedFault, plans: &mut FaultPlans) -> Result<(), AllocError>
    ensures { OnOk result (plans_of plans.new ≡ with_plan (plans_of plans.old) fault.now.number (fault_plan_of fault.now.kind)) }
{
    let plan = fault_plan(alloc, &fault.kind)?;
    plans.insert(fault.number, plan)
}

/// The fault plans of the range's records. Its faults alone are looked at, but for the search of where they begin and end.
#[tactic(auto, unfolding(crate::specs::PartitionRun::plans_in))]
pub fn plans_for(
    alloc: Global,
    faults: &PlannedFaults,
    range: Range,
) -> Result<FaultPlans, AllocError>
    ensures { IfOk result (λ plans. plans_of plans ≡ plans_in faults.now range) }
{
    let mut plans = FaultPlans::new(alloc);
    for fault in faults_in(faults.as_slice(), range) {
        put_plan(alloc, fault, &mut plans)?;
    }
    Ok(plans)
}
