//! The object `partition`: what a step asks of its partitions.

ghost use Rattle.std.specs.Prelude.{◌≡◌, ◌≤◌, All, IfOk, Some, None, false, is_some, length};
ghost use Rattle.std.specs.Option.{ForSome};
ghost use Rattle.serde_json.specs.Find.{get};
ghost use Rattle.serde_json.specs.View.{view, items_view};
ghost use Rattle.jb_job.specs.Names.{name_of};
ghost use Rattle.jb_job.specs.Reading.{Gives, GivesExactly, each_at, flag_at, number_at, optional};
ghost use Rattle.jb_base.specs.Range.{IsNumbered};
ghost use Rattle.jb_base.specs.Limits.{max_partitions_asked, max_ranges, max_threads_asked};
ghost use Rattle.jb_job.specs.JobRecord.{range_pair_at, own_ranges_at, plan_at, partition_at};
ghost use Rattle.jb_job.specs.declared.field.Field.TheVariants as field;

use crate::error::JobError;
use crate::field::Field;
use crate::job::Spec;
use crate::kinds::{each, flag, list, number, object, pair, required, whole};
use jb_base::{MAX_PARTITIONS_ASKED, MAX_RANGES, MAX_RECORDS, MAX_THREADS_ASKED, Range, Ranges};
use serde_json::Value;
use std::alloc::Global;
use std::marker::Brand;

#[tactic(auto, unfolding(crate::specs::JobRecord::range_pair_at))]
fn range(tree: &Value) -> Result<Range, JobError>
    ensures { GivesExactly (λ r. r) result (range_pair_at (view tree.now)) }
{
    let (lo, hi) = pair(Field::Ranges, tree)?;
    let lo = whole(Field::Ranges, lo)?;
    let hi = whole(Field::Ranges, hi)?;
    if lo <= MAX_RECORDS && hi <= MAX_RECORDS {
        Ok(Range { lo, hi })
    } else {
        Err(JobError::OutOfRange(Field::Ranges))
    }
}

fn ranges(alloc: Global, items: &Vec<Value>) -> Result<Ranges, JobError>
    ensures exact { Gives (λ r. r) result (each_at (λ _. range_pair_at) (items_view items.now.items)) }
    ensures long { IfOk result (λ r. length r ≡ length items.now.items) }
    ensures numbered { IfOk result (All IsNumbered) }
{
    let ranges = each::<Brand, Range, _>(alloc, items, |_, tree| range(tree))?;
    Ok(Ranges::new(ranges))
}

/// The ranges of a plan that has no number of partitions.
#[tactic(auto, unfolding(crate::specs::JobRecord::own_ranges_at))]
fn own_ranges(alloc: Global, counted: bool, tree: &Value) -> Result<Ranges, JobError>
    ensures exact { Gives (λ r. Some r) result (own_ranges_at counted field.Ranges (view tree.now)) }
    ensures few { IfOk result (λ r. length r ≤ max_ranges) }
    ensures numbered { IfOk result (All IsNumbered) }
    ensures alone { IfOk result (λ _. counted ≡ false) }
{
    if counted {
        return Err(JobError::WrongShape(Field::Ranges));
    }
    ranges(alloc, list(0, MAX_RANGES, Field::Ranges, tree)?)
}

/// The number of even partitions, 1 if none is given.
#[tactic(auto, unfolding(crate::specs::Reading::optional))]
fn partitions(plan: &Value) -> Result<u32, JobError>
    ensures exact { GivesExactly (λ n. n) result (optional (number_at 1 max_partitions_asked) 1 field.Partitions (view plan.now)) }
    ensures least { IfOk result (λ n. 1 ≤ n) }
    ensures most { IfOk result (λ n. n ≤ max_partitions_asked) }
    ensures absent { is_some (get (name_of field.Partitions) (view plan.now)) ≡ false → IfOk result (λ n. n ≡ 1) }
{
    match plan.get(Field::Partitions.name()) {
        None => Ok(1),
        Some(given) => {
            let most = u64::from(MAX_PARTITIONS_ASKED);
            Ok(number(1, most, Field::Partitions, given)? as u32)
        }
    }
}

/// The number of threads asked for, 0 if none is given.
#[tactic(auto, unfolding(crate::specs::Reading::optional))]
fn threads(plan: &Value) -> Result<u32, JobError>
    ensures exact { GivesExactly (λ n. n) result (optional (number_at 0 max_threads_asked) 0 field.Threads (view plan.now)) }
    ensures most { IfOk result (λ n. n ≤ max_threads_asked) }
{
    match plan.get(Field::Threads.name()) {
        None => Ok(0),
        Some(given) => {
            let most = u64::from(MAX_THREADS_ASKED);
            Ok(number(0, most, Field::Threads, given)? as u32)
        }
    }
}

/// Whether a restart begins from the start; false if the plan doesn't say.
#[tactic(auto, unfolding(crate::specs::Reading::optional))]
fn replace(plan: &Value) -> Result<bool, JobError>
    ensures { GivesExactly (λ b. b) result (optional flag_at false field.Override (view plan.now)) }
{
    match plan.get(Field::Override.name()) {
        None => Ok(false),
        Some(replace) => flag(Field::Override, replace),
    }
}

/// The ranges, if there are any.
#[tactic(auto, unfolding(crate::specs::Reading::optional))]
fn given_ranges(alloc: Global, counted: bool, plan: &Value) -> Result<Option<Ranges>, JobError>
    ensures exact { Gives (λ r. r) result (optional (own_ranges_at counted) None field.Ranges (view plan.now)) }
    ensures few { IfOk result (λ ranges. ForSome ranges (λ r. length r ≤ max_ranges)) }
    ensures numbered { IfOk result (λ ranges. ForSome ranges (All IsNumbered)) }
    ensures alone { IfOk result (λ ranges. ForSome ranges (λ _. counted ≡ false)) }
{
    match plan.get(Field::Ranges.name()) {
        None => Ok(None),
        Some(ranges) => Ok(Some(own_ranges(alloc, counted, ranges)?)),
    }
}

#[tactic(auto, unfolding(crate::specs::JobRecord::plan_at))]
fn plan(alloc: Global, tree: &Value) -> Result<Spec, JobError>
    ensures { Gives (λ s. s) result (plan_at field.Plan (view tree.now)) }
{
    let plan = object(
        Field::Plan,
        &[
            Field::Partitions,
            Field::Threads,
            Field::Override,
            Field::Ranges,
        ],
        tree,
    )?;
    let counted = plan.get(Field::Partitions.name()).is_some();
    let partitions = partitions(plan)?;
    let threads = threads(plan)?;
    let replace = replace(plan)?;
    let ranges = given_ranges(alloc, counted, plan)?;
    Ok(Spec::new(partitions, threads, replace, ranges))
}

/// What the object asks.
#[tactic(auto, unfolding(crate::specs::JobRecord::partition_at, crate::specs::Reading::required))]
pub fn partition_spec(alloc: Global, tree: &Value) -> Result<Spec, JobError>
    ensures { Gives (λ s. s) result (partition_at field.Partition (view tree.now)) }
{
    let partition = object(Field::Partition, &[Field::Plan], tree)?;
    plan(alloc, required(Field::Plan, partition)?)
}
