//! Reading a job record, field by field.

ghost use Rattle.std.specs.Prelude.{◌≤◌, [], IfOk, length};
ghost use Rattle.serde_json.specs.View.{view, items_view};
ghost use Rattle.jb_job.specs.Reading.{Gives, GivesExactly, GivesOfText, each_at, optional, required, text_at, tree_of};
ghost use Rattle.jb_base.specs.Name.{IsName};
ghost use Rattle.jb_base.specs.Limits.{max_name, max_steps};
ghost use Rattle.jb_job.specs.JobRecord.{classes_at, new_id_at, one_partition, partition_at, steps_at, step_at, job_at};
ghost use Rattle.jb_job.specs.declared.field.Field.TheVariants as field;

use crate::chunk::chunk_parts;
use crate::class_list::class_list;
use crate::classes::Classes;
use crate::error::JobError;
use crate::field::Field;
use crate::job::{Job, Spec, Step};
use crate::kinds::{each, list, object, required, text};
use crate::partition::partition_spec;
use crate::steps::{Steps, has_id};
use crate::tree::read_tree;
use indexmap::IndexSet;
use jb_base::{MAX_NAME, MAX_STEPS, Name};
use serde_json::Value;
use std::alloc::Global;
use std::marker::Brand;

/// The id of a step, which no earlier step has.
#[tactic(auto, unfolding(crate::specs::JobRecord::new_id_at))]
fn new_id<'a>(earlier: &[Step], tree: &'a Value) -> Result<&'a str, JobError>
    ensures exact { GivesExactly (λ s. s.now) result (new_id_at earlier.now field.Id (view tree.now)) }
    ensures named { IfOk result (λ s. IsName s.now) }
{
    let id = text(1, MAX_NAME, Field::Id, tree)?;
    if has_id(earlier, id) {
        Err(JobError::WrongShape(Field::Id))
    } else {
        Ok(id)
    }
}

/// What a step asks of its partitions: one partition, if it says nothing of them.
#[tactic(auto, unfolding(crate::specs::Reading::optional))]
fn step_spec(alloc: Global, step: &Value) -> Result<Spec, JobError>
    ensures { Gives (λ s. s) result (optional partition_at one_partition field.Partition (view step.now)) }
{
    match step.get(Field::Partition.name()) {
        None => Ok(Spec::new(1, 0, false, None)),
        Some(given) => partition_spec(alloc, given),
    }
}

#[tactic(auto, unfolding(crate::specs::JobRecord::step_at, crate::specs::Reading::required))]
fn step(alloc: Global, classes: &Classes, earlier: &[Step], tree: &Value) -> Result<Step, JobError>
    ensures { Gives (λ s. s) result (step_at classes.now earlier.now (view tree.now)) }
{
    let step = object(
        Field::Step,
        &[Field::Id, Field::Chunk, Field::Partition],
        tree,
    )?;
    let id = new_id(earlier, required(Field::Id, step)?)?;
    let (item_count, rules) = chunk_parts(alloc, classes, required(Field::Chunk, step)?)?;
    let spec = step_spec(alloc, step)?;
    let id = Name::new(String::from_str(alloc, id)?);
    Ok(Step::new(id, item_count, rules, spec))
}

fn steps(alloc: Global, classes: &Classes, items: &Vec<Value>) -> Result<Steps, JobError>
    requires some { 1 ≤ length items.now.items }
    requires few { length items.now.items ≤ max_steps }
    ensures { Gives (λ s. s) result (each_at (step_at classes.now) (items_view items.now.items)) }
{
    let steps = each::<Brand, Step, _>(alloc, items, |earlier, tree| {
        step(alloc, classes, earlier, tree)
    })?;
    Ok(Steps::new(steps))
}

/// The id of a job.
#[tactic(auto, unfolding(crate::specs::Reading::required))]
fn job_id(job: &Value) -> Result<&str, JobError>
    ensures exact { GivesExactly (λ s. s.now) result (required (text_at 1 max_name) field.Id (view job.now)) }
    ensures named { IfOk result (λ s. IsName s.now) }
{
    text(1, MAX_NAME, Field::Id, required(Field::Id, job)?)
}

/// The classes that a job declares; no classes if it has no list of them.
#[tactic(auto, unfolding(crate::specs::Reading::optional))]
fn job_classes(alloc: Global, job: &Value) -> Result<Classes, JobError>
    ensures { Gives (λ c. c) result (optional classes_at [] field.ExceptionClasses (view job.now)) }
{
    match job.get(Field::ExceptionClasses.name()) {
        None => Ok(Classes::new(IndexSet::new(alloc))),
        Some(names) => class_list(alloc, names),
    }
}

/// The steps of a job with these classes.
#[tactic(auto, unfolding(crate::specs::JobRecord::steps_at, crate::specs::Reading::required))]
fn job_steps(alloc: Global, classes: &Classes, job: &Value) -> Result<Steps, JobError>
    ensures { Gives (λ s. s) result (required (steps_at classes.now) field.Step (view job.now)) }
{
    let items = list(1, MAX_STEPS, Field::Step, required(Field::Step, job)?)?;
    steps(alloc, classes, items)
}

/// The Job that the tree describes, or its first fault.
#[tactic(auto, unfolding(crate::specs::JobRecord::job_at))]
pub fn job_of(alloc: Global, tree: &Value) -> Result<Job, JobError>
    ensures { Gives (λ j. j) result (job_at (view tree.now)) }
{
    let job = object(
        Field::Job,
        &[Field::Id, Field::ExceptionClasses, Field::Step],
        tree,
    )?;
    let id = job_id(job)?;
    let classes = job_classes(alloc, job)?;
    let steps = job_steps(alloc, &classes, job)?;
    Ok(Job {
        id: Name::new(String::from_str(alloc, id)?),
        classes,
        steps,
    })
}

/// The Job that the text describes, or its first fault: NotJson exactly if the text has no tree.
pub fn read_job(alloc: Global, bytes: &[u8]) -> Result<Job, JobError>
    ensures { GivesOfText (λ j. j) job_at result (tree_of bytes.now) }
{
    let tree = read_tree(alloc, bytes)?;
    job_of(alloc, &tree)
}
