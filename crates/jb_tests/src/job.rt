//! Tests of what no clause says: that calls succeed, and values from outside.

ghost use Rattle.serde_json.specs.View.{items_view};
ghost use Rattle.jb_job.specs.Reading.{Gives, each_at, shaped, whole_number};
ghost use Rattle.jb_job.specs.declared.field.Field.TheVariants as field;
ghost use Rattle.jb_job.specs.Worked.{RangesRow, ClassesRow, RefusedRows};

use jb_job::kinds::{each_by_value, whole};
use jb_job::*;
use serde_json::Value;
use std::alloc::Global;
use std::marker::Brand;
use std::test::Fail;

fn worked_rows()
    ensures ranges { RangesRow }
    ensures classes { ClassesRow }
    ensures refused { RefusedRows }
{}

const RANGES: &str =
    r#"{"id":"j","step":[{"chunk":{"item-count":2},"id":"s","partition":{"plan":{"ranges":[[0,2],[2,3]],"threads":1}}}]}"#;

/// Whether the step has two ranges, two items in a chunk, and no class that is to roll nothing back.
fn has_two_ranges(step: &Step) -> bool {
    if step.rules().no_rollback != 0 {
        return false;
    }
    match step.spec().ranges() {
        Some(ranges) => ranges.as_slice().len() == 2 && step.item_count() == 2,
        None => false,
    }
}

/// Whether they are such steps, and those of a job.
fn are_of_two_ranges(steps: Steps) -> bool {
    let mut are = Steps::fit(steps.as_slice());
    for step in steps.into_vec() {
        are = are && has_two_ranges(&step);
    }
    are
}

/// A job that is read at the first try, or at the second where the first found no memory.
fn read_again(alloc: Global) -> Result<Job, JobError> {
    match read_job(alloc, RANGES.as_bytes()) {
        Err(JobError::Memory) => read_job(alloc, RANGES.as_bytes()),
        read => read,
    }
}

/// `tests/refused-memory` runs it also with each of its requests for memory refused in turn: then the answer is Memory and no other.
#[test]
fn ranges_are_read_or_memory_is_wanted(rt: HostRuntime) -> Result<(), Fail> {
    worked_rows();
    let Job { id, steps, .. } = read_again(rt.alloc())?;
    assert!(rt; are_of_two_ranges(steps));
    assert!(rt; id.into_string().as_str() == "j");
    Ok(())
}

const CLASSES: &str =
    r#"{"exception-classes":["E","F","E","é"],"id":"j","step":[{"chunk":{"retry-limit":0,"skip-limit":1,"retryable-exception-classes":{"include":["*"],"exclude":["F"]},"no-rollback-exception-classes":{"include":["*"],"exclude":["é"]},"skippable-exception-classes":{"include":["é","E"]}},"id":"s","partition":{"plan":{"override":true,"partitions":3}}}]}"#;

/// Whether the job has a class of this name and number.
fn has_class(job: &Job, name: &str, number: u8) -> bool {
    match job.class(name) {
        Some(class) => class.number() == number,
        None => false,
    }
}

/// Whether the job knows these classes by their numbers, and `*` is none.
fn has_classes(job: &Job) -> bool {
    has_class(job, "E", 0)
        && has_class(job, "F", 1)
        && has_class(job, "é", 2)
        && job.class("*").is_none()
}

/// Whether the step follows the rules that it asks for.
fn has_rules(step: &Step) -> bool {
    let rules = Rules {
        skippable: 0b101,
        retryable: u64::MAX - 0b10,
        no_rollback: u64::MAX - 0b100,
        skip_limit: Some(1),
        retry_limit: 0,
    };
    step.item_count() == 10 && step.rules() == rules
}

/// Whether the step has that id, and asks for three partitions in place of those before.
fn has_three_partitions(step: Step) -> bool {
    let (id, spec) = step.into_parts();
    let numbers = (spec.partitions(), spec.threads(), spec.replace());
    numbers == (3, 0, true) && spec.into_ranges().is_none() && id.as_str() == "s"
}

#[test]
fn classes_are_read_or_memory_is_wanted(rt: HostRuntime) -> Result<(), Fail> {
    let tree = read_tree(rt.alloc(), CLASSES.as_bytes())?;
    let job = job_of(rt.alloc(), &tree)?;
    assert!(rt; has_classes(&job));
    for step in job.steps.into_vec() {
        assert!(rt; has_rules(&step) && has_three_partitions(step));
    }
    Ok(())
}

/// The numbers of a list, whose members are moved out of it.
fn numbers(alloc: Global, items: Vec<Value>) -> Result<Vec<u64>, JobError>
    ensures { Gives (λ v. v.items) result (each_at (λ _ d. shaped field.Rounds (whole_number d)) (items_view items.items)) }
{
    each_by_value::<Brand, u64, _>(alloc, items, |_, tree| whole(Field::Rounds, &tree))
}

fn items_of(tree: Value) -> Result<Vec<Value>, Fail> {
    match tree {
        Value::Array(items) => Ok(items),
        _other => Err(Fail::from("no list")),
    }
}

#[test]
fn members_moved(rt: HostRuntime) -> Result<(), Fail> {
    let items = items_of(read_tree(rt.alloc(), b"[7,8]")?)?;
    let numbers = numbers(rt.alloc(), items)?;
    assert!(rt; numbers.as_slice() == [7, 8].as_slice());
    Ok(())
}
