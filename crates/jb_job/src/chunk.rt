//! The object `chunk`: the item count of a step, and its rules of skipping and retrying.

ghost use Rattle.std.specs.Prelude.{◌≤◌, IfOk, None};
ghost use Rattle.std.specs.Option.{ForSome};
ghost use Rattle.serde_json.specs.View.{view};
ghost use Rattle.jb_job.specs.Reading.{Gives, GivesExactly, number_at, optional};
ghost use Rattle.jb_base.specs.Limits.{max_item_count, default_item_count, max_skip_limit, max_retry_limit, default_retry_limit};
ghost use Rattle.jb_job.specs.JobRecord.{limit_at, chunk_at};
ghost use Rattle.jb_job.specs.declared.field.Field.TheVariants as field;

use crate::class_set::class_field;
use crate::classes::Classes;
use crate::error::JobError;
use crate::field::Field;
use crate::kinds::{number, object};
use jb_base::{
    DEFAULT_ITEM_COUNT, DEFAULT_RETRY_LIMIT, MAX_ITEM_COUNT, MAX_RETRY_LIMIT, MAX_SKIP_LIMIT, Rules,
};
use serde_json::Value;
use std::alloc::Global;

#[tactic(auto, unfolding(crate::specs::Reading::optional))]
fn item_count(chunk: &Value) -> Result<u64, JobError>
    ensures exact { GivesExactly (λ n. n) result (optional (number_at 1 max_item_count) default_item_count field.ItemCount (view chunk.now)) }
    ensures least { IfOk result (λ n. 1 ≤ n) }
    ensures most { IfOk result (λ n. n ≤ max_item_count) }
{
    match chunk.get(Field::ItemCount.name()) {
        None => Ok(DEFAULT_ITEM_COUNT),
        Some(count) => number(1, MAX_ITEM_COUNT, Field::ItemCount, count),
    }
}

#[tactic(auto, unfolding(crate::specs::JobRecord::limit_at, crate::specs::Reading::optional))]
fn skip_limit(chunk: &Value) -> Result<Option<u64>, JobError>
    ensures exact { GivesExactly (λ n. n) result (optional (limit_at max_skip_limit) None field.SkipLimit (view chunk.now)) }
    ensures most { IfOk result (λ limit. ForSome limit (λ n. n ≤ max_skip_limit)) }
{
    match chunk.get(Field::SkipLimit.name()) {
        None => Ok(None),
        Some(limit) => Ok(Some(number(0, MAX_SKIP_LIMIT, Field::SkipLimit, limit)?)),
    }
}

#[tactic(auto, unfolding(crate::specs::Reading::optional))]
fn retry_limit(chunk: &Value) -> Result<u64, JobError>
    ensures exact { GivesExactly (λ n. n) result (optional (number_at 0 max_retry_limit) default_retry_limit field.RetryLimit (view chunk.now)) }
    ensures most { IfOk result (λ n. n ≤ max_retry_limit) }
{
    match chunk.get(Field::RetryLimit.name()) {
        None => Ok(DEFAULT_RETRY_LIMIT),
        Some(limit) => number(0, MAX_RETRY_LIMIT, Field::RetryLimit, limit),
    }
}

/// The item count and the rules of a step.
#[tactic(auto, unfolding(crate::specs::JobRecord::chunk_at))]
pub fn chunk_parts(alloc: Global, classes: &Classes, tree: &Value) -> Result<(u64, Rules), JobError>
    ensures exact { Gives (λ c. c) result (chunk_at classes.now field.Chunk (view tree.now)) }
    ensures least { IfOk result (λ c. 1 ≤ c.0) }
    ensures most { IfOk result (λ c. c.0 ≤ max_item_count) }
{
    let chunk = object(
        Field::Chunk,
        &[
            Field::ItemCount,
            Field::SkipLimit,
            Field::RetryLimit,
            Field::SkippableExceptionClasses,
            Field::RetryableExceptionClasses,
            Field::NoRollbackExceptionClasses,
        ],
        tree,
    )?;
    let item_count = item_count(chunk)?;
    let skip_limit = skip_limit(chunk)?;
    let retry_limit = retry_limit(chunk)?;
    let skippable = class_field(alloc, classes, Field::SkippableExceptionClasses, chunk)?;
    let retryable = class_field(alloc, classes, Field::RetryableExceptionClasses, chunk)?;
    let no_rollback = class_field(alloc, classes, Field::NoRollbackExceptionClasses, chunk)?;
    let rules = Rules {
        skippable,
        retryable,
        no_rollback,
        skip_limit,
        retry_limit,
    };
    Ok((item_count, rules))
}
