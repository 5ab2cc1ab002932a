//! The fields `counts` and `threads`, which the documents of `plan` and of `check` both have.

ghost use Rattle.std.specs.Prelude.{◌≡◌, ◌*◌, ◌≤◌, length, sum, nat_le, IfOk};
ghost use Rattle.serde_json.specs.View.{view, items_view};
ghost use Rattle.jb_job.specs.declared.field.Field.TheVariants as field;
ghost use Rattle.jb_base.specs.Limits.{max_chunks, max_load_partitions, max_threads};
ghost use Rattle.jb_job.specs.Reading.{Gives, GivesExactly, each_at, number_at, required};
ghost use Rattle.jb_documents.specs.PlanDocument.{counts_at};

use jb_base::{MAX_CHUNKS, MAX_LOAD_PARTITIONS, MAX_THREADS};
use jb_job::kinds::{each, list, number, required};
use jb_job::{Field, JobError};
use serde_json::Value;
use std::alloc::Global;
use std::marker::Brand;

// All counts, each checked before the next.
fn count_list(alloc: Global, items: &Vec<Value>) -> Result<Vec<u64>, JobError>
    ensures value { Gives (λ v. v.items) result (each_at (λ _. number_at 0 max_chunks field.Counts) (items_view items.now.items)) }
    ensures long { IfOk result (λ v. length v.items ≡ length items.now.items) }
{
    each::<Brand, u64, _>(alloc, items, |_, tree| {
        number(0, MAX_CHUNKS, Field::Counts, tree)
    })
}

// Whether there are no more chunks in all than can be planned.
fn are_few(counts: &[u64]) -> bool
    requires { sum counts.now ≤ max_load_partitions * max_chunks }
    ensures { result ≡ nat_le (sum counts.now) max_chunks }
{
    let total: u64 = counts.iter().sum();
    total <= MAX_CHUNKS
}

/// The field `counts` of a document: at most 4,096 numbers (else `TooMany`), each at most 10,000,000, and then their sum
/// at most 10,000,000 (else `OutOfRange`).
#[tactic(auto, unfolding(crate::specs::PlanDocument::counts_at, jb_job::specs::Reading::required))]
pub fn counts(alloc: Global, document: &Value) -> Result<Vec<u64>, JobError>
    ensures value { Gives (λ v. v.items) result (required counts_at field.Counts (view document.now)) }
    ensures few_counts { IfOk result (λ v. length v.items ≤ max_load_partitions) }
    ensures few_chunks { IfOk result (λ v. sum v.items ≤ max_chunks) }
{
    let items = list(
        0,
        MAX_LOAD_PARTITIONS,
        Field::Counts,
        required(Field::Counts, document)?,
    )?;
    let counts = count_list(alloc, items)?;
    if are_few(&counts) {
        Ok(counts)
    } else {
        Err(JobError::OutOfRange(Field::Counts))
    }
}

/// The field `threads` of a document: 1 to 64.
#[tactic(auto, unfolding(jb_job::specs::Reading::required))]
pub fn threads(document: &Value) -> Result<u32, JobError>
    ensures value { GivesExactly (λ n. n) result (required (number_at 1 max_threads) field.Threads (view document.now)) }
    ensures some { IfOk result (λ n. 1 ≤ n) }
    ensures few { IfOk result (λ n. n ≤ max_threads) }
{
    let threads = number(
        1,
        u64::from(MAX_THREADS),
        Field::Threads,
        required(Field::Threads, document)?,
    )?;
    Ok(threads as u32)
}
