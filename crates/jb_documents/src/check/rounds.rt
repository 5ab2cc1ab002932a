//! A plan that someone made, and its certificate: the fields `rounds` and `certificate` of the document of `check`.

ghost use Rattle.serde_json.specs.View.{view};
ghost use Rattle.jb_job.specs.declared.field.Field.TheVariants as field;
ghost use Rattle.jb_job.specs.Reading.{Gives, GivesExactly, required};
ghost use Rattle.jb_cert.specs.Plans.{plan_rounds};
ghost use Rattle.jb_documents.specs.CheckDocument.{certificate_at, named_certificate, round_at, rounds_at, slot_at};

use jb_base::MAX_PLACE;
use jb_cert::{Certificate, Plan, Slot};
use jb_job::kinds::{each, number, required, triple, whole};
use jb_job::{Field, JobError};
use serde_json::Value;
use std::alloc::Global;
use std::marker::Brand;

// A triple of lane, partition and chunk: its kind and its length, the kinds of its members, and then their ranges.
#[tactic(auto, unfolding(crate::specs::CheckDocument::slot_at))]
fn slot(tree: &Value) -> Result<Slot, JobError>
    ensures { GivesExactly (λ s. s) result (slot_at field.Rounds (view tree.now)) }
{
    let (lane, partition, chunk) = triple(Field::Rounds, tree)?;
    let lane = whole(Field::Rounds, lane)?;
    let partition = whole(Field::Rounds, partition)?;
    let chunk = whole(Field::Rounds, chunk)?;
    if lane <= MAX_PLACE && partition <= MAX_PLACE {
        Ok(Slot {
            lane: lane as u32,
            partition: partition as u32,
            chunk,
        })
    } else {
        Err(JobError::OutOfRange(Field::Rounds))
    }
}

// A round: a list of slots.
#[tactic(auto, unfolding(crate::specs::CheckDocument::round_at))]
fn round(alloc: Global, tree: &Value) -> Result<Vec<Slot>, JobError>
    ensures { Gives (λ v. v.items) result (round_at field.Rounds (view tree.now)) }
{
    let items = tree.as_array().ok_or(JobError::WrongShape(Field::Rounds))?;
    each::<Brand, Slot, _>(alloc, items, |_, tree| slot(tree))
}

/// The field `rounds` of a document: a list of rounds, each a list of triples `[lane, partition, chunk]` (else
/// `WrongShape`), with lanes and partitions below 4,294,967,296 (else `OutOfRange`).
#[tactic(auto, unfolding(crate::specs::CheckDocument::rounds_at, jb_job::specs::Reading::required))]
pub fn claimed_plan(alloc: Global, document: &Value) -> Result<Plan, JobError>
    ensures { Gives plan_rounds result (required rounds_at field.Rounds (view document.now)) }
{
    let items = required(Field::Rounds, document)?
        .as_array()
        .ok_or(JobError::WrongShape(Field::Rounds))?;
    let rounds = each::<Brand, Vec<Slot>, _>(alloc, items, |_, tree| round(alloc, tree))?;
    Ok(Plan { rounds })
}

// The certificate of a name. That of the longest partition has none.
fn named_certificate(name: &str) -> Result<Certificate, JobError>
    ensures { GivesExactly (λ c. c) result (named_certificate field.Certificate name.now) }
{
    match name {
        "Nothing" => Ok(Certificate::Nothing),
        "FullLoad" => Ok(Certificate::FullLoad),
        _ => Err(JobError::WrongShape(Field::Certificate)),
    }
}

/// The field `certificate` of a document: `Nothing`, `FullLoad`, or the number of the longest partition (else
/// `WrongShape`), which is below 4,294,967,296 (else `OutOfRange`). Whether there is such a partition is no matter here.
#[tactic(auto, unfolding(crate::specs::CheckDocument::certificate_at, jb_job::specs::Reading::required))]
pub fn claimed_certificate(document: &Value) -> Result<Certificate, JobError>
    ensures { GivesExactly (λ c. c) result (required certificate_at field.Certificate (view document.now)) }
{
    let tree = required(Field::Certificate, document)?;
    match tree.as_str() {
        Some(name) => named_certificate(name),
        None => {
            let partition = number(0, MAX_PLACE, Field::Certificate, tree)?;
            Ok(Certificate::Longest(partition as u32))
        }
    }
}
