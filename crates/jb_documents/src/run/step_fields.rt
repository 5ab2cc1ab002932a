//! Reading the data of a step, field by field.

ghost use Rattle.std.specs.Prelude.{◌≡◌, [], length, None, option_map, IfOk};
ghost use Rattle.serde_json.specs.Find.{get};
ghost use Rattle.jb_job.specs.declared.field.Field.TheVariants as field;
ghost use Rattle.jb_base.specs.Limits.{max_affix, max_record};
ghost use Rattle.jb_job.specs.Names.{name_of};
ghost use Rattle.jb_job.specs.Reading.{Gives, each_at, or_else, text_at};
ghost use Rattle.jb_documents.specs.FaultLists.{no_faults, step_faults_at};
ghost use Rattle.jb_documents.specs.StepFields.{data_at, drop_at, records_at};
ghost use Rattle.jb_documents.specs.inside.Borrowed.{items_seen, seen};
ghost use Rattle.jb_documents.specs.inside.Taken.{taken};

use super::fault_lists::step_faults;
use super::faults::StepFaults;
use super::records::Records;
use super::step_data::StepData;
use crate::fields::take_field;
use crate::kinds::{list_by_value, object, text};
use jb_base::{MAX_AFFIX, MAX_RECORD, MAX_RECORDS, PackedList, Text};
use jb_job::{Field, Job, JobError};
use json::Value as Borrowed;
use std::alloc::Global;

/// The texts of the list, packed, with exact room for their ends. The list is walked once.
fn packed(alloc: Global, items: Vec<Borrowed<'_>>) -> Result<PackedList, JobError>
    ensures exact { Gives (λ texts. texts) result (each_at (λ _. text_at 0 max_record field.Records) (items_seen items.entry.items)) }
    ensures long { IfOk result (λ texts. length texts ≡ length items.entry.items) }
{
    let mut texts = PackedList::with_room(alloc, items.len(), 0)?;
    for item in items {
        texts.push(text(0, MAX_RECORD, Field::Records, &item)?.as_bytes())?;
    }
    Ok(texts)
}

#[tactic(auto, unfolding(crate::specs::StepFields::records_at))]
fn records(alloc: Global, tree: Borrowed<'_>) -> Result<Records, JobError>
    ensures { Gives (λ r. r) result (records_at field.Records (seen tree.entry)) }
{
    let items = list_by_value(0, MAX_RECORDS as usize, Field::Records, tree)?;
    Ok(Records::new(packed(alloc, items)?))
}

/// The records that were taken out of an object, which have to be there.
fn taken_records(alloc: Global, found: Option<Borrowed<'_>>) -> Result<Records, JobError>
    ensures { Gives (λ r. r) result (taken records_at field.Records (option_map seen found.entry)) }
{
    records(alloc, found.ok_or(JobError::WrongShape(Field::Records))?)
}

fn prefix(alloc: Global, found: Option<Borrowed<'_>>) -> Result<Text, JobError>
    ensures { Gives (λ t. t) result (or_else (text_at 0 max_affix field.Prefix) [] (option_map seen found.entry)) }
{
    match found {
        None => Ok(Text::new(String::new(alloc))),
        Some(given) => {
            let prefix = text(0, MAX_AFFIX, Field::Prefix, &given)?;
            Ok(Text::new(String::from_str(alloc, prefix)?))
        }
    }
}

#[tactic(auto, unfolding(crate::specs::StepFields::drop_at))]
fn dropped(alloc: Global, found: Option<Borrowed<'_>>) -> Result<Option<Text>, JobError>
    ensures { Gives (λ t. t) result (or_else (drop_at field.Drop) None (option_map seen found.entry)) }
{
    match found {
        None => Ok(None),
        Some(given) => {
            let dropped = text(1, MAX_AFFIX, Field::Drop, &given)?;
            Ok(Some(Text::new(String::from_str(alloc, dropped)?)))
        }
    }
}

fn faults(
    alloc: Global,
    job: &Job,
    records: u64,
    found: Option<Borrowed<'_>>,
) -> Result<StepFaults, JobError>
    ensures { Gives (λ f. f) result (or_else (step_faults_at job.now.classes records field.Faults) no_faults (option_map seen found.entry)) }
{
    match found {
        None => Ok(StepFaults::none(alloc)),
        Some(given) => step_faults(alloc, job, records, given),
    }
}

/// The fields of the data of a step, where they are there.
#[derive(Drop)]
struct Parts<'a> {
    records: Option<Borrowed<'a>>,
    prefix: Option<Borrowed<'a>>,
    drop: Option<Borrowed<'a>>,
    faults: Option<Borrowed<'a>>,
}

fn take_parts<'a>(tree: Borrowed<'a>) -> Parts<'a>
    ensures records { option_map seen result.records ≡ get (name_of field.Records) (seen tree.entry) }
    ensures prefix { option_map seen result.prefix ≡ get (name_of field.Prefix) (seen tree.entry) }
    ensures drop { option_map seen result.drop ≡ get (name_of field.Drop) (seen tree.entry) }
    ensures faults { option_map seen result.faults ≡ get (name_of field.Faults) (seen tree.entry) }
{
    let (records, rest) = take_field(Field::Records, tree);
    let (prefix, rest) = take_field(Field::Prefix, rest);
    let (drop, rest) = take_field(Field::Drop, rest);
    let (faults, _nothing) = take_field(Field::Faults, rest);
    Parts {
        records,
        prefix,
        drop,
        faults,
    }
}

/// The data of one of the job's steps that the tree holds, or its first fault. The tree's records are freed as soon
/// as they are packed.
#[tactic(auto, unfolding(crate::specs::StepFields::data_at, jb_job::specs::Reading::required, jb_job::specs::Reading::optional))]
pub fn step_data(alloc: Global, job: &Job, tree: Borrowed<'_>) -> Result<StepData, JobError>
    ensures { Gives (λ s. s) result (data_at job.now.classes (seen tree.entry)) }
{
    let table = [Field::Records, Field::Prefix, Field::Drop, Field::Faults];
    object(Field::Data, &table, &tree)?;
    let parts = take_parts(tree);
    let records = taken_records(alloc, parts.records)?;
    let prefix = prefix(alloc, parts.prefix)?;
    let drop = dropped(alloc, parts.drop)?;
    let count = records.as_list().len() as u64;
    let faults = faults(alloc, job, count, parts.faults)?;
    Ok(StepData {
        records,
        prefix,
        drop,
        faults,
    })
}
