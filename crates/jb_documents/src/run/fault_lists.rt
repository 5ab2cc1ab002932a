//! Reading the lists of planned faults.

ghost use Rattle.std.specs.Prelude.{◌≡◌, [], option_copied, option_map};
ghost use Rattle.serde_json.specs.Find.{get};
ghost use Rattle.jb_job.specs.declared.field.Field.TheVariants as field;
ghost use Rattle.jb_job.specs.Names.{name_of};
ghost use Rattle.jb_job.specs.Reading.{Gives, GivesExactly, each_at, or_else};
ghost use Rattle.jb_documents.specs.FaultLists.{class_named, fault_kind, fault_number, form_at, is_past, named_class_at, planned_fault_at, planned_faults_at, shaky_classes_at, step_faults_at};
ghost use Rattle.jb_documents.specs.inside.Borrowed.{items_seen, seen};
ghost use Rattle.jb_documents.specs.inside.Forms.{fault_form_of};

use super::faults::{ClassIds, FaultKind, PlannedFault, PlannedFaults, StepFaults};
use crate::fields::take_field;
use crate::kinds::{any_text, each, items, list, list_by_value, object, triple, whole};
use jb_base::{ClassId, MAX_ENTRIES, MAX_ENTRY_CLASSES};
use jb_job::{Field, Job, JobError};
use json::Value as Borrowed;
use std::alloc::Global;
use std::marker::Brand;

/// What follows the word of an entry: the name of a class, or the list of their names.
#[derive(Drop)]
enum EntryForm<'t, 'a> {
    Bad(&'a str),
    Shaky(&'t Borrowed<'a>),
}

#[tactic(auto, unfolding(crate::specs::FaultLists::form_at))]
fn entry_form<'t, 'a>(
    field: Field,
    word: &str,
    tree: &'t Borrowed<'a>,
) -> Result<EntryForm<'t, 'a>, JobError>
    ensures { GivesExactly fault_form_of result (form_at field word.now (seen tree.now)) }
{
    match word {
        "bad" => {
            let name = any_text(field, tree)?;
            Ok(EntryForm::Bad(name))
        }
        "shaky" => {
            let _names = items(field, tree)?;
            Ok(EntryForm::Shaky(tree))
        }
        _ => Err(JobError::WrongShape(field)),
    }
}

fn is_past(before: Option<&PlannedFault>, number: u64) -> bool
    ensures { result ≡ is_past (option_copied before.entry) number }
{
    match before {
        None => true,
        Some(before) => before.number < number,
    }
}

/// The number, where it is past that of the entry before it and that of one of so many records.
#[tactic(auto, unfolding(crate::specs::FaultLists::fault_number))]
fn fault_number(
    field: Field,
    records: u64,
    earlier: &[PlannedFault],
    number: u64,
) -> Result<u64, JobError>
    ensures { GivesExactly (λ n. n) result (fault_number field records earlier.now number) }
{
    if !is_past(earlier.last(), number) {
        Err(JobError::WrongShape(field))
    } else if number < records {
        Ok(number)
    } else {
        Err(JobError::OutOfRange(field))
    }
}

/// The class of a name that the job declares.
fn declared_class(job: &Job, name: &str) -> Result<ClassId, JobError>
    ensures { GivesExactly (λ c. c) result (class_named job.now.classes name.now) }
{
    match job.class(name) {
        None => Err(JobError::UnknownClass),
        Some(class) => Ok(class),
    }
}

#[tactic(auto, unfolding(crate::specs::FaultLists::named_class_at))]
fn named_class(job: &Job, field: Field, tree: &Borrowed<'_>) -> Result<ClassId, JobError>
    ensures { GivesExactly (λ c. c) result (named_class_at job.now.classes field (seen tree.now)) }
{
    let name = any_text(field, tree)?;
    declared_class(job, name)
}

#[tactic(auto, unfolding(crate::specs::FaultLists::shaky_classes_at))]
fn shaky_classes(
    alloc: Global,
    job: &Job,
    field: Field,
    tree: &Borrowed<'_>,
) -> Result<ClassIds, JobError>
    ensures { Gives (λ cs. cs) result (shaky_classes_at job.now.classes field (seen tree.now)) }
{
    let names = list(1, MAX_ENTRY_CLASSES, field, tree)?;
    let classes = each::<Brand, ClassId, _>(alloc, names, |_, tree| named_class(job, field, tree))?;
    Ok(ClassIds::new(classes))
}

#[tactic(auto, unfolding(crate::specs::FaultLists::fault_kind))]
fn fault_kind(
    alloc: Global,
    job: &Job,
    field: Field,
    form: EntryForm<'_, '_>,
) -> Result<FaultKind, JobError>
    ensures { Gives (λ k. k) result (fault_kind job.now.classes field (fault_form_of form.entry)) }
{
    match form {
        EntryForm::Bad(name) => {
            let class = declared_class(job, name)?;
            Ok(FaultKind::Bad(class))
        }
        EntryForm::Shaky(names) => {
            let classes = shaky_classes(alloc, job, field, names)?;
            Ok(FaultKind::Shaky(classes))
        }
    }
}

/// An entry after the earlier ones, for one of so many records.
#[tactic(auto, unfolding(crate::specs::FaultLists::planned_fault_at))]
fn planned_fault(
    alloc: Global,
    job: &Job,
    field: Field,
    records: u64,
    earlier: &[PlannedFault],
    tree: &Borrowed<'_>,
) -> Result<PlannedFault, JobError>
    ensures { Gives (λ p. p) result (planned_fault_at job.now.classes field records earlier.now (seen tree.now)) }
{
    let (number, word, given) = triple(field, tree)?;
    let number = whole(field, number)?;
    let word = any_text(field, word)?;
    let form = entry_form(field, word, given)?;
    let number = fault_number(field, records, earlier, number)?;
    let kind = fault_kind(alloc, job, field, form)?;
    Ok(PlannedFault { number, kind })
}

/// The entries, each after the earlier ones. The tree of each is let go once it is read.
fn entries(
    alloc: Global,
    job: &Job,
    records: u64,
    field: Field,
    trees: Vec<Borrowed<'_>>,
) -> Result<Vec<PlannedFault>, JobError>
    ensures { Gives (λ v. v.items) result (each_at (planned_fault_at job.now.classes field records) (items_seen trees.entry.items)) }
{
    let mut faults = Vec::with_capacity(alloc, trees.len())?;
    for tree in trees {
        let fault = planned_fault(alloc, job, field, records, &faults, &tree)?;
        faults.push(fault)?;
    }
    Ok(faults)
}

#[tactic(auto, unfolding(crate::specs::FaultLists::planned_faults_at))]
fn planned_faults(
    alloc: Global,
    job: &Job,
    records: u64,
    field: Field,
    tree: Borrowed<'_>,
) -> Result<PlannedFaults, JobError>
    ensures { Gives (λ ps. ps) result (planned_faults_at job.now.classes records field (seen tree.entry)) }
{
    let trees = list_by_value(0, MAX_ENTRIES, field, tree)?;
    let faults = entries(alloc, job, records, field, trees)?;
    Ok(PlannedFaults::new(faults))
}

/// The list of a field, which is empty where the field is absent.
fn optional_faults(
    alloc: Global,
    job: &Job,
    records: u64,
    field: Field,
    found: Option<Borrowed<'_>>,
) -> Result<PlannedFaults, JobError>
    ensures { Gives (λ ps. ps) result (or_else (planned_faults_at job.now.classes records field) [] (option_map seen found.entry)) }
{
    match found {
        None => Ok(PlannedFaults::new(Vec::new(alloc))),
        Some(given) => planned_faults(alloc, job, records, field, given),
    }
}

/// The fields of the reader's, the processor's and the writer's faults, where they are there.
fn take_parts<'a>(
    tree: Borrowed<'a>,
) -> (
    Option<Borrowed<'a>>,
    Option<Borrowed<'a>>,
    Option<Borrowed<'a>>,
)
    ensures read { option_map seen result.0 ≡ get (name_of field.Read) (seen tree.entry) }
    ensures process { option_map seen result.1 ≡ get (name_of field.Process) (seen tree.entry) }
    ensures write { option_map seen result.2 ≡ get (name_of field.Write) (seen tree.entry) }
{
    let (read, rest) = take_field(Field::Read, tree);
    let (process, rest) = take_field(Field::Process, rest);
    let (write, _nothing) = take_field(Field::Write, rest);
    (read, process, write)
}

/// The faults that the tree plans for a step with so many records, or its first fault.
#[tactic(auto, unfolding(crate::specs::FaultLists::step_faults_at, jb_job::specs::Reading::optional))]
pub fn step_faults(
    alloc: Global,
    job: &Job,
    records: u64,
    tree: Borrowed<'_>,
) -> Result<StepFaults, JobError>
    ensures { Gives (λ f. f) result (step_faults_at job.now.classes records field.Faults (seen tree.entry)) }
{
    let table = [Field::Read, Field::Process, Field::Write];
    object(Field::Faults, &table, &tree)?;
    let (read, process, write) = take_parts(tree);
    let read = optional_faults(alloc, job, records, Field::Read, read)?;
    let process = optional_faults(alloc, job, records, Field::Process, process)?;
    let write = optional_faults(alloc, job, records, Field::Write, write)?;
    Ok(StepFaults {
        read,
        process,
        write,
    })
}
