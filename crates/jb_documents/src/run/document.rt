//! The document of `run`: a job record, and the data of each of its steps.

ghost use Rattle.std.specs.Prelude.{◌≡◌, ◌==◌, length, option_map, IfOk, IfErr, IfSome};
ghost use Rattle.json.specs.Value.{value_view};
ghost use Rattle.serde_json.specs.Events.{items_len};
ghost use Rattle.serde_json.specs.Find.{get};
ghost use Rattle.jb_job.specs.declared.field.Field.TheVariants as field;
ghost use Rattle.jb_job.specs.JobRecord.{job_at};
ghost use Rattle.jb_job.specs.Names.{name_of};
ghost use Rattle.jb_job.specs.Reading.{Gives, each_at};
ghost use Rattle.jb_documents.specs.RunDocument.{IsDocument, IsRefusedDocument, data_list_at, document_at};
ghost use Rattle.jb_documents.specs.StepFields.{data_at};
ghost use Rattle.jb_documents.specs.inside.Borrowed.{IsReadable, items_seen, seen};
ghost use Rattle.jb_documents.specs.inside.Taken.{taken};

use super::step_data::StepData;
use super::step_fields::step_data;
use crate::borrowed::{borrowed_tree, owned};
use crate::fields::take_field;
use crate::kinds::{array, object};
use jb_base::Listed;
use jb_job::{Field, Job, JobError, job_of};
use json::{Scratch, Value as Borrowed};
use std::alloc::Global;

/// The data of a job's steps, in order.
pub type DataList = Listed<StepData>;

/// A job and the data of its steps.
#[derive(Drop)]
pub struct Document {
    pub job: Job,
    pub step_data: DataList,
}

#[tactic(auto, using(crate::proofs::Trees::tree_steps))]
fn is_one_for_each_step(job: &Job, items: &Vec<Borrowed<'_>>) -> bool
    ensures { result ≡ (items_len (items_seen items.now.items) == length job.now.steps) }
{
    items.len() == job.steps.as_slice().len()
}

/// The data of the steps, in order. The tree of each is let go once it is read.
fn steps_data(alloc: Global, job: &Job, trees: Vec<Borrowed<'_>>) -> Result<Vec<StepData>, JobError>
    ensures { Gives (λ v. v.items) result (each_at (λ _. data_at job.now.classes) (items_seen trees.entry.items)) }
{
    let mut steps = Vec::with_capacity(alloc, trees.len())?;
    for tree in trees {
        let step = step_data(alloc, job, tree)?;
        steps.push(step)?;
    }
    Ok(steps)
}

/// The list of data, one for each of the job's steps.
#[tactic(auto, unfolding(crate::specs::RunDocument::data_list_at))]
fn data_list(alloc: Global, job: &Job, tree: Borrowed<'_>) -> Result<DataList, JobError>
    ensures { Gives (λ ds. ds) result (data_list_at job.now field.Data (seen tree.entry)) }
{
    let items = array(Field::Data, tree)?;
    if !is_one_for_each_step(job, &items) {
        return Err(JobError::WrongShape(Field::Data));
    }
    let steps = steps_data(alloc, job, items)?;
    Ok(DataList::new(steps))
}

/// The job that was taken out of a document, which has to be there.
pub(crate) fn document_job(alloc: Global, found: Option<Borrowed<'_>>) -> Result<Job, JobError>
    requires { IfSome found (λ tree. IsReadable (value_view tree)) }
    ensures { Gives (λ job. job) result (taken (λ _. job_at) field.Job (option_map seen found.entry)) }
{
    let tree = found.ok_or(JobError::WrongShape(Field::Job))?;
    let tree = owned(alloc, &tree)?;
    job_of(alloc, &tree)
}

/// The list of data that was taken out of a document, which has to be there.
pub(crate) fn document_data(
    alloc: Global,
    job: &Job,
    found: Option<Borrowed<'_>>,
) -> Result<DataList, JobError>
    ensures { Gives (λ ds. ds) result (taken (data_list_at job.now) field.Data (option_map seen found.entry)) }
{
    data_list(alloc, job, found.ok_or(JobError::WrongShape(Field::Data))?)
}

/// The fields of the job and of the data, where they are there.
fn take_parts<'a>(tree: Borrowed<'a>) -> (Option<Borrowed<'a>>, Option<Borrowed<'a>>)
    ensures job { option_map seen result.0 ≡ get (name_of field.Job) (seen tree.entry) }
    ensures given { option_map seen result.1 ≡ get (name_of field.Data) (seen tree.entry) }
    ensures readable { IsReadable (value_view tree.entry) → IfSome result.0 (λ job. IsReadable (value_view job)) }
{
    let (job, rest) = take_field(Field::Job, tree);
    let (given, _nothing) = take_field(Field::Data, rest);
    (job, given)
}

/// The document that the tree holds, or its first fault.
#[tactic(auto, unfolding(crate::specs::RunDocument::document_at, jb_job::specs::Reading::required))]
fn document_of(alloc: Global, tree: Borrowed<'_>) -> Result<Document, JobError>
    requires { IsReadable (value_view tree) }
    ensures { Gives (λ d. d) result (document_at (seen tree.entry)) }
{
    object(Field::Unknown, &[Field::Job, Field::Data], &tree)?;
    let (job, given) = take_parts(tree);
    let job = document_job(alloc, job)?;
    let steps = document_data(alloc, &job, given)?;
    Ok(Document {
        job,
        step_data: steps,
    })
}

/// The document that the bytes hold, or their first fault: `NotJson` if they are no JSON text. The bytes are freed
/// once they are read.
pub fn read_document(alloc: Global, bytes: Vec<u8>) -> Result<Document, JobError>
    ensures document { IfOk result (IsDocument bytes.items) }
    ensures refused { IfErr result (λ fault. IsRefusedDocument fault bytes.items) }
{
    let mut scratch = Scratch::new(alloc);
    let tree = borrowed_tree(alloc, &bytes, &mut scratch)?;
    document_of(alloc, tree)
}
