//! The document of `restart`: a document of `run`, and what the run before left.

ghost use Rattle.std.specs.Prelude.{◌≡◌, option_map, IfOk, IfErr, IfSome};
ghost use Rattle.json.specs.Value.{value_view};
ghost use Rattle.serde_json.specs.Find.{get};
ghost use Rattle.jb_job.specs.Names.{name_of};
ghost use Rattle.jb_job.specs.declared.field.Field.TheVariants as field;
ghost use Rattle.jb_documents.specs.RestartDocument.{GivesRestart, IsRestartText, IsRefusedRestart, restart_at};
ghost use Rattle.jb_documents.specs.inside.Borrowed.{IsReadable, seen};
ghost use Rattle.jb_documents.specs.inside.Parts.{parts_at};

use super::fault::RestartFault;
use super::resume::Resume;
use super::resume_fields::resume;
use crate::borrowed::borrowed_tree;
use crate::fields::take_field;
use crate::kinds::object;
use crate::run::{DataList, document_data, document_job};
use jb_job::{Field, Job, JobError};
use json::{Scratch, Value as Borrowed};
use std::alloc::Global;

/// A job, the data of its steps, and what the run before left.
#[derive(Drop)]
pub struct RestartDocument {
    pub job: Job,
    pub step_data: DataList,
    pub resume: Resume,
}

/// The fields of the job, of the data and of what the run before left, where they are there.
#[derive(Drop)]
struct Fields<'a> {
    job: Option<Borrowed<'a>>,
    given: Option<Borrowed<'a>>,
    resume: Option<Borrowed<'a>>,
}

fn take_fields<'a>(tree: Borrowed<'a>) -> Fields<'a>
    requires { IsReadable (value_view tree) }
    ensures job { option_map seen result.job ≡ get (name_of field.Job) (seen tree.entry) }
    ensures given { option_map seen result.given ≡ get (name_of field.Data) (seen tree.entry) }
    ensures resume { option_map seen result.resume ≡ get (name_of field.Resume) (seen tree.entry) }
    ensures readable_job { IfSome result.job (λ job. IsReadable (value_view job)) }
    ensures readable_resume { IfSome result.resume (λ resume. IsReadable (value_view resume)) }
{
    let (job, rest) = take_field(Field::Job, tree);
    let (given, rest) = take_field(Field::Data, rest);
    let (resume, _nothing) = take_field(Field::Resume, rest);
    Fields { job, given, resume }
}

/// The document of a job, its data and what the run before left, where these are there.
#[tactic(auto, unfolding(crate::specs::inside::Parts::parts_at))]
fn of_parts(
    alloc: Global,
    job: Job,
    given: Option<Borrowed<'_>>,
    left: Option<Borrowed<'_>>,
) -> Result<RestartDocument, RestartFault>
    requires { IfSome left (λ tree. IsReadable (value_view tree)) }
    ensures { GivesRestart result (parts_at job (option_map seen given.entry) (option_map seen left.entry)) }
{
    let steps = document_data(alloc, &job, given)?;
    let left = left.ok_or(JobError::WrongShape(Field::Resume))?;
    let resume = resume(alloc, job.steps.as_slice(), left)?;
    Ok(RestartDocument {
        job,
        step_data: steps,
        resume,
    })
}

/// The document that the tree holds, or its first fault.
#[tactic(auto, unfolding(crate::specs::RestartDocument::restart_at, jb_job::specs::Reading::required))]
fn document_of(alloc: Global, tree: Borrowed<'_>) -> Result<RestartDocument, RestartFault>
    requires { IsReadable (value_view tree) }
    ensures { GivesRestart result (restart_at (seen tree.entry)) }
{
    let table = [Field::Job, Field::Data, Field::Resume];
    object(Field::Unknown, &table, &tree)?;
    let fields = take_fields(tree);
    let job = document_job(alloc, fields.job)?;
    of_parts(alloc, job, fields.given, fields.resume)
}

/// The document that the bytes hold, or their first fault: `NotJson` if they are no JSON text. The bytes are freed
/// once they are read.
pub fn read_restart(alloc: Global, bytes: Vec<u8>) -> Result<RestartDocument, RestartFault>
    ensures document { IfOk result (IsRestartText bytes.items) }
    ensures refused { IfErr result (λ fault. IsRefusedRestart fault bytes.items) }
{
    let mut scratch = Scratch::new(alloc);
    let tree = borrowed_tree(alloc, &bytes, &mut scratch)?;
    document_of(alloc, tree)
}
