//! Reading what the run before left, field by field.

ghost use Rattle.std.specs.Prelude.{◌≡◌, bytes_eq, option_map, IfSome};
ghost use Rattle.std.specs.List.{list_all, list_any, zip};
ghost use Rattle.json.specs.Value.{value_view};
ghost use Rattle.serde_json.specs.Find.{as_str, get};
ghost use Rattle.jb_job.specs.Names.{name_of};
ghost use Rattle.jb_job.specs.Reading.{Gives, GivesExactly, each_at, shaped};
ghost use Rattle.jb_job.specs.declared.field.Field.TheVariants as field;
ghost use Rattle.jb_documents.specs.ResumeFields.{texts_at, outputs_at, holds, held_outputs_at};
ghost use Rattle.jb_documents.specs.RestartDocument.{GivesRestart, resume_at, saves};
ghost use Rattle.jb_documents.specs.inside.Borrowed.{IsReadable, items_seen, seen};
ghost use Rattle.jb_saved.specs.Reading.{saved_at};

use super::fault::RestartFault;
use super::outputs::{Outputs, WriterTexts};
use super::resume::Resume;
use crate::borrowed::owned;
use crate::fields::take_field;
use crate::kinds::{any_text, array, items, object, text_bytes};
use jb_base::PackedList;
use jb_job::{Field, JobError, Step};
use jb_rules::Row;
use jb_saved::{SavedError, SavedPlace, SavedRows};
use json::Value as Borrowed;
use std::alloc::Global;

/// The texts of the list, packed into exact room.
fn packed(alloc: Global, items: &Vec<Borrowed<'_>>) -> Result<PackedList, JobError>
    ensures { Gives (λ texts. texts) result (each_at (λ _ text. shaped field.Outputs (as_str text)) (items_seen items.now.items)) }
{
    let mut texts = PackedList::with_room(alloc, items.len(), text_bytes(items))?;
    for item in items {
        texts.push(any_text(Field::Outputs, item)?.as_bytes())?;
    }
    Ok(texts)
}

#[tactic(auto, unfolding(crate::specs::ResumeFields::texts_at))]
fn writer_texts(alloc: Global, tree: Borrowed<'_>) -> Result<WriterTexts, JobError>
    ensures { Gives (λ t. t) result (texts_at field.Outputs (seen tree.entry)) }
{
    let items = items(Field::Outputs, &tree)?;
    Ok(WriterTexts::new(packed(alloc, items)?))
}

/// The texts of each writer. The tree of each is let go once its texts are packed.
fn writers(alloc: Global, trees: Vec<Borrowed<'_>>) -> Result<Vec<WriterTexts>, JobError>
    ensures { Gives (λ v. v.items) result (each_at (λ _. texts_at field.Outputs) (items_seen trees.entry.items)) }
{
    let mut writers = Vec::with_capacity(alloc, trees.len())?;
    for tree in trees {
        let texts = writer_texts(alloc, tree)?;
        writers.push(texts)?;
    }
    Ok(writers)
}

#[tactic(auto, unfolding(crate::specs::ResumeFields::outputs_at))]
fn outputs(alloc: Global, tree: Borrowed<'_>) -> Result<Outputs, JobError>
    ensures { Gives (λ o. o) result (outputs_at field.Outputs (seen tree.entry)) }
{
    let trees = array(Field::Outputs, tree)?;
    let writers = writers(alloc, trees)?;
    Ok(Outputs::new(writers))
}

/// Whether each writer holds the results that its row committed.
fn hold(outputs: &[WriterTexts], rows: &[Row]) -> bool
    ensures { result ≡ list_all holds (zip outputs.now rows.now) }
{
    outputs
        .iter()
        .zip(rows)
        .all(|(texts, row)| row.written <= texts.as_list().len() as u64)
}

/// The outputs, where there are as many writers as rows, and each holds what its row committed.
#[tactic(auto, unfolding(crate::specs::ResumeFields::held_outputs_at))]
fn held(outputs: Outputs, rows: &[Row]) -> Result<Outputs, JobError>
    ensures { GivesExactly (λ o. o) result (held_outputs_at field.Outputs outputs rows.now) }
{
    if outputs.as_slice().len() != rows.len() {
        Err(JobError::WrongShape(Field::Outputs))
    } else if hold(outputs.as_slice(), rows) {
        Ok(outputs)
    } else {
        Err(JobError::OutOfRange(Field::Outputs))
    }
}

/// Whether a step has the id.
fn has_id(steps: &[Step], id: &str) -> bool
    ensures { result ≡ list_any (λ step. bytes_eq step.id id.now) steps.now }
{
    steps.iter().any(|step| step.id() == id)
}

/// The saved rows of the tree.
fn saved(alloc: Global, tree: Borrowed<'_>) -> Result<SavedRows, RestartFault>
    requires { IsReadable (value_view tree) }
    ensures { GivesRestart result (saves (saved_at (seen tree.entry))) }
{
    let tree = owned(alloc, &tree)?;
    match SavedRows::of_value(alloc, &tree) {
        Ok(saved) => Ok(saved),
        Err(SavedError::Refused(place)) => Err(RestartFault::Saved(place)),
        Err(SavedError::Memory) => Err(RestartFault::Document(JobError::Memory)),
    }
}

/// The fields of the outputs and of the saved rows, where they are there.
fn take_parts<'a>(tree: Borrowed<'a>) -> (Option<Borrowed<'a>>, Option<Borrowed<'a>>)
    ensures outputs { option_map seen result.0 ≡ get (name_of field.Outputs) (seen tree.entry) }
    ensures saved { option_map seen result.1 ≡ get (name_of field.Saved) (seen tree.entry) }
    ensures readable { IsReadable (value_view tree.entry) → IfSome result.1 (λ saved. IsReadable (value_view saved)) }
{
    let (outputs, rest) = take_field(Field::Outputs, tree);
    let (saved, _nothing) = take_field(Field::Saved, rest);
    (outputs, saved)
}

/// What the run before left, as the tree says it, or its first fault.
#[tactic(auto, unfolding(crate::specs::RestartDocument::resume_at, jb_job::specs::Reading::required))]
pub fn resume(alloc: Global, steps: &[Step], tree: Borrowed<'_>) -> Result<Resume, RestartFault>
    requires { IsReadable (value_view tree) }
    ensures { GivesRestart result (resume_at steps.now field.Resume (seen tree.entry)) }
{
    object(Field::Resume, &[Field::Outputs, Field::Saved], &tree)?;
    let (outputs_tree, saved_tree) = take_parts(tree);
    let outputs_tree = outputs_tree.ok_or(JobError::WrongShape(Field::Outputs))?;
    let outputs = outputs(alloc, outputs_tree)?;
    let saved_tree = saved_tree.ok_or(JobError::WrongShape(Field::Saved))?;
    let saved = saved(alloc, saved_tree)?;
    let held = held(outputs, saved.rows())?;
    if has_id(steps, saved.step_id()) {
        Ok(Resume {
            outputs: held,
            saved,
        })
    } else {
        Err(RestartFault::Saved(SavedPlace::Step))
    }
}
