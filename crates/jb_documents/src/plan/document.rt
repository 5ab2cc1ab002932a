//! Reading the document of `plan`.

ghost use Rattle.std.specs.Prelude.{IfOk, IfErr};
ghost use Rattle.serde_json.specs.View.{view};
ghost use Rattle.jb_job.specs.Reading.{Gives};
ghost use Rattle.jb_documents.specs.PlanDocument.{AsksFor, IsRefusedLoad, plan_document_at};

use super::counts::{counts, threads};
use super::load::ChunkLoad;
use jb_job::kinds::object;
use jb_job::{Field, JobError, read_tree};
use serde_json::Value;
use std::alloc::Global;

/// What the tree asks to be planned, or the document's first fault.
#[tactic(auto, unfolding(crate::specs::PlanDocument::plan_document_at))]
fn load(alloc: Global, tree: &Value) -> Result<ChunkLoad, JobError>
    ensures { Gives (λ l. l) result (plan_document_at (view tree.now)) }
{
    let document = object(Field::Unknown, &[Field::Counts, Field::Threads], tree)?;
    let counts = counts(alloc, document)?;
    let threads = threads(document)?;
    Ok(ChunkLoad::new(counts, threads))
}

/// What the bytes ask to be planned, or their first fault: `NotJson` where they are no JSON text. The bytes are let go
/// once they are read.
pub fn read_load(alloc: Global, bytes: Vec<u8>) -> Result<ChunkLoad, JobError>
    ensures load { IfOk result (λ load. AsksFor load bytes.items) }
    ensures refused { IfErr result (λ fault. IsRefusedLoad fault bytes.items) }
{
    let tree = read_tree(alloc, &bytes)?;
    drop(bytes);
    load(alloc, &tree)
}
