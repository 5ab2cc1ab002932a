//! Reading the document of `check`.

ghost use Rattle.std.specs.Prelude.{IfOk, IfErr};
ghost use Rattle.serde_json.specs.View.{view};
ghost use Rattle.jb_job.specs.Reading.{Gives};
ghost use Rattle.jb_documents.specs.CheckDocument.{Claims, IsRefusedClaim, check_document_at, claim_of};

use super::claim::PlanClaim;
use super::rounds::{claimed_certificate, claimed_plan};
use crate::plan::ChunkLoad;
use crate::plan::counts::{counts, threads};
use jb_job::kinds::object;
use jb_job::{Field, JobError, read_tree};
use serde_json::Value;
use std::alloc::Global;

/// What the tree claims, or the document's first fault.
#[tactic(auto, unfolding(crate::specs::CheckDocument::check_document_at))]
fn claim(alloc: Global, tree: &Value) -> Result<PlanClaim, JobError>
    ensures { Gives claim_of result (check_document_at (view tree.now)) }
{
    let document = object(
        Field::Unknown,
        &[
            Field::Counts,
            Field::Threads,
            Field::Rounds,
            Field::Certificate,
        ],
        tree,
    )?;
    let counts = counts(alloc, document)?;
    let threads = threads(document)?;
    let plan = claimed_plan(alloc, document)?;
    let certificate = claimed_certificate(document)?;
    Ok(PlanClaim {
        load: ChunkLoad::new(counts, threads),
        plan,
        certificate,
    })
}

/// What the bytes claim, or their first fault: `NotJson` where they are no JSON text. The bytes are let go once they are
/// read.
pub fn read_claim(alloc: Global, bytes: Vec<u8>) -> Result<PlanClaim, JobError>
    ensures claim { IfOk result (λ claim. Claims (claim_of claim) bytes.items) }
    ensures refused { IfErr result (λ fault. IsRefusedClaim fault bytes.items) }
{
    let tree = read_tree(alloc, &bytes)?;
    drop(bytes);
    claim(alloc, &tree)
}
