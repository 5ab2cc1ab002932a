//! The JSON tree of a text.

ghost use Rattle.std.specs.Prelude.{◌≡◌, IfOk, IfErr, Some, None, ◌⊎◌};
ghost use Rattle.serde_json.specs.View.{view};
ghost use Rattle.jb_job.specs.Reading.{tree_of};

use crate::error::JobError;
use serde_json::Value;
use std::alloc::Global;

/// The tree of a text, or NotJson if it has none: it isn't UTF-8, isn't JSON, nests deeper than 127, or has more than
/// blanks after the JSON.
#[tactic(auto, using(crate::proofs::Texts::text_steps))]
pub fn read_tree(alloc: Global, bytes: &[u8]) -> Result<Value, JobError>
    ensures ok { IfOk result (λ v. tree_of bytes.now ≡ Some (view v)) }
    ensures err { IfErr result (λ e. (e ≡ JobError.Memory) ⊎ ((e ≡ JobError.NotJson) × (tree_of bytes.now ≡ None))) }
{
    match Value::from_slice(alloc, bytes) {
        Ok(tree) => Ok(tree),
        Err(fault) if fault.is_memory() => Err(JobError::Memory),
        Err(_) => Err(JobError::NotJson),
    }
}
