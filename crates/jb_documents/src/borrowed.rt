//! JSON trees that borrow their text: they make no string for a text in them.

ghost use Rattle.std.specs.Prelude.{◌≡◌, ◌⊎◌, None, Some, IfOk, IfErr};
ghost use Rattle.json.specs.Value.{value_view};
ghost use Rattle.serde_json.specs.View.{view};
ghost use Rattle.jb_job.specs.declared.error.JobError.TheVariants as error;
ghost use Rattle.jb_job.specs.Reading.{tree_of};
ghost use Rattle.jb_documents.specs.inside.Borrowed.{IsReadable, seen};

use crate::ranges::is_in_range;
use jb_job::{JobError, read_tree};
use json::{Error, Reader, Scratch, Value as Borrowed, to_vec};
use serde_json::Value;
use simdutf8::compat::from_utf8;
use std::alloc::Global;

/// How deep arrays and objects of a document may nest.
const MAX_DEPTH: usize = 127;

/// The tree of a text, which it borrows. A text that has none is `NotJson`.
pub fn borrowed_tree<'a>(
    alloc: Global,
    bytes: &'a [u8],
    scratch: &'a mut Scratch,
) -> Result<Borrowed<'a>, JobError>
    ensures tree { IfOk result (λ v. tree_of bytes.now ≡ Some (seen v)) }
    ensures readable { IfOk result (λ v. IsReadable (value_view v)) }
    ensures refused { IfErr result (λ e. (e ≡ error.Memory) ⊎ ((e ≡ error.NotJson) × (tree_of bytes.now ≡ None))) }
{
    let Ok(text) = from_utf8(bytes) else {
        return Err(JobError::NotJson);
    };
    let mut reader = Reader::new(text, scratch)?;
    let tree = match Borrowed::read(alloc, &mut reader, MAX_DEPTH) {
        Ok(tree) => tree,
        Err(Error::OutOfMemory) => return Err(JobError::Memory),
        Err(_) => return Err(JobError::NotJson),
    };
    match reader.next() {
        Some(_) => Err(JobError::NotJson),
        None => {
            if is_in_range(&tree) {
                Ok(tree)
            } else {
                Err(JobError::NotJson)
            }
        }
    }
}

/// The tree with its texts as own strings.
pub fn owned(alloc: Global, tree: &Borrowed<'_>) -> Result<Value, JobError>
    requires { IsReadable (value_view tree.now) }
    ensures value { IfOk result (λ v. view v ≡ seen tree.now) }
    ensures memory { IfErr result (λ e. e ≡ error.Memory) }
{
    let text = to_vec(alloc, tree)?;
    read_tree(alloc, &text)
}
