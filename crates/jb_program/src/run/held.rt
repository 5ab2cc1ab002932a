//! What the writers of a step held when it stopped.

ghost use Rattle.std.specs.Prelude.{◌≡◌, take, IfOk};
ghost use Rattle.jb_program.specs.PartitionRun.{held_by};
ghost use Rattle.jb_program.specs.StepRun.{gone_on_from, outputs_of, rows_saved};

use jb_base::PackedList;
use jb_documents::{Outputs, Resume, WriterTexts};
use jb_step::Saved;
use std::alloc::{AllocError, Global};

/// The rows of the run before, if there was one, and its outputs, unless the step's plan overrides them.
pub fn saved_state(alloc: Global, resume: Option<Resume>, replace: bool) -> (Option<Saved>, Outputs)
    ensures saved { result.0 ≡ rows_saved resume }
    ensures outputs { result.1 ≡ outputs_of (gone_on_from replace resume) }
{
    match resume {
        None => (None, Outputs::new(Vec::new(alloc))),
        Some(resume) => {
            let Resume { outputs, saved } = resume;
            let saved = Some(Saved::from(saved));
            if replace {
                return (saved, Outputs::new(Vec::new(alloc)));
            }
            (saved, outputs)
        }
    }
}

/// Copies of the texts that this partition's writer held.
pub fn held_list(
    alloc: Global,
    outputs: &[WriterTexts],
    partition: u32,
) -> Result<PackedList, AllocError>
    ensures { IfOk result (λ list. list ≡ held_by outputs.now partition) }
{
    match outputs.get(partition as usize) {
        None => Ok(PackedList::new(alloc)),
        Some(texts) => {
            let list = texts.as_list();
            list.part(alloc, 0, list.len())
        }
    }
}

/// What this partition committed: the first texts that its writer held, of this number.
pub fn committed_by(
    alloc: Global,
    outputs: &[WriterTexts],
    partition: u32,
    written: u64,
) -> Result<PackedList, AllocError>
    ensures { IfOk result (λ list. list ≡ take written (held_by outputs.now partition)) }
{
    let mut list = held_list(alloc, outputs, partition)?;
    list.truncate(written as usize);
    Ok(list)
}
