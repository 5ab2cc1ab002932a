//! Checkpoints as bytes.

ghost use Rattle.std.specs.Prelude.{◌≡◌, ◌⊎◌, map, IfErr, IfOk, OnOk, Ok, string_bytes};
ghost use Rattle.jb_slice_file.specs.CheckpointBytes.{checkpoint_bytes};
ghost use Rattle.jb_job.specs.Reading.{tree_of};
ghost use Rattle.jb_slice_run.specs.Coding.{AreCodable};
ghost use Rattle.jb_rules.specs.declared.row.Row.{Row};
ghost use Rattle.jb_saved.specs.Reading.{answer_of};
ghost use Rattle.jb_saved.specs.SavedRows.{SavedRows};
ghost use Rattle.jb_slices.specs.Checkpoint.{Begins, GoesOn, Interval, Progress};
ghost use Rattle.jb_slice_run.specs.Held.{header_in, limits_in, new_output_in};
ghost use Rattle.jb_slice_run.specs.SliceBytes.{IsStoredAs};
ghost use Rattle.jb_slice_run.specs.Strings.{AreLimitsSmall, AreOutputsSmall, all_new_output, header_lists, interval_lists};
ghost use Rattle.jb_slice_run.specs.declared.error.SliceError.TheVariants.{Memory, TooLong};

use crate::coding::coding_of;
use crate::error::SliceError;
use crate::header::{SliceHeader, SliceLimits};
use crate::partition_output::PartitionOutput;
use crate::strings::{header_lists, limits_list, push_partitions};
use crate::text::header_text;
use jb_base::PackedList;
use jb_slice_file::Checkpoint;
use std::alloc::{AllocError, Global};

/// The header as bytes, a slice's first checkpoint.
///
/// # Errors
/// `TooLong` if a text has more than 4,294,967,295 bytes, and `Memory`.
pub fn header_checkpoint(alloc: Global, header: &SliceHeader) -> Result<Checkpoint, SliceError>
    ensures kept { IfOk result (λ c. IsStoredAs (Begins (header_in header.now)) (checkpoint_bytes c)) }
    ensures why { IfErr result (λ e. (e ≡ Memory) ⊎ (e ≡ TooLong) × (AreCodable (header_lists (header_in header.now)) → ⊥)) }
{
    let saved = header_text(alloc, header)?;
    let lists = header_lists(alloc, header)?;
    let results = coding_of(alloc, &lists)?;
    Ok(Checkpoint { saved, results })
}

/// The lists of an interval.
fn interval_lists(
    alloc: Global,
    limits: SliceLimits,
    partitions: Vec<PartitionOutput>,
) -> Result<Vec<PackedList>, AllocError>
    ensures lists { IfOk result (λ lists. lists.items ≡ interval_lists (limits_in limits) (map new_output_in partitions.items)) }
    ensures small { OnOk result (AreLimitsSmall (limits_in limits) × AreOutputsSmall (map new_output_in partitions.items)) }
{
    let mut lists = Vec::new(alloc);
    lists.push(limits_list(alloc, limits)?)?;
    push_partitions(alloc, &mut lists, partitions)?;
    Ok(lists)
}

/// An interval as bytes: the saved text of its rows, the limits of its run, and what is new of each partition.
///
/// # Errors
/// `TooLong` if a result has more than 4,294,967,295 bytes, or a partition more of them, and `Memory`.
pub fn interval_checkpoint(
    alloc: Global,
    limits: SliceLimits,
    saved: String,
    partitions: Vec<PartitionOutput>,
) -> Result<Checkpoint, SliceError>
    ensures kept { (i : Interval) (held : SavedRows) → i.limits ≡ limits_in limits → all_new_output i.partitions ≡ map new_output_in partitions.items
        → answer_of (tree_of (string_bytes saved)) ≡ Ok held → held.rows ≡ map (λ (p : Progress). p.row) i.partitions → IfOk result (λ c. IsStoredAs (GoesOn i) (checkpoint_bytes c)) }
    ensures why { IfErr result (λ e. (e ≡ Memory) ⊎ (e ≡ TooLong) × (AreCodable (interval_lists (limits_in limits) (map new_output_in partitions.items)) → ⊥)) }
{
    let lists = interval_lists(alloc, limits, partitions)?;
    let results = coding_of(alloc, &lists)?;
    Ok(Checkpoint { saved, results })
}
