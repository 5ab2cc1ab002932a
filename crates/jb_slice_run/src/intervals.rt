//! The intervals of a slice, read back.

ghost use Rattle.std.specs.Prelude.{ℕ, List, ◌≡◌, ◌+◌, ◌*◌, ◌⊎◌, ◌∷◌, [], length, map, replicate, IfErr, IfOk, OnOk};
ghost use Rattle.jb_slice_file.specs.CheckpointBytes.{checkpoint_bytes};
ghost use Rattle.jb_slices.specs.Checkpoint.{Checkpoint as SliceCheckpoint, GoesOn, Interval};
ghost use Rattle.jb_slice_run.specs.Held.{AreIntervalsOf, HasRead, limits_in, new_output_grown, new_output_in, no_new_output};
ghost use Rattle.jb_slice_run.specs.SliceBytes.{AreStoredAs, IsIntervalStored, lists_of};
ghost use Rattle.jb_slice_run.specs.Strings.{AreOutputsSmall, NewOutput, all_new_output, interval_lists, new_output_lists};
ghost use Rattle.jb_slice_run.specs.declared.error.SliceError.TheVariants.{Damaged, Memory};

use crate::decoding::read_lists;
use crate::error::SliceError;
use crate::header::SliceLimits;
use crate::partition_output::{HeldSlice, PartitionOutput};
use crate::reading::{grow, read_limits};
use jb_base::PackedList;
use jb_slice_file::Checkpoint;
use std::alloc::{AllocError, Global};

/// This many partitions without any output.
fn no_partitions(alloc: Global, count: u32) -> Result<Vec<PartitionOutput>, AllocError>
    ensures { IfOk result (λ partitions. map new_output_in partitions.items ≡ replicate count no_new_output) }
{
    let mut partitions = Vec::new(alloc);
    for _ in 0..count {
        partitions.push(PartitionOutput {
            results: PackedList::new(alloc),
            skips: Vec::new(alloc),
            stop: None,
        })?;
    }
    Ok(partitions)
}

/// Adds to each partition what its three lists have. The first list of all is skipped.
fn grow_all(partitions: &mut [PartitionOutput], lists: &[PackedList]) -> Result<(), SliceError>
    requires { length lists.now ≡ lists_of (length partitions.now) }
    ensures read { (limits : List (List ℕ)) (new : List NewOutput) → AreOutputsSmall new → lists.now ≡ limits ∷ new_output_lists new → OnOk result (map new_output_in partitions.new ≡ new_output_grown (map new_output_in partitions.old) new) }
    ensures number { OnOk result (length partitions.new ≡ length partitions.old) }
    ensures why { IfErr result (λ e. (e ≡ Memory) ⊎ (e ≡ Damaged) × ((limits : List (List ℕ)) (new : List NewOutput) → lists.now ≡ limits ∷ new_output_lists new → ⊥)) }
{
    for index in 0..partitions.len() {
        grow(
            &mut partitions[index],
            &lists[3 * index + 1],
            &lists[3 * index + 2],
            &lists[3 * index + 3],
        )?;
    }
    Ok(())
}

/// The lists of an interval of this many partitions.
fn lists_of_interval(
    alloc: Global,
    checkpoint: &Checkpoint,
    count: u32,
) -> Result<Vec<PackedList>, SliceError>
    ensures read { (i : Interval) → IsIntervalStored i (checkpoint_bytes checkpoint.now) → length i.partitions ≡ count → IfOk result (λ lists. lists.items ≡ interval_lists i.limits (all_new_output i.partitions)) }
    ensures number { IfOk result (λ lists. length lists.items ≡ lists_of count) }
    ensures why { IfErr result (λ e. (e ≡ Memory) ⊎ (e ≡ Damaged) × ((i : Interval) → IsIntervalStored i (checkpoint_bytes checkpoint.now) → length i.partitions ≡ count → ⊥)) }
{
    let lists = read_lists(alloc, &checkpoint.results, 1 + 3 * count as usize)?;
    Ok(lists)
}

/// Adds what an interval has to what those before it have, and returns its limits.
fn read_interval(
    alloc: Global,
    checkpoint: &Checkpoint,
    count: u32,
    partitions: &mut [PartitionOutput],
) -> Result<SliceLimits, SliceError>
    requires { length partitions.now ≡ count }
    ensures read { (i : Interval) → IsIntervalStored i (checkpoint_bytes checkpoint.now) → length i.partitions ≡ count → IfOk result (λ limits. (limits_in limits ≡ i.limits)
        × (map new_output_in partitions.new ≡ new_output_grown (map new_output_in partitions.old) (all_new_output i.partitions))) }
    ensures number { OnOk result (length partitions.new ≡ count) }
    ensures why { IfErr result (λ e. (e ≡ Memory) ⊎ (e ≡ Damaged) × ((i : Interval) → IsIntervalStored i (checkpoint_bytes checkpoint.now) → length i.partitions ≡ count → ⊥)) }
{
    let lists = lists_of_interval(alloc, checkpoint, count)?;
    let limits = read_limits(&lists[0])?;
    grow_all(partitions, &lists)?;
    Ok(limits)
}

/// What these intervals of a slice have, after a header with these limits. It is the last one's limits and, for each partition, the results,
/// the skipped faults, and the fault by which it failed in the last one. If the last interval alone is given, it is what is new in that one.
///
/// # Errors
/// `Damaged` if a checkpoint isn't an interval of this many partitions, and `Memory`.
pub fn read_slice(
    alloc: Global,
    limits: SliceLimits,
    later: &[Checkpoint],
    count: u32,
) -> Result<HeldSlice, SliceError>
    ensures read { (cs : List SliceCheckpoint) → AreStoredAs cs (map checkpoint_bytes later.now) → AreIntervalsOf count cs → IfOk result (HasRead (limits_in limits) count cs) }
    ensures number { IfOk result (λ held. length held.partitions.items ≡ count) }
    ensures why { IfErr result (λ e. (e ≡ Memory) ⊎ (e ≡ Damaged) × ((cs : List SliceCheckpoint) → AreStoredAs cs (map checkpoint_bytes later.now) → AreIntervalsOf count cs → ⊥)) }
{
    let mut last = limits;
    let mut partitions = no_partitions(alloc, count)?;
    for checkpoint in later {
        last = read_interval(alloc, checkpoint, count, &mut partitions)?;
    }
    Ok(HeldSlice {
        limits: last,
        partitions,
    })
}
