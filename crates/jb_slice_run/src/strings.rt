//! The parts of checkpoints as strings of bytes.

ghost use Rattle.std.specs.Prelude.{◌≡◌, ◌++◌, ◌∷◌, [], map, option_map, IfOk, OnOk};
ghost use Rattle.std.specs.Option.{ForSome};
ghost use Rattle.jb_slices.specs.Function.{Fault as SliceFault};
ghost use Rattle.jb_slice_run.specs.Held.{fault_in, faults_in, header_in, limits_in, new_output_in};
ghost use Rattle.jb_slice_run.specs.Strings.{AreFaultsSmall, AreLimitsSmall, AreOutputsSmall, AreSetsSmall, IsHeaderSmall, IsOutputSmall, IsSmall, classes_list, fault_string, header_lists, limit_string, limits_list, new_output_lists, number_string, stop_list};

use crate::fault::Fault;
use crate::header::{SliceHeader, SliceLimits};
use crate::partition_output::PartitionOutput;
use jb_base::PackedList;
use std::alloc::{AllocError, Global};

/// A number's eight bytes, the lowest first.
#[tactic(auto, unfolding(crate::specs::Strings::number_string))]
fn number_bytes(number: u64) -> [u8; 8]
    ensures bytes { result ≡ number_string number }
    ensures small { IsSmall number }
{
    number.to_le_bytes()
}

/// Adds a number.
fn push_number(list: &mut PackedList, number: u64) -> Result<(), AllocError>
    ensures put { OnOk result (list.new ≡ list.old ++ number_string number ∷ []) }
    ensures small { OnOk result (IsSmall number) }
{
    list.push(&number_bytes(number))
}

/// Adds a limit: an empty string for no limit.
fn push_limit(list: &mut PackedList, limit: Option<u64>) -> Result<(), AllocError>
    ensures put { OnOk result (list.new ≡ list.old ++ limit_string limit ∷ []) }
    ensures small { OnOk result (ForSome limit IsSmall) }
{
    match limit {
        None => list.push(&[]),
        Some(limit) => push_number(list, limit),
    }
}

/// The list of one string.
fn string_list(alloc: Global, string: &[u8]) -> Result<PackedList, AllocError>
    ensures { IfOk result (λ list. list ≡ string.now ∷ []) }
{
    let mut list = PackedList::new(alloc);
    list.push(string)?;
    Ok(list)
}

/// The list of one number.
fn number_list(alloc: Global, number: u64) -> Result<PackedList, AllocError>
    ensures list { IfOk result (λ list. list ≡ number_string number ∷ []) }
    ensures small { OnOk result (IsSmall number) }
{
    let mut list = PackedList::new(alloc);
    push_number(&mut list, number)?;
    Ok(list)
}

/// The list of limits.
pub(crate) fn limits_list(alloc: Global, limits: SliceLimits) -> Result<PackedList, AllocError>
    ensures list { IfOk result (λ list. list ≡ limits_list (limits_in limits)) }
    ensures small { OnOk result (AreLimitsSmall (limits_in limits)) }
{
    let mut list = PackedList::new(alloc);
    push_limit(&mut list, limits.skips)?;
    push_limit(&mut list, limits.job_skips)?;
    push_number(&mut list, limits.retries)?;
    Ok(list)
}

/// Adds names.
fn push_names(list: &mut PackedList, names: &[&str]) -> Result<(), AllocError>
    ensures { OnOk result (list.new ≡ list.old ++ map (λ name. name.now) names.now) }
{
    for name in names {
        list.push(name.as_bytes())?;
    }
    Ok(())
}

/// The list of the classes of faults.
fn classes_list(alloc: Global, header: &SliceHeader) -> Result<PackedList, AllocError>
    ensures list { IfOk result (λ list. list ≡ classes_list (header_in header.now).job.classes) }
    ensures small { OnOk result (AreSetsSmall (header_in header.now).job.classes) }
{
    let mut list = PackedList::new(alloc);
    push_number(&mut list, header.skippable)?;
    push_number(&mut list, header.retryable)?;
    push_number(&mut list, header.no_rollback)?;
    push_names(&mut list, header.classes)?;
    Ok(list)
}

/// The ten lists of a header.
pub(crate) fn header_lists(
    alloc: Global,
    header: &SliceHeader,
) -> Result<Vec<PackedList>, AllocError>
    ensures lists { IfOk result (λ lists. lists.items ≡ header_lists (header_in header.now)) }
    ensures small { OnOk result (IsHeaderSmall (header_in header.now)) }
{
    let mut lists = Vec::with_capacity(alloc, 10)?;
    lists.push(string_list(alloc, &header.digest)?)?;
    lists.push(string_list(alloc, header.name.as_bytes())?)?;
    lists.push(number_list(alloc, header.slice_length)?)?;
    lists.push(number_list(alloc, u64::from(header.partitions))?)?;
    lists.push(number_list(alloc, header.item_count)?)?;
    lists.push(classes_list(alloc, header)?)?;
    lists.push(string_list(alloc, header.stamp.as_bytes())?)?;
    lists.push(limits_list(alloc, header.limits)?)?;
    lists.push(number_list(alloc, header.number)?)?;
    lists.push(number_list(alloc, header.items)?)?;
    Ok(lists)
}

/// Adds a fault: the number of its item, and one byte for its class.
fn push_fault(list: &mut PackedList, fault: Fault) -> Result<(), AllocError>
    ensures put { OnOk result (list.new ≡ list.old ++ fault_string (fault_in fault) ∷ []) }
    ensures small { OnOk result (IsSmall fault.number) }
{
    list.push_joined(&number_bytes(fault.number), &[fault.class.number()])
}

/// The list of faults.
fn faults_list(alloc: Global, faults: &[Fault]) -> Result<PackedList, AllocError>
    ensures list { IfOk result (λ list. list ≡ map fault_string (faults_in faults.now)) }
    ensures small { OnOk result (AreFaultsSmall (faults_in faults.now)) }
{
    let mut list = PackedList::new(alloc);
    for fault in faults {
        push_fault(&mut list, *fault)?;
    }
    Ok(list)
}

/// The list of the fault by which a partition failed; empty if it didn't fail.
fn stop_list(alloc: Global, stop: Option<Fault>) -> Result<PackedList, AllocError>
    ensures list { IfOk result (λ list. list ≡ stop_list (option_map fault_in stop)) }
    ensures small { OnOk result (ForSome (option_map fault_in stop) (λ (fault : SliceFault). IsSmall fault.number)) }
{
    let mut list = PackedList::new(alloc);
    if let Some(fault) = stop {
        push_fault(&mut list, fault)?;
    }
    Ok(list)
}

/// Adds the three lists of a partition.
fn push_partition(
    alloc: Global,
    lists: &mut Vec<PackedList>,
    new_output: PartitionOutput,
) -> Result<(), AllocError>
    ensures put { OnOk result (lists.new.items ≡ lists.old.items ++ new_output_lists (new_output_in new_output ∷ [])) }
    ensures small { OnOk result (IsOutputSmall (new_output_in new_output)) }
{
    let PartitionOutput {
        results,
        skips,
        stop,
    } = new_output;
    lists.push(results)?;
    lists.push(faults_list(alloc, &skips)?)?;
    lists.push(stop_list(alloc, stop)?)?;
    Ok(())
}

/// Adds the lists of the partitions.
pub(crate) fn push_partitions(
    alloc: Global,
    lists: &mut Vec<PackedList>,
    partitions: Vec<PartitionOutput>,
) -> Result<(), AllocError>
    ensures put { OnOk result (lists.new.items ≡ lists.old.items ++ new_output_lists (map new_output_in partitions.items)) }
    ensures small { OnOk result (AreOutputsSmall (map new_output_in partitions.items)) }
{
    'partitions: for new_output in partitions {
        push_partition(alloc, lists, new_output)?;
    }
    Ok(())
}
