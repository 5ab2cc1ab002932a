//! Strings of bytes as the parts of checkpoints.

ghost use Rattle.std.specs.Prelude.{ℕ, List, ◌≡◌, ◌++◌, ◌⊎◌, [], map, option_map, MatchOption, IfErr, OnOk, MatchResult, None, Option};
ghost use Rattle.jb_slices.specs.Function.{Fault as SliceFault};
ghost use Rattle.jb_slices.specs.Job.{Limits};
ghost use Rattle.jb_slice_run.specs.Held.{fault_in, faults_in, limits_in, new_output_in, one_grown};
ghost use Rattle.jb_slice_run.specs.Strings.{AreFaultsSmall, AreLimitsSmall, IsOutputSmall, IsSmall, NewOutput, fault_string, limit_string, limits_list, number_string, stop_list};
ghost use Rattle.std.specs.Option.{ForSome};
ghost use Rattle.jb_slice_run.specs.declared.error.SliceError.TheVariants.{Damaged, Memory};

use crate::error::SliceError;
use crate::fault::Fault;
use crate::header::SliceLimits;
use crate::partition_output::PartitionOutput;
use jb_base::{ClassId, PackedList};

/// The number that these bytes are.
fn read_number(bytes: &[u8]) -> Option<u64>
    ensures { MatchOption result ((n : ℕ) → bytes.now ≡ number_string n → ⊥) (λ n. (bytes.now ≡ number_string n) × IsSmall n) }
{
    match <[u8; 8]>::try_from(bytes) {
        Ok(eight) => Some(u64::from_le_bytes(eight)),
        Err(_) => None,
    }
}

/// The limit that these bytes are.
fn read_limit(bytes: &[u8]) -> Result<Option<u64>, SliceError>
    ensures { MatchResult result (λ l. (bytes.now ≡ limit_string l) × ForSome l IsSmall) (λ e. (e ≡ Damaged) × ((l : Option ℕ) → bytes.now ≡ limit_string l → ⊥)) }
{
    if bytes.is_empty() {
        return Ok(None);
    }
    match read_number(bytes) {
        Some(limit) => Ok(Some(limit)),
        None => Err(SliceError::Damaged),
    }
}

/// The limits that this list has.
pub(crate) fn read_limits(list: &PackedList) -> Result<SliceLimits, SliceError>
    ensures { MatchResult result (λ limits. (list.now ≡ limits_list (limits_in limits)) × AreLimitsSmall (limits_in limits)) (λ e. (e ≡ Damaged) × ((limits : Limits) → list.now ≡ limits_list limits → ⊥)) }
{
    if list.len() != 3 {
        return Err(SliceError::Damaged);
    }
    let skips = read_limit(list.at(0))?;
    let job_skips = read_limit(list.at(1))?;
    let Some(retries) = read_number(list.at(2)) else {
        return Err(SliceError::Damaged);
    };
    Ok(SliceLimits {
        skips,
        job_skips,
        retries,
    })
}

/// The fault that these bytes are.
fn read_fault(bytes: &[u8]) -> Option<Fault>
    ensures { MatchOption result ((fault : SliceFault) → bytes.now ≡ fault_string fault → ⊥) (λ fault. (bytes.now ≡ fault_string (fault_in fault)) × IsSmall fault.number) }
{
    let (class, front) = bytes.split_last()?;
    let number = read_number(front)?;
    if *class >= 64 {
        return None;
    }
    Some(Fault {
        number,
        class: ClassId::new(*class),
    })
}

/// Adds the faults that this list has.
fn read_faults(list: &PackedList, faults: &mut Vec<Fault>) -> Result<(), SliceError>
    ensures read { (new : List SliceFault) → AreFaultsSmall new → list.now ≡ map fault_string new → OnOk result (faults_in faults.new.items ≡ faults_in faults.old.items ++ new) }
    ensures why { IfErr result (λ e. (e ≡ Memory) ⊎ (e ≡ Damaged) × ((new : List SliceFault) → list.now ≡ map fault_string new → ⊥)) }
{
    for index in 0..list.len() {
        let Some(fault) = read_fault(list.at(index)) else {
            return Err(SliceError::Damaged);
        };
        faults.push(fault)?;
    }
    Ok(())
}

/// The stop that this list has, or `None`.
fn read_stop(list: &PackedList) -> Result<Option<Fault>, SliceError>
    ensures { MatchResult result (λ stop. (list.now ≡ stop_list (option_map fault_in stop)) × ForSome (option_map fault_in stop) (λ (fault : SliceFault). IsSmall fault.number)) (λ e. (e ≡ Damaged) × ((stop : Option SliceFault) → list.now ≡ stop_list stop → ⊥)) }
{
    match list.len() {
        0 => Ok(None),
        1 => match read_fault(list.at(0)) {
            Some(fault) => Ok(Some(fault)),
            None => Err(SliceError::Damaged),
        },
        _ => Err(SliceError::Damaged),
    }
}

/// Adds what these three lists have to what a partition has.
pub(crate) fn grow(
    new_output: &mut PartitionOutput,
    results: &PackedList,
    skips: &PackedList,
    stop: &PackedList,
) -> Result<(), SliceError>
    ensures read { (new : NewOutput) → IsOutputSmall new → results.now ≡ new.results → skips.now ≡ map fault_string new.skips → stop.now ≡ stop_list new.stop
        → OnOk result (new_output_in new_output.new ≡ one_grown (new_output_in new_output.old) new) }
    ensures why { IfErr result (λ e. (e ≡ Memory) ⊎ (e ≡ Damaged) × ((new : NewOutput) → skips.now ≡ map fault_string new.skips → stop.now ≡ stop_list new.stop → ⊥)) }
{
    new_output.results.append(results)?;
    read_faults(skips, &mut new_output.skips)?;
    new_output.stop = read_stop(stop)?;
    Ok(())
}
