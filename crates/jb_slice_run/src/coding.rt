//! Lists of strings as bytes.

ghost use Rattle.std.specs.Prelude.{◌≡◌, ◌≤◌, ◌<◌, ◌^◌, ◌++◌, ◌⊎◌, [], length, get_or, IfErr, IfOk, OnOk};
ghost use Rattle.std.specs.List.{AllByRecursion};
ghost use Rattle.jb_slice_run.specs.Coding.{AreCodable, IsCodable, IsShort, coded, coded_list, coded_number, coded_string, coded_strings};
ghost use Rattle.jb_slice_run.specs.declared.error.SliceError.TheVariants.{Memory, TooLong};

use crate::error::SliceError;
use jb_base::PackedList;
use std::alloc::Global;

/// Writes a number that is below 2^32.
#[tactic(auto, unfolding(crate::specs::Coding::coded_number))]
fn write_number(out: &mut Vec<u8>, number: usize) -> Result<(), SliceError>
    ensures coded { OnOk result (out.new.items ≡ out.old.items ++ coded_number number) }
    ensures fits { OnOk result (number < 2 ^ 32) }
    ensures why { IfErr result (λ e. (e ≡ Memory) ⊎ (e ≡ TooLong) × (2 ^ 32 ≤ number)) }
{
    let Ok(number) = u32::try_from(number) else {
        return Err(SliceError::TooLong);
    };
    out.extend_from_slice(&number.to_le_bytes())?;
    Ok(())
}

/// Writes a string.
fn write_string(out: &mut Vec<u8>, string: &[u8]) -> Result<(), SliceError>
    ensures coded { OnOk result (out.new.items ≡ out.old.items ++ coded_string string.now) }
    ensures fits { OnOk result (IsShort string.now) }
    ensures why { IfErr result (λ e. (e ≡ Memory) ⊎ (e ≡ TooLong) × (2 ^ 32 ≤ length string.now)) }
{
    write_number(out, string.len())?;
    out.extend_from_slice(string)?;
    Ok(())
}

/// Writes the string of a list at this index.
pub(crate) fn write_item(
    out: &mut Vec<u8>,
    list: &PackedList,
    index: usize,
) -> Result<(), SliceError>
    requires { index < length list.now }
    ensures coded { OnOk result (out.new.items ≡ out.old.items ++ coded_string (get_or list.now index [])) }
    ensures fits { OnOk result (IsShort (get_or list.now index [])) }
    ensures why { IfErr result (λ e. (e ≡ Memory) ⊎ (e ≡ TooLong) × (AllByRecursion (λ s. IsShort s) list.now → ⊥)) }
{
    write_string(out, list.at(index))
}

/// Writes the strings of a list.
fn write_strings(out: &mut Vec<u8>, list: &PackedList) -> Result<(), SliceError>
    ensures coded { OnOk result (out.new.items ≡ out.old.items ++ coded_strings list.now) }
    ensures fits { OnOk result (AllByRecursion (λ s. IsShort s) list.now) }
    ensures why { IfErr result (λ e. (e ≡ Memory) ⊎ (e ≡ TooLong) × (AllByRecursion (λ s. IsShort s) list.now → ⊥)) }
{
    for index in 0..list.len() {
        write_item(out, list, index)?;
    }
    Ok(())
}

/// Writes a list.
fn write_list(out: &mut Vec<u8>, list: &PackedList) -> Result<(), SliceError>
    ensures coded { OnOk result (out.new.items ≡ out.old.items ++ coded_list list.now) }
    ensures fits { OnOk result (IsCodable list.now) }
    ensures why { IfErr result (λ e. (e ≡ Memory) ⊎ (e ≡ TooLong) × (IsCodable list.now → ⊥)) }
{
    write_number(out, list.len())?;
    write_strings(out, list)
}

/// The lists as bytes: for each list how many strings it has, and for each string its length and its bytes. A number has four bytes,
/// the lowest first.
///
/// # Errors
/// `TooLong` if a length or a number of strings has more than four bytes, and `Memory`.
pub(crate) fn coding_of(alloc: Global, lists: &[PackedList]) -> Result<Vec<u8>, SliceError>
    ensures coded { IfOk result (λ bytes. bytes.items ≡ coded lists.now) }
    ensures fits { OnOk result (AreCodable lists.now) }
    ensures why { IfErr result (λ e. (e ≡ Memory) ⊎ (e ≡ TooLong) × (AreCodable lists.now → ⊥)) }
{
    let mut out = Vec::new(alloc);
    for list in lists {
        write_list(&mut out, list)?;
    }
    Ok(out)
}
