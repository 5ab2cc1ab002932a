//! Bytes as lists of strings.

ghost use Rattle.std.specs.Prelude.{ℕ, List, ◌≡◌, ◌<◌, ◌^◌, ◌++◌, ◌⊎◌, [], None, length, IfErr, IfOk, IfSome, MatchOption};
ghost use Rattle.jb_slice_run.specs.Coding.{AreStringsRead, IsCodable, IsCodingOf, IsListRead, IsShort, coded_list, coded_number, coded_string, coded_strings};
ghost use Rattle.jb_slice_run.specs.declared.error.SliceError.TheVariants.{Damaged, Memory};

use crate::error::SliceError;
use jb_base::PackedList;
use std::alloc::Global;

/// The number at the front, and the bytes after it.
fn read_number(bytes: &[u8]) -> Option<(u32, &[u8])>
    ensures { MatchOption result ((n : ℕ) (rest : List ℕ) → bytes.now ≡ coded_number n ++ rest → ⊥) (λ r. (bytes.now ≡ coded_number r.0 ++ r.1.now) × (r.0 < 2 ^ 32)) }
{
    let (front, rest) = bytes.split_first_chunk::<4>()?;
    Some((u32::from_le_bytes(*front), rest))
}

/// The string at the front, and the bytes after it.
fn read_string(bytes: &[u8]) -> Option<(&[u8], &[u8])>
    ensures { MatchOption result ((s rest : List ℕ) → IsShort s → bytes.now ≡ coded_string s ++ rest → ⊥) (λ r. (bytes.now ≡ coded_string r.0.now ++ r.1.now) × IsShort r.0.now) }
{
    let (length, rest) = read_number(bytes)?;
    if rest.len() < length as usize {
        return None;
    }
    Some(rest.split_at(length as usize))
}

/// Reads this many strings into an empty list, and returns the bytes that are left.
fn read_strings<'a>(
    bytes: &'a [u8],
    count: u32,
    list: &mut PackedList,
) -> Result<&'a [u8], SliceError>
    requires { list.now ≡ [] }
    ensures read { IfOk result (λ rest. AreStringsRead list.new bytes.now rest.now count) }
    ensures why { IfErr result (λ e. (e ≡ Memory) ⊎ (e ≡ Damaged) × ((strings : _) (rest : _) → IsCodable strings → length strings ≡ count → bytes.now ≡ coded_strings strings ++ rest → ⊥)) }
{
    let mut rest = bytes;
    for _ in 0..count {
        let Some((string, later)) = read_string(rest) else {
            return Err(SliceError::Damaged);
        };
        list.push(string)?;
        rest = later;
    }
    Ok(rest)
}

/// Reads the strings of a list into an empty list, and returns the bytes that are left.
fn read_list<'a>(bytes: &'a [u8], list: &mut PackedList) -> Result<&'a [u8], SliceError>
    requires { list.now ≡ [] }
    ensures read { IfOk result (λ rest. IsListRead list.new bytes.now rest.now) }
    ensures why { IfErr result (λ e. (e ≡ Memory) ⊎ (e ≡ Damaged) × ((strings : _) (rest : _) → IsCodable strings → bytes.now ≡ coded_list strings ++ rest → ⊥)) }
{
    let Some((count, rest)) = read_number(bytes) else {
        return Err(SliceError::Damaged);
    };
    read_strings(rest, count, list)
}

/// The lists of which these bytes are the coding, if they have this number.
///
/// # Errors
/// `Damaged` if the bytes aren't the coding of this many lists, and `Memory`.
pub(crate) fn read_lists(
    alloc: Global,
    bytes: &[u8],
    count: usize,
) -> Result<Vec<PackedList>, SliceError>
    ensures read { (lists : List (List (List ℕ))) → IsCodingOf bytes.now count lists → IfOk result (λ r. r.items ≡ lists) }
    ensures number { IfOk result (λ r. length r.items ≡ count) }
    ensures why { IfErr result (λ e. (e ≡ Memory) ⊎ (e ≡ Damaged) × ((lists : List (List (List ℕ))) → IsCodingOf bytes.now count lists → ⊥)) }
{
    let mut lists = Vec::new(alloc);
    let mut rest = bytes;
    for _ in 0..count {
        let mut list = PackedList::new(alloc);
        rest = read_list(rest, &mut list)?;
        lists.push(list)?;
    }
    if !rest.is_empty() {
        return Err(SliceError::Damaged);
    }
    Ok(lists)
}
