//! Byte strings in one buffer.

ghost use Rattle.std.specs.Prelude.{◌≡◌, ◌≤◌, ◌<◌, ◌==◌, ◌++◌, ◌∷◌, [], length, take, IfOk, OnOk, OnErr, slice_get, slice_index, slice_index_or, slice_range, option_copied, ◌+◌, ◌-◌, ◌^◌, All, map, vec_len, vec_capacity};
ghost use Rattle.std.specs.Bool.{MatchBool};
ghost use Rattle.std.specs.Str.{IsAscii};
ghost use Rattle.jb_base.specs.Packed.{start_of};

use std::alloc::{AllocError, Global};
use std::marker::Model;

/// Byte strings, one after another in one buffer, with the place where each ends. A contract sees their list. One more
/// string needs no separate allocation: the buffer and the list of ends grow by doubling.
#[derive(Drop)]
pub struct PackedList {
    bytes: Vec<u8>,
    ends: Vec<usize>,
}

impl Model for PackedList {
    ghost use Rattle.std.specs.Prelude.{ℕ, List, length};
    ghost use Rattle.jb_base.specs.Packed.{strings_from, EndAt};

    ghost Value = { List (List ℕ) };

    ghost view = { λ list. strings_from 0 list.ends.items list.bytes.items };

    ghost invariant = { λ list. EndAt 0 list.ends.items (length list.bytes.items) };
}

impl PackedList {
    /// The empty list. Takes no memory.
    pub fn new(alloc: Global) -> PackedList
        ensures { result ≡ [] }
    {
        PackedList {
            bytes: Vec::new(alloc),
            ends: Vec::new(alloc),
        }
    }

    /// The empty list, with room for exactly so many strings of so many bytes in all.
    pub fn with_room(alloc: Global, strings: usize, bytes: usize) -> Result<PackedList, AllocError>
        ensures { IfOk result (λ list. list ≡ []) }
    {
        let bytes = Vec::with_capacity(alloc, bytes)?;
        let ends = Vec::with_capacity(alloc, strings)?;
        Ok(PackedList { bytes, ends })
    }

    /// How many strings there are.
    #[tactic(auto, using(crate::proofs::Packed::length_strings))]
    pub fn len(&self) -> usize
        ensures { result ≡ length self.now }
    {
        self.ends.len()
    }

    /// Whether the list is empty.
    #[tactic(auto, using(crate::proofs::Packed::length_strings))]
    pub fn is_empty(&self) -> bool
        ensures { result ≡ (length self.now == 0) }
    {
        self.ends.is_empty()
    }

    /// Whether each byte of each string is below 128. The buffer is read once, however many strings there are.
    #[tactic(auto, using(crate::proofs::Ascii::of_strings))]
    pub fn is_ascii(&self) -> bool
        ensures cases { MatchBool result (All IsAscii self.now) (¬ (All IsAscii self.now)) }
    {
        self.bytes.is_ascii()
    }

    /// The string of this index, the first being 0.
    pub fn at(&self, index: usize) -> &[u8]
        requires { index < length self.now }
        ensures { result.now ≡ slice_index_or self.now index [] }
    {
        range(
            self.bytes.as_slice(),
            start_of(&self.ends, index),
            end_of(&self.ends, index),
        )
    }

    /// The string of this index, or None past the end.
    pub fn get(&self, index: usize) -> Option<&[u8]>
        ensures { option_copied result ≡ slice_get self.now index }
    {
        if index < self.len() {
            Some(self.at(index))
        } else {
            None
        }
    }

    /// Appends a copy of the string. If memory runs out, the list stays as it was.
    pub fn push(&mut self, string: &[u8]) -> Result<(), AllocError>
        ensures ok { OnOk result (self.new ≡ self.old ++ string.now ∷ []) }
        ensures err { OnErr result (self.new ≡ self.old) }
    {
        self.ends.reserve(1)?;
        self.bytes.extend_from_slice(string)?;
        self.ends.push_reserved(self.bytes.len());
        Ok(())
    }

    /// Appends one string: the first part followed by the second. If memory runs out, the list stays as it was.
    pub fn push_joined(&mut self, first: &[u8], second: &[u8]) -> Result<(), AllocError>
        ensures ok { OnOk result (self.new ≡ self.old ++ (first.now ++ second.now) ∷ []) }
        ensures err { OnErr result (self.new ≡ self.old) }
    {
        self.ends.reserve(1)?;
        append_both(&mut self.bytes, first, second)?;
        self.ends.push_reserved(self.bytes.len());
        Ok(())
    }

    /// Appends copies of the other list's strings. If memory runs out, the list stays as it was.
    pub fn append(&mut self, other: &PackedList) -> Result<(), AllocError>
        ensures ok { OnOk result (self.new ≡ self.old ++ other.now) }
        ensures err { OnErr result (self.new ≡ self.old) }
    {
        let base = self.bytes.len();
        self.ends.reserve(other.ends.len())?;
        self.bytes.extend_from_slice(&other.bytes)?;
        append_ends(&mut self.ends, &other.ends, base);
        Ok(())
    }

    /// Keeps only the first `count` strings, or all if there are fewer. The memory of the others stays for later strings.
    pub fn truncate(&mut self, count: usize)
        ensures { self.new ≡ take count self.old }
    {
        if count < self.ends.len() {
            self.bytes.truncate(start_of(&self.ends, count));
            self.ends.truncate(count);
        }
    }

    /// A copy of the strings from `from` to `to - 1`, with no more room than they need.
    pub fn part(&self, alloc: Global, from: usize, to: usize) -> Result<PackedList, AllocError>
        requires order { from ≤ to }
        requires to { to ≤ length self.now }
        ensures { IfOk result (λ part. part ≡ slice_range self.now from to) }
    {
        let base = start_of(&self.ends, from);
        let end = start_of(&self.ends, to);
        let bytes = Vec::from_slice(alloc, range(&self.bytes, base, end))?;
        let ends = lowered(alloc, ends_between(&self.ends, from, to), base)?;
        Ok(PackedList { bytes, ends })
    }
}

/// Where the string of this index begins. One past the last index, it is where the buffer ends.
fn start_of(ends: &[usize], index: usize) -> usize
    requires { index ≤ length ends.now }
    ensures { result ≡ start_of 0 ends.now index }
{
    if index == 0 { 0 } else { ends[index - 1] }
}

/// Where the string of this index ends.
fn end_of(ends: &[usize], index: usize) -> usize
    requires { index < length ends.now }
    ensures { result ≡ slice_index ends.now index }
{
    ends[index]
}

/// The bytes from `start` to `end - 1`.
fn range(bytes: &[u8], start: usize, end: usize) -> &[u8]
    requires order { start ≤ end }
    requires end { end ≤ length bytes.now }
    ensures { result.now ≡ slice_range bytes.now start end }
{
    &bytes[start..end]
}

/// The ends of the strings from `from` to `to - 1`.
fn ends_between(ends: &[usize], from: usize, to: usize) -> &[usize]
    requires order { from ≤ to }
    requires to { to ≤ length ends.now }
    ensures { result.now ≡ slice_range ends.now from to }
{
    &ends[from..to]
}

/// The ends in a buffer that begins at the byte `base`.
fn lowered(alloc: Global, ends: &[usize], base: usize) -> Result<Vec<usize>, AllocError>
    requires { All (λ end. base ≤ end) ends.now }
    ensures { IfOk result (λ lowered. lowered.items ≡ map (λ end. end - base) ends.now) }
{
    let mut lowered = Vec::with_capacity(alloc, ends.len())?;
    for end in ends {
        lowered.push_reserved(end - base);
    }
    Ok(lowered)
}

/// Appends both, or nothing if memory runs out.
fn append_both(bytes: &mut Vec<u8>, first: &[u8], second: &[u8]) -> Result<(), AllocError>
    ensures ok { OnOk result (bytes.new.items ≡ bytes.old.items ++ (first.now ++ second.now)) }
    ensures err { OnErr result (bytes.new.items ≡ bytes.old.items) }
{
    bytes.reserve(first.len() + second.len())?;
    bytes.extend_from_slice(first)?;
    bytes.extend_from_slice(second)?;
    Ok(())
}

/// Appends the ends of strings that begin at `base`. There is room for them.
fn append_ends(ends: &mut Vec<usize>, more: &[usize], base: usize)
    requires room { vec_len ends.old + length more.now ≤ vec_capacity ends.old }
    requires fits { All (λ end. base + end < 2 ^ 64) more.now }
    ensures { ends.new.items ≡ ends.old.items ++ map (λ end. base + end) more.now }
{
    for end in more {
        ends.push_reserved(base + end);
    }
}
