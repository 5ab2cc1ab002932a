//! A header that was read, and why it is refused.

ghost use Rattle.std.specs.Prelude.{ℕ, List, ◌≡◌, ◌≢◌, ◌<◌, ◌⊎◌, ◌∷◌, [], false, get_or, length, map, IfErr, IsTrue, IfOk, MatchOption, MatchResult, OnOk, Contains};
ghost use Rattle.std.specs.Bool.{MatchBool};
ghost use Rattle.jb_slice_file.specs.CheckpointBytes.{checkpoint_bytes};
ghost use Rattle.jb_slices.specs.Checkpoint.{Begins, Header};
ghost use Rattle.jb_slices.specs.Job.{AreRaised, HaveInCommon, IsRaised, Limits};
ghost use Rattle.jb_slice_run.specs.Held.{header_in, limits_in};
ghost use Rattle.jb_slice_run.specs.SliceBytes.{IsStoredAs};
ghost use Rattle.jb_slice_run.specs.Refusals.{HaveSame, HaveThoseBefore, IsHeaderCause, IsHeaderRefusal, IsOwn, list_of, part_of};
ghost use Rattle.jb_slice_run.specs.Strings.{AreLimitsSmall, IsHeaderSmall, header_lists, limits_list};
ghost use Rattle.jb_slice_run.specs.declared.error.SliceError.TheVariants.{Damaged, LoweredLimit, Memory};

use crate::decoding::read_lists;
use crate::error::{IdentityPart, SliceError};
use crate::header::{SliceHeader, SliceLimits};
use crate::reading::read_limits;
use crate::strings::header_lists;
use jb_base::PackedList;
use jb_slice_file::Checkpoint;
use std::alloc::{AllocError, Global};
use std::marker::Model;

/// A header as its ten lists of strings. Contracts see these.
#[derive(Drop)]
pub struct HeaderLists {
    lists: Vec<PackedList>,
}

impl Model for HeaderLists {
    ghost use Rattle.std.specs.Prelude.{ℕ, List, ◌≡◌, length};

    ghost Value = { List (List (List ℕ)) };

    ghost view = { λ h. h.lists.items };

    ghost invariant = { λ h. length h.lists.items ≡ 10 };
}

/// Whether the lists have the same strings.
fn is_same(list: &PackedList, other: &PackedList) -> bool
    ensures { MatchBool result (list.now ≡ other.now) (list.now ≢ other.now) }
{
    if list.len() != other.len() {
        return false;
    }
    for index in 0..list.len() {
        if list.at(index) != other.at(index) {
            return false;
        }
    }
    true
}

/// Whether a text is one of these.
fn is_among(text: &[u8], stamps: &[&str]) -> bool
    ensures { MatchBool result (Contains (map (λ stamp. stamp.now) stamps.now) text.now) (Contains (map (λ stamp. stamp.now) stamps.now) text.now → ⊥) }
{
    for stamp in stamps {
        if stamp.as_bytes() == text {
            return true;
        }
    }
    false
}

/// Whether a header with this list has our stamp, or one of these.
fn has_stamp(own: &PackedList, held: &PackedList, stamps: &[&str]) -> bool
    ensures { (o h : List ℕ) → own.now ≡ o ∷ [] → held.now ≡ h ∷ []
        → MatchBool result (Contains (o ∷ map (λ stamp. stamp.now) stamps.now) h) (Contains (o ∷ map (λ stamp. stamp.now) stamps.now) h → ⊥) }
{
    if is_same(own, held) {
        return true;
    }
    match held.get(0) {
        Some(text) => is_among(text, stamps),
        None => false,
    }
}

/// A part of a header that a slice has in common with its job, number and items.
#[derive(Clone, Copy)]
enum HeaderPart {
    Identity(IdentityPart),
    Number,
    Digest,
    Items,
}

/// The list of a header that has this part.
fn place_of(part: HeaderPart) -> usize
    ensures within { result < 10 }
    ensures at { (h : Header) (d : List (List ℕ)) → get_or (header_lists h) result d ≡ list_of part h }
{
    match part {
        HeaderPart::Identity(IdentityPart::Name) => 1,
        HeaderPart::Identity(IdentityPart::SliceLength) => 2,
        HeaderPart::Identity(IdentityPart::Partitions) => 3,
        HeaderPart::Identity(IdentityPart::ItemCount) => 4,
        HeaderPart::Identity(IdentityPart::Classes) => 5,
        HeaderPart::Number => 8,
        HeaderPart::Digest => 0,
        HeaderPart::Items => 9,
    }
}

/// Whether two headers have this part in common.
fn has_same(own: &HeaderLists, held: &HeaderLists, part: HeaderPart) -> bool
    ensures same { IsTrue result → (o h : Header) → own.now ≡ header_lists o → held.now ≡ header_lists h → IsHeaderSmall o → IsHeaderSmall h → HaveSame part o h }
    ensures other { result ≡ false → (o h : Header) → own.now ≡ header_lists o → held.now ≡ header_lists h → HaveSame part o h → ⊥ }
{
    let place = place_of(part);
    is_same(&own.lists[place], &held.lists[place])
}

/// The first part of the identity in which the jobs of two headers differ.
fn other_part(own: &HeaderLists, held: &HeaderLists) -> Option<IdentityPart>
    ensures { (o h : Header) → own.now ≡ header_lists o → held.now ≡ header_lists h → IsHeaderSmall o → IsHeaderSmall h
        → MatchOption result (o.job ≡ h.job) (λ part. HaveThoseBefore part o.job h.job × (HaveInCommon (part_of part) o.job h.job → ⊥)) }
{
    if !has_same(own, held, HeaderPart::Identity(IdentityPart::Name)) {
        Some(IdentityPart::Name)
    } else if !has_same(own, held, HeaderPart::Identity(IdentityPart::SliceLength)) {
        Some(IdentityPart::SliceLength)
    } else if !has_same(own, held, HeaderPart::Identity(IdentityPart::Partitions)) {
        Some(IdentityPart::Partitions)
    } else if !has_same(own, held, HeaderPart::Identity(IdentityPart::ItemCount)) {
        Some(IdentityPart::ItemCount)
    } else if !has_same(own, held, HeaderPart::Identity(IdentityPart::Classes)) {
        Some(IdentityPart::Classes)
    } else {
        None
    }
}

impl HeaderLists {
    /// The lists of this header.
    pub fn of(alloc: Global, header: &SliceHeader) -> Result<HeaderLists, AllocError>
        ensures lists { IfOk result (λ lists. lists ≡ header_lists (header_in header.now)) }
        ensures small { OnOk result (IsHeaderSmall (header_in header.now)) }
    {
        let lists = header_lists(alloc, header)?;
        Ok(HeaderLists { lists })
    }

    /// The lists of a slice's first checkpoint.
    ///
    /// # Errors
    /// `Damaged` if its bytes aren't the coding of ten lists, and `Memory`.
    pub fn read(alloc: Global, first: &Checkpoint) -> Result<HeaderLists, SliceError>
        ensures read { (h : Header) → IsStoredAs (Begins h) (checkpoint_bytes first.now) → IfOk result (λ lists. lists ≡ header_lists h) }
        ensures why { IfErr result (λ e. (e ≡ Memory) ⊎ (e ≡ Damaged) × ((h : Header) → IsStoredAs (Begins h) (checkpoint_bytes first.now) → ⊥)) }
    {
        let lists = read_lists(alloc, &first.results, 10)?;
        Ok(HeaderLists { lists })
    }

    /// The limits with which the slice began.
    ///
    /// # Errors
    /// `Damaged` if these aren't limits.
    pub fn limits(&self) -> Result<SliceLimits, SliceError>
        ensures limits { (h : Header) → self.now ≡ header_lists h → IsHeaderSmall h → MatchResult result (λ limits. limits_in limits ≡ h.limits) (λ e. ⊥) }
        ensures own { MatchResult result (λ limits. get_or self.now 7 [] ≡ limits_list (limits_in limits)) (λ _. (limits : Limits) → get_or self.now 7 [] ≡ limits_list limits → ⊥) }
        ensures why { IfErr result (λ e. e ≡ Damaged) }
    {
        read_limits(&self.lists[7])
    }

    /// Refuses a header that isn't our own. Its limits may differ. Its stamp must be ours or one of `stamps`.
    ///
    /// # Errors
    /// In this order: `OtherJob` with the first part of the identity that differs, `OtherSlice`, `OtherItems`, `OtherStamp`.
    pub fn refuse_others(&self, own: &HeaderLists, stamps: &[&str]) -> Result<(), SliceError>
        ensures own { (h o : Header) → self.now ≡ header_lists h → own.now ≡ header_lists o → IsHeaderSmall h → IsHeaderSmall o → OnOk result (IsOwn o (map (λ stamp. stamp.now) stamps.now) h) }
        ensures why { (h o : Header) → self.now ≡ header_lists h → own.now ≡ header_lists o → IsHeaderSmall h → IsHeaderSmall o → IfErr result (IsHeaderCause o (map (λ stamp. stamp.now) stamps.now) h) }
        ensures kind { IfErr result IsHeaderRefusal }
    {
        if let Some(part) = other_part(own, self) {
            return Err(SliceError::OtherJob(part));
        }
        if !has_same(own, self, HeaderPart::Number) {
            return Err(SliceError::OtherSlice);
        }
        if !has_same(own, self, HeaderPart::Digest) {
            return Err(SliceError::OtherItems);
        }
        if !has_same(own, self, HeaderPart::Items) {
            return Err(SliceError::OtherItems);
        }
        if !has_stamp(&own.lists[6], &self.lists[6], stamps) {
            return Err(SliceError::OtherStamp);
        }
        Ok(())
    }
}

/// Whether a limit is lower than the one before it.
fn is_lowered(before: Option<u64>, after: Option<u64>) -> bool
    ensures { MatchBool result (IsRaised before after → ⊥) (IsRaised before after) }
{
    match after {
        None => false,
        Some(after) => match before {
            None => true,
            Some(before) => after < before,
        },
    }
}

/// Refuses limits if one of them is lower than the slice's.
///
/// # Errors
/// `LoweredLimit`.
pub fn refuse_lowered(limits: SliceLimits, held: SliceLimits) -> Result<(), SliceError>
    ensures { MatchResult result (λ _. AreRaised (limits_in held) (limits_in limits)) (λ e. (e ≡ LoweredLimit) × (AreRaised (limits_in held) (limits_in limits) → ⊥)) }
{
    if is_lowered(held.skips, limits.skips)
        || is_lowered(held.job_skips, limits.job_skips)
        || limits.retries < held.retries
    {
        return Err(SliceError::LoweredLimit);
    }
    Ok(())
}
