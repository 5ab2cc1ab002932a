//! A header and two intervals, written and read back.

use jb_base::{ClassId, PackedList};
use jb_slice_file::Checkpoint;
use jb_slice_run::{
    Fault, HeaderLists, IdentityPart, PartitionOutput, SliceError, SliceHeader, SliceLimits,
    header_checkpoint, interval_checkpoint, read_slice, refuse_lowered,
};
use std::alloc::{AllocError, AllocFailed, Global};

/// The error of a test if something that it relies on is refused.
#[derive(Debug, Drop)]
pub struct Fail;

impl From<AllocError> for Fail {
    fn from(_: AllocError) -> Fail {
        Fail
    }
}

impl<T: Drop> From<AllocFailed<T>> for Fail {
    fn from(_: AllocFailed<T>) -> Fail {
        Fail
    }
}

impl From<SliceError> for Fail {
    fn from(_: SliceError) -> Fail {
        Fail
    }
}

/// Limits with this many skips in a partition.
fn limits_of(skips: u64) -> SliceLimits {
    SliceLimits {
        skips: Some(skips),
        job_skips: None,
        retries: 1000,
    }
}

/// The header of a slice.
fn header_of<'a>(name: &'a str, stamp: &'a str, classes: &'a [&'a str]) -> SliceHeader<'a> {
    SliceHeader {
        name,
        slice_length: 300,
        partitions: 2,
        item_count: 10,
        classes,
        skippable: 1,
        retryable: 2,
        no_rollback: 0,
        limits: limits_of(3),
        stamp,
        number: 5,
        items: 300,
        digest: [7; 32],
    }
}

/// A partition with one result, and this skipped fault and stop.
fn new_output_of(
    alloc: Global,
    text: &[u8],
    skip: Option<Fault>,
    stop: Option<Fault>,
) -> Result<PartitionOutput, Fail> {
    let mut results = PackedList::new(alloc);
    results.push(text)?;
    let mut skips = Vec::new(alloc);
    if let Some(fault) = skip {
        skips.push(fault)?;
    }
    Ok(PartitionOutput {
        results,
        skips,
        stop,
    })
}

/// An interval of two partitions, the first one with this result and skipped fault, the other one with this stop.
fn interval_of(
    alloc: Global,
    skips: u64,
    text: &[u8],
    skip: Option<Fault>,
    stop: Option<Fault>,
) -> Result<Checkpoint, Fail> {
    let mut partitions = Vec::new(alloc);
    partitions.push(new_output_of(alloc, text, skip, None)?)?;
    partitions.push(new_output_of(alloc, b"", None, stop)?)?;
    let saved = format!(in alloc; "rows")?;
    Ok(interval_checkpoint(alloc, limits_of(skips), saved, partitions)?)
}

/// A header has this text, and is refused by the part that differs.
#[test]
fn a_header_is_told(rt: HostRuntime) -> Result<(), Fail> {
    let alloc = rt.alloc();
    let own = header_of("payroll", "v1", &["no rate", "late"]);
    let first = header_checkpoint(alloc, &own)?;
    let text =
        r#"{"form":3,"job":"payroll","slice":5,"items":300,"slice-length":300,"partitions":2,"item-count":10,"classes":["no rate","late"],"skippable":[0],"retryable":[1],"no-rollback":[],"skip-limit":3,"job-skip-limit":null,"retry-limit":1000,"stamp":"v1"}"#;
    assert!(rt; first.saved.as_str() == text);
    let held = HeaderLists::read(alloc, &first)?;
    let same = HeaderLists::of(alloc, &own)?;
    assert!(rt; held.refuse_others(&same, &[]) == Ok(()));
    let other = HeaderLists::of(alloc, &header_of("payroll", "v2", &["no rate", "late"]))?;
    assert!(rt; held.refuse_others(&other, &[]) == Err(SliceError::OtherStamp));
    assert!(rt; held.refuse_others(&other, &["v0", "v1"]) == Ok(()));
    let other = HeaderLists::of(alloc, &header_of("payroll", "v1", &["no rate"]))?;
    let classes = Err(SliceError::OtherJob(IdentityPart::Classes));
    assert!(rt; held.refuse_others(&other, &[]) == classes);
    let mut third = own;
    third.digest = [8; 32];
    let other = HeaderLists::of(alloc, &third)?;
    assert!(rt; held.refuse_others(&other, &[]) == Err(SliceError::OtherItems));
    let limits = held.limits()?;
    assert!(rt; refuse_lowered(limits_of(3), limits) == Ok(()));
    let lowered = Err(SliceError::LoweredLimit);
    assert!(rt; refuse_lowered(limits_of(2), limits) == lowered);
    Ok(())
}

/// What two intervals have, put together.
#[test]
fn intervals_are_read(rt: HostRuntime) -> Result<(), Fail> {
    let alloc = rt.alloc();
    let fault = Fault {
        number: 1_500,
        class: ClassId::new(1),
    };
    let mut later = Vec::new(alloc);
    later.push(interval_of(alloc, 3, b"Ada", None, Some(fault))?)?;
    later.push(interval_of(alloc, 4, b"Grace", Some(fault), None)?)?;
    let held = read_slice(alloc, limits_of(3), &later, 2)?;
    assert!(rt; held.limits.skips == Some(4));
    assert!(rt; held.partitions.len() == 2);
    let first = &held.partitions[0];
    assert!(rt; first.results.len() == 2 && first.results.at(1) == b"Grace".as_slice());
    assert!(rt; first.skips.len() == 1 && first.skips[0].number == 1_500);
    assert!(rt; held.partitions[1].stop.is_none());
    let before = read_slice(alloc, limits_of(3), &later[..1], 2)?;
    assert!(rt; before.partitions[1].stop.is_some());
    let refused = read_slice(alloc, limits_of(3), &later, 3);
    assert!(rt; refused.is_err());
    Ok(())
}
