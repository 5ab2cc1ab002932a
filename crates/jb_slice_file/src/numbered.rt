//! Checkpoints with the numbers and the links with which they were found, and the list that they are.

ghost use Rattle.std.specs.Prelude.{◌≡◌, ◌⊎◌, ◌↔◌, map, pos, IfErr, IfOk, IsTrue};
ghost use Rattle.jb_slice_file.specs.Chain.{chained, link_of as link_after};
ghost use Rattle.jb_slice_file.specs.CheckpointBytes.{checkpoint_bytes};
ghost use Rattle.jb_slice_file.specs.ListEnd.{IsEndOf};
ghost use Rattle.jb_slice_file.specs.Numbered.{IsAlteredAt, numbered, numbered_from};
ghost use Rattle.jb_slice_file.specs.declared.error.StoreError.TheVariants.{Altered, Gap, Memory};

use crate::checkpoint::Checkpoint;
use crate::error::StoreError;
use crate::list_end::{ListEnd, NO_LINK, link_of};
use std::alloc::Global;

/// A checkpoint, and the number and the link with which it was found.
#[derive(Debug, Drop)]
pub struct Found {
    pub number: i64,
    pub checkpoint: Checkpoint,
    pub link: Vec<u8>,
}

/// Whether it was found under this number.
fn is_under(one: &Found, number: u64) -> bool
    ensures { IsTrue result ↔ (one.now.number ≡ pos number) }
{
    match u64::try_from(one.number) {
        Ok(found) => found == number,
        Err(_) => false,
    }
}

/// The link that it must have under this number, after this link.
fn right_link(last: &[u8; 32], number: u64, one: &Found) -> [u8; 32]
    ensures { result ≡ link_after last.now number (checkpoint_bytes one.now.checkpoint) }
{
    let Checkpoint { saved, results } = &one.checkpoint;
    link_of(last, number, saved.as_str(), results.as_slice())
}

/// Whether it was found with this link.
fn has_link(one: &Found, link: &[u8; 32]) -> bool
    ensures { IsTrue result ↔ (one.now.link.items ≡ link.now) }
{
    one.link.as_slice() == link.as_slice()
}

/// The checkpoints, and where they end. They must be found in the order of their numbers, from 1 on, and each with its link.
pub(crate) fn in_order(
    alloc: Global,
    found: Vec<Found>,
) -> Result<(Vec<Checkpoint>, ListEnd), StoreError>
    ensures list { IfOk result (λ r. map numbered found.items ≡ numbered_from 1 (chained (map checkpoint_bytes r.0.items))) }
    ensures end { IfOk result (λ r. IsEndOf r.1 (map checkpoint_bytes r.0.items)) }
    ensures gap { IfErr result (λ e. e ≡ Gap → (all : _) → map numbered found.items ≡ numbered_from 1 all → ⊥) }
    ensures altered { IfErr result (λ e. (number : _) → e ≡ Altered number → IsAlteredAt number (map numbered found.items)) }
    ensures why { IfErr result (λ e. (e ≡ Gap) ⊎ (((number : _) × (e ≡ Altered number)) ⊎ (e ≡ Memory))) }
{
    let mut all = Vec::new(alloc);
    let mut last = NO_LINK;
    'found: for one in found {
        let number = all.len() as u64 + 1;
        if !is_under(&one, number) {
            return Err(StoreError::Gap);
        }
        let link = right_link(&last, number, &one);
        if !has_link(&one, &link) {
            return Err(StoreError::Altered(number));
        }
        all.push(one.checkpoint)?;
        last = link;
    }
    let end = ListEnd {
        count: all.len() as u64,
        link: last,
    };
    Ok((all, end))
}
