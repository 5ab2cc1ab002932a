//! The row of all chunks, partition after partition: where each partition begins, and which chunk is at a place.
ghost use Rattle.std.specs.Prelude.{◌≡◌, ◌+◌, ◌-◌, ◌^◌, ◌<◌, ◌≤◌, length, slice_index, IfOk, IsTrue, sum, nat_lt, if◌then◌else◌};
ghost use Rattle.std.specs.List.Sorted.{IsNonDecreasing};
ghost use Rattle.jb_base.specs.Limits.{max_chunks, max_load_partitions};
ghost use Rattle.jb_cert.specs.WrapAround.{chunk_at_place, pair_at_place};
ghost use Rattle.jb_rounds.specs.inside.Starts.{LiesBetween, starts_from, counts_between};

use jb_cert::places_lie_round;
use std::alloc::{AllocError, Global};

/// The prefix sums of the counts: where each partition begins, and finally where the last one ends.
pub(crate) fn starts_of(alloc: Global, counts: &[u64]) -> Result<Vec<u64>, AllocError>
    requires { sum counts.now ≤ max_chunks }
    ensures { IfOk result (λ starts. starts.items ≡ starts_from 0 counts.now) }
{
    let mut starts = Vec::with_capacity(alloc, counts.len() + 1)?;
    let mut end = 0;
    starts.push(end)?;
    for count in counts {
        end += *count;
        starts.push(end)?;
    }
    Ok(starts)
}

/// The number of chunks: where the last partition ends.
pub(crate) fn chunk_total(starts: &[u64]) -> u64
    requires { starts.now ≡ starts_from 0 (counts_between starts.now) }
    ensures { result ≡ sum (counts_between starts.now) }
{
    starts[starts.len() - 1]
}

/// The partition and chunk at a place of the row, which is cut into lanes of so many rounds. The partition `near` and the
/// next one are tried before the search.
pub(crate) fn pair_in(starts: &[u64], rounds: u64, place: u64, near: u32) -> Option<(u32, u64)>
    requires indexed { starts.now ≡ starts_from 0 (counts_between starts.now) }
    requires few_counts { length starts.now ≤ max_load_partitions + 1 }
    requires few_chunks { sum (counts_between starts.now) ≤ max_chunks }
    requires some_round { 0 < rounds }
    requires few_rounds { rounds ≤ max_chunks }
    ensures { result ≡ (if nat_lt place (sum (counts_between starts.now)) then Some (pair_at_place (counts_between starts.now) rounds place) else None) }
{
    if place >= chunk_total(starts) {
        return None;
    }
    places_lie_round();
    let partition = partition_near(starts, place, near);
    let start = starts[partition];
    let count = starts[partition + 1] - start;
    Some((partition as u32, chunk_in(rounds, start, count, place)))
}

// The partition at the place.
fn partition_near(starts: &[u64], place: u64, near: u32) -> usize
    requires rising { IsNonDecreasing starts.now }
    requires some { 0 < length starts.now }
    requires from { slice_index starts.now 0 ≤ place }
    requires until { place < slice_index starts.now (length starts.now - 1) }
    ensures { LiesBetween starts.now place result }
{
    let near = near as usize;
    if lies_in(starts, place, near) {
        near
    } else if lies_in(starts, place, near + 1) {
        near + 1
    } else {
        partition_in(starts, place)
    }
}

// Whether there is such a partition, and the place lies in it.
fn lies_in(starts: &[u64], place: u64, partition: usize) -> bool
    requires { partition < 2 ^ 33 }
    ensures { IsTrue result → LiesBetween starts.now place partition }
{
    partition + 1 < starts.len() && starts[partition] <= place && place < starts[partition + 1]
}

// The partition at the place, by a binary search.
fn partition_in(starts: &[u64], place: u64) -> usize
    requires rising { IsNonDecreasing starts.now }
    requires some { 0 < length starts.now }
    requires from { slice_index starts.now 0 ≤ place }
    requires until { place < slice_index starts.now (length starts.now - 1) }
    ensures { LiesBetween starts.now place result }
{
    starts.partition_point(|start| *start <= place) - 1
}

// The chunk at a place of a partition with so many chunks from the start on, where the row is cut into lanes of so many
// rounds.
fn chunk_in(rounds: u64, start: u64, count: u64, place: u64) -> u64
    requires some_round { 0 < rounds }
    requires few_rounds { rounds ≤ max_chunks }
    requires few_chunks { start + count ≤ max_chunks }
    requires from { start ≤ place }
    requires until { place < start + count }
    ensures { result ≡ chunk_at_place rounds start count place }
{
    let cut = (start / rounds + 1) * rounds;
    let end = start + count;
    if cut >= end {
        place - start
    } else if place >= cut {
        place - cut
    } else {
        (end - cut) + (place - start)
    }
}
