//! The chunks that are left of a range of records.

ghost use Rattle.std.specs.Prelude.{◌≡◌, ◌≤◌, ◌-◌, slice_get, IfSome};
ghost use Rattle.jb_base.specs.Limits.{max_item_count, max_records};
ghost use Rattle.jb_plan.specs.Blocks.{blocks, left, first_block, blocks_left, IsNext, ChunksFollow};

use jb_base::Range;

/// The next chunk of the records from `at` to below `hi`, or None if nothing is left.
///
/// A chunk has `item_count` records and is shorter only at the range's end (Jakarta Batch 2.1, "Chunk"). Below
/// `redo`, where an earlier chunk was rolled back to be retried, each chunk has one record.
#[tactic(auto, using(crate::proofs::BlockLists::first_is))]
pub fn next_chunk(at: u64, redo: u64, hi: u64, item_count: u64) -> Option<Range>
    requires at_in { at ≤ hi }
    requires redo_in { redo ≤ hi }
    requires records { hi ≤ max_records }
    requires some { 1 ≤ item_count }
    requires count { item_count ≤ max_item_count }
    ensures first { result ≡ slice_get (blocks at redo hi item_count) 0 }
    ensures formula { result ≡ first_block at redo hi item_count }
    ensures next { IfSome result (λ block. IsNext at redo hi item_count block) }
{
    if at == hi {
        None
    } else if at < redo {
        Some(Range { lo: at, hi: at + 1 })
    } else {
        Some(Range {
            lo: at,
            hi: hi.min(at + item_count),
        })
    }
}

/// How many chunks are left of the records from `at` to below `hi`.
#[tactic(auto, using(crate::proofs::BlockLists::left_is))]
pub fn chunks_left(at: u64, redo: u64, hi: u64, item_count: u64) -> u64
    requires at_in { at ≤ hi }
    requires redo_in { redo ≤ hi }
    requires records { hi ≤ max_records }
    requires some { 1 ≤ item_count }
    requires count { item_count ≤ max_item_count }
    ensures number { result ≡ left at redo hi item_count }
    ensures formula { result ≡ blocks_left at redo hi item_count }
    ensures few { result ≤ hi - at }
{
    redo.saturating_sub(at) + (hi - at.max(redo)).div_ceil(item_count)
}

/// The law of chunks: those that are left follow one another up to the range's end. From the end of each chunk on, the
/// chunks after it are left. There are no more chunks than records.
pub fn chunks_follow_one_another()
    ensures { ChunksFollow }
{}
