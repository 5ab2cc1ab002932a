//! One chunk tried to its end.

ghost use Rattle.std.specs.Prelude.{◌≡◌, ◌≤◌, ◌<◌, ◌+◌, ◌-◌, [], length, IfOk, OnErr};
ghost use Rattle.jb_artifacts.specs.Reader.{reader_end, opened};
ghost use Rattle.jb_rules.specs.Rows.{row_block};
ghost use Rattle.jb_rules.specs.Sound.{IsSoundRow};
ghost use Rattle.jb_chunk.specs.Attempt.{counts_with, end_by, row_after, all_repeated};
ghost use Rattle.jb_chunk.specs.inside.Gathering.{IsSmallTally, yield_of};
ghost use Rattle.jb_chunk.specs.TaskState.{HasItemCount, HasRepeats};
ghost use Rattle.jb_chunk.specs.inside.Repeats.{IsFinishAfter, IsTornWrite};
ghost use Rattle.jb_chunk.specs.inside.TriedChunk.{OfTask, IsTried, IsTorn};

use crate::chunk_results::ChunkResults;
use crate::gather::{Gathered, gather};
use crate::outcome::Outcome;
use crate::partition_artifacts::PartitionArtifacts;
use crate::repeat::write_in_place;
use crate::tally::Tally;
use jb_base::{ArtifactError, ClassId, Rules};
use jb_rules::{Choice, Counts, Row, decide};
use std::alloc::{AllocError, Global};

/// How the chunk ends by a fault of this class, for which this is chosen; a write call that is skipped adds this to the counts.
fn end_by_choice(choice: Choice, class: ClassId, skipped: Counts) -> Outcome
    ensures { result ≡ end_by skipped class choice }
{
    match choice {
        Choice::Skip => Outcome::Committed(skipped),
        Choice::Retry | Choice::Again => Outcome::Rolled(class),
        Choice::Fail => Outcome::Failed(class),
    }
}

/// What a committed chunk of so many records, with so many results, adds to the counts.
fn counts_with(records: u64, tally: &Tally, results: u64, written: u64, write_skips: u64) -> Counts
    requires skips { tally.now.skips + results ≤ records }
    requires reads { tally.now.read_skips ≤ tally.now.skips }
    ensures { result ≡ counts_with records tally.now.skips tally.now.read_skips results written write_skips }
{
    Counts {
        read: records - tally.read_skips,
        write: written,
        commit: 1,
        read_skip: tally.read_skips,
        process_skip: tally.skips - tally.read_skips,
        filter: records - tally.skips - results,
        write_skip: write_skips,
        ..Counts::ZERO
    }
}

/// Opens the reader again at the checkpoint, if the chunk, up to `hi`, isn't committed.
fn reopen<A: PartitionArtifacts>(artifacts: &mut A, end: Outcome, row: &Row, hi: u64)
    requires place { (A.meaning artifacts.old).reader.place ≡ hi }
    requires from { (A.meaning artifacts.old).reader.first ≤ row.now.at }
    requires to { row.now.at ≤ reader_end (A.meaning artifacts.old).reader }
    ensures { let w = A.meaning artifacts.old in
        A.meaning artifacts.new ≡ record w { reader = opened w.reader (row_after row.now hi end).at } }
{
    match end {
        Outcome::Committed(_) => {}
        _ => artifacts.open_reader_at(row.at),
    }
}

/// Tries the row's next chunk: reads, processes and writes its records, repeats calls in place, and settles the other faults.
/// The row counts the repeats.
pub fn try_block<A: PartitionArtifacts>(
    alloc: Global,
    artifacts: &mut A,
    rules: &Rules,
    row: &mut Row,
    item_count: u64,
) -> Result<Outcome, AllocError>
    requires sound { IsSoundRow row.old }
    requires room { HasRepeats rules.now row.old }
    requires some_left { row.old.at < row.old.hi }
    requires item_counted { HasItemCount item_count }
    requires place { (A.meaning artifacts.old).reader.place ≡ row.old.at }
    requires from { (A.meaning artifacts.old).reader.first ≤ row.old.at }
    requires to { row.old.hi ≤ reader_end (A.meaning artifacts.old).reader }
    requires count { length (A.meaning artifacts.old).writer.written ≡ row.old.written }
    ensures ok { OfTask rules.now row.old item_count (A.meaning artifacts.old) (λ t.
        IfOk result (λ end. (row.new ≡ (all_repeated t).row) × IsTried (all_repeated t) end (A.meaning artifacts.new))) }
    ensures sound { IsSoundRow row.new }
    ensures err { OnErr result (IsTorn row.old.at (row_block item_count row.old).hi (A.meaning artifacts.old) (A.meaning artifacts.new)) }
{
    let block = row.block(item_count);
    let mut results = artifacts.take_results(alloc, block.hi - block.lo)?;
    let end = try_records(artifacts, rules, row, item_count, &mut results);
    // After the partition's last chunk the results are dropped: a finished partition holds its outputs alone.
    if block.hi < row.hi {
        artifacts.keep_results(results);
    }
    end
}

/// The same, and the results, of which there are none yet, are put into this list.
fn try_records<A: PartitionArtifacts>(
    artifacts: &mut A,
    rules: &Rules,
    row: &mut Row,
    item_count: u64,
    results: &mut A::Results,
) -> Result<Outcome, AllocError>
    requires sound { IsSoundRow row.old }
    requires room { HasRepeats rules.now row.old }
    requires some_left { row.old.at < row.old.hi }
    requires item_counted { HasItemCount item_count }
    requires place { (A.meaning artifacts.old).reader.place ≡ row.old.at }
    requires from { (A.meaning artifacts.old).reader.first ≤ row.old.at }
    requires to { row.old.hi ≤ reader_end (A.meaning artifacts.old).reader }
    requires count { length (A.meaning artifacts.old).writer.written ≡ row.old.written }
    requires none { A.Results.pairs results.old ≡ [] }
    ensures ok { OfTask rules.now row.old item_count (A.meaning artifacts.old) (λ t.
        IfOk result (λ end. (row.new ≡ (all_repeated t).row) × IsTried (all_repeated t) end (A.meaning artifacts.new))) }
    ensures sound { IsSoundRow row.new }
    ensures err { OnErr result (IsTorn row.old.at (row_block item_count row.old).hi (A.meaning artifacts.old) (A.meaning artifacts.new)) }
{
    let block = row.block(item_count);
    match gather(artifacts, rules, row, item_count, results) {
        Ok(Gathered::Settled(_, class, choice)) => {
            artifacts.open_reader_at(row.at);
            Ok(end_by_choice(choice, class, Counts::ZERO))
        }
        Ok(Gathered::Whole(tally)) => finish_block(
            artifacts, rules, row, block.hi, &tally, results,
        ),
        Err(error) => Err(error),
    }
}

/// Writes the results of a whole chunk, and settles the write's fault: what isn't committed is cut back. The row counts the
/// repeats.
fn finish_block<A: PartitionArtifacts>(
    artifacts: &mut A,
    rules: &Rules,
    row: &mut Row,
    hi: u64,
    tally: &Tally,
    results: &A::Results,
) -> Result<Outcome, AllocError>
    requires sound { IsSoundRow row.old }
    requires room { HasRepeats rules.now row.old }
    requires order { row.old.at < hi }
    requires few { IsSmallTally tally.now }
    requires records { tally.now.skips + length (A.Results.pairs results.now) ≤ hi - row.old.at }
    requires reads { tally.now.read_skips ≤ tally.now.skips }
    requires place { (A.meaning artifacts.old).reader.place ≡ hi }
    requires from { (A.meaning artifacts.old).reader.first ≤ row.old.at }
    requires to { hi ≤ reader_end (A.meaning artifacts.old).reader }
    requires count { length (A.meaning artifacts.old).writer.written ≡ row.old.written }
    ensures ok { let w = A.meaning artifacts.old in
        let came_to = yield_of tally.now (A.Results.pairs results.now) in
        IfOk result (λ end. IsFinishAfter rules.now row.old hi came_to w end row.new (A.meaning artifacts.new)) }
    ensures sound { IsSoundRow row.new }
    ensures err { let w = A.meaning artifacts.old in
        let now = A.meaning artifacts.new in
        OnErr result (IsTornWrite w (A.Results.pairs results.now) now) }
{
    let records = hi - row.at;
    let skips = row.skips() + tally.skips;
    match write_in_place(artifacts, rules, row, skips, results) {
        Ok(()) => {
            let found = results.count();
            let delta = counts_with(records, tally, found, found, 0);
            Ok(Outcome::Committed(delta))
        }
        Err(ArtifactError::Fault(class)) => {
            let choice = decide(rules, class, row.at < row.redo, skips, row.retries);
            let skipped = counts_with(records, tally, results.count(), 0, 1);
            let end = end_by_choice(choice, class, skipped);
            artifacts.open_writer_at(row.written);
            reopen(artifacts, end, row, hi);
            Ok(end)
        }
        Err(ArtifactError::Memory) => Err(AllocError),
    }
}
