//! The records of a block, read and processed one by one.

ghost use Rattle.std.specs.Prelude.{◌≡◌, ◌+◌, ◌<◌, ◌≤◌, [], IfOk, OnErr};
ghost use Rattle.jb_artifacts.specs.Reader.{reader_end};
ghost use Rattle.jb_rules.specs.Sound.{IsSoundRow};
ghost use Rattle.jb_rules.specs.Rows.{row_block, skips_of};
ghost use Rattle.jb_chunk.specs.Entries.{Entry};
ghost use Rattle.jb_chunk.specs.inside.Gathering.{IsWornTo, IsGatheringStep, IsSmallTally, yield_of};
ghost use Rattle.jb_chunk.specs.TaskState.{HasItemCount, HasRepeats};
ghost use Rattle.jb_chunk.specs.inside.Repeats.{IsDone, IsEntered, IsGathered};
ghost use Rattle.jb_chunk.specs.inside.TriedChunk.{OfTask, IsTorn};

use crate::chunk_results::ChunkResults;
use crate::entry::EntryKind;
use crate::partition_artifacts::PartitionArtifacts;
use crate::repeat::{process_in_place, read_in_place};
use crate::tally::Tally;
use jb_base::{ArtifactError, ClassId, Rules};
use jb_rules::{Choice, Row, decide};
use std::alloc::AllocError;

/// What the records of a block came to, but for their results.
#[derive(Clone, Copy, Debug, PartialEq, Eq)]
pub enum Gathered {
    /// The fault of this record, of this class, isn't skipped.
    Settled(u64, ClassId, Choice),
    /// All records are done, and their faults are skipped.
    Whole(Tally),
}

/// Reads the record at the reader's place and processes it, each again after a fault that is repeated in place. Its result, if
/// it has one, is put after the others.
fn read_and_process<A: PartitionArtifacts>(
    artifacts: &mut A,
    rules: &Rules,
    row: &mut Row,
    skips: u64,
    number: u64,
    results: &mut A::Results,
) -> Result<EntryKind, AllocError>
    requires sound { IsSoundRow row.old }
    requires room { HasRepeats rules.now row.old }
    requires place { (A.meaning artifacts.old).reader.place ≡ number }
    requires from { (A.meaning artifacts.old).reader.first ≤ number }
    requires to { number < reader_end (A.meaning artifacts.old).reader }
    ensures done { let w = A.meaning artifacts.old in
        let before = A.Results.pairs results.old in
        let after = A.Results.pairs results.new in
        IfOk result (λ kind. IsEntered rules.now skips row.old w number before kind row.new (A.meaning artifacts.new) after) }
    ensures sound { IsSoundRow row.new }
    ensures room { HasRepeats rules.now row.new }
    ensures err { OnErr result (IsWornTo number (number + 1) (A.meaning artifacts.old) (A.meaning artifacts.new)) }
{
    let item = match read_in_place(artifacts, rules, row, skips, number) {
        Ok(item) => item,
        Err(ArtifactError::Fault(class)) => return Ok(EntryKind::ReadFault(class)),
        Err(ArtifactError::Memory) => return Err(AllocError),
    };
    match process_in_place(artifacts, rules, row, skips, number, &item, results) {
        Ok(_) => Ok(EntryKind::Processed),
        Err(ArtifactError::Fault(class)) => Ok(EntryKind::ProcessFault(class)),
        Err(ArtifactError::Memory) => Err(AllocError),
    }
}

/// Reads and processes one record, and counts it, unless its fault isn't skipped.
fn settle_record<A: PartitionArtifacts>(
    artifacts: &mut A,
    rules: &Rules,
    row: &mut Row,
    number: u64,
    tally: &mut Tally,
    results: &mut A::Results,
) -> Result<Option<(ClassId, Choice)>, AllocError>
    requires sound { IsSoundRow row.old }
    requires room { HasRepeats rules.now row.old }
    requires few { IsSmallTally tally.old }
    requires place { (A.meaning artifacts.old).reader.place ≡ number }
    requires from { (A.meaning artifacts.old).reader.first ≤ number }
    requires to { number < reader_end (A.meaning artifacts.old).reader }
    ensures stepped { let w = A.meaning artifacts.old in
        let skips = skips_of row.old + tally.old.skips in
        let before = yield_of tally.old (A.Results.pairs results.old) in
        let after = yield_of tally.new (A.Results.pairs results.new) in
        IfOk result (λ settled. (e : Entry) × IsDone rules.now skips row.old w number e row.new (A.meaning artifacts.new) × IsGatheringStep rules.now row.new e number before settled after) }
    ensures sound { IsSoundRow row.new }
    ensures room { HasRepeats rules.now row.new }
    ensures err { OnErr result (IsWornTo number (number + 1) (A.meaning artifacts.old) (A.meaning artifacts.new)) }
{
    let skips = row.skips() + tally.skips;
    let kind = read_and_process(artifacts, rules, row, skips, number, results)?;
    if let Some(class) = kind.fault() {
        let choice = decide(rules, class, row.at < row.redo, skips, row.retries);
        if !matches!(choice, Choice::Skip) {
            return Ok(Some((class, choice)));
        }
    }
    tally.count(kind);
    Ok(None)
}

/// Reads and processes the records of the row's next chunk, until one has a fault that is neither skipped nor repeated. The row
/// counts the repeats.
pub fn gather<A: PartitionArtifacts>(
    artifacts: &mut A,
    rules: &Rules,
    row: &mut Row,
    item_count: u64,
    results: &mut A::Results,
) -> Result<Gathered, AllocError>
    requires sound { IsSoundRow row.old }
    requires room { HasRepeats rules.now row.old }
    requires item_counted { HasItemCount item_count }
    requires place { (A.meaning artifacts.old).reader.place ≡ row.old.at }
    requires from { (A.meaning artifacts.old).reader.first ≤ row.old.at }
    requires to { row.old.hi ≤ reader_end (A.meaning artifacts.old).reader }
    requires none { A.Results.pairs results.old ≡ [] }
    ensures ok { OfTask rules.now row.old item_count (A.meaning artifacts.old) (λ t.
        IfOk result (λ gathered. IsGathered t gathered (A.Results.pairs results.new) row.new (A.meaning artifacts.new))) }
    ensures sound { IsSoundRow row.new }
    ensures room { HasRepeats rules.now row.new }
    ensures err { OnErr result (IsTorn row.old.at (row_block item_count row.old).hi (A.meaning artifacts.old) (A.meaning artifacts.new)) }
{
    let block = row.block(item_count);
    let mut tally = Tally::new();
    for number in row.at..block.hi {
        match settle_record(artifacts, rules, row, number, &mut tally, results) {
            Ok(None) => {}
            Ok(Some((class, choice))) => return Ok(Gathered::Settled(number, class, choice)),
            Err(error) => return Err(error),
        }
    }
    Ok(Gathered::Whole(tally))
}
