//! The calls of a chunk, each repeated in place while its fault's choice is so.

ghost use Rattle.std.specs.Prelude.{◌≡◌, ◌≤◌, ◌<◌, length, None, Some, OnOk};
ghost use Rattle.jb_artifacts.specs.Answers.{IfFault, IfNoMemory};
ghost use Rattle.jb_artifacts.specs.Reader.{reader_end, record_at};
ghost use Rattle.jb_artifacts.specs.Writer.{write_fault, after_write, torn_write};
ghost use Rattle.jb_rules.specs.Sound.{IsSoundRow};
ghost use Rattle.jb_chunk.specs.Block.{repeats};
ghost use Rattle.jb_chunk.specs.TaskState.{HasRepeats};
ghost use Rattle.jb_chunk.specs.inside.Repeats.{seen_as, fault_answered, results_behind, IsRead, IsProcessed, IsPut};

use crate::chunk_results::ChunkResults;
use crate::partition_artifacts::PartitionArtifacts;
use jb_base::{ArtifactError, Rules};
use jb_rules::{Choice, Row, decide};

/// Whether the call that answered so is to be repeated in place.
fn is_repeated<T>(rules: &Rules, row: &Row, skips: u64, answer: &Result<T, ArtifactError>) -> bool
    ensures { result ≡ repeats rules.now row.now (fault_answered answer.now) skips }
{
    match answer {
        Err(ArtifactError::Fault(class)) => matches!(
            decide(rules, *class, row.at < row.redo, skips, row.retries),
            Choice::Again
        ),
        _ => false,
    }
}

/// Reads the record of this number, which is the reader's next, again after each fault that is repeated in place. The row
/// counts the repeats.
pub fn read_in_place<A: PartitionArtifacts>(
    artifacts: &mut A,
    rules: &Rules,
    row: &mut Row,
    skips: u64,
    number: u64,
) -> Result<A::Record, ArtifactError>
    requires sound { IsSoundRow row.old }
    requires room { HasRepeats rules.now row.old }
    requires place { (A.meaning artifacts.old).reader.place ≡ number }
    requires from { (A.meaning artifacts.old).reader.first ≤ number }
    requires to { number < reader_end (A.meaning artifacts.old).reader }
    ensures read { let w = A.meaning artifacts.old in
        let seen = seen_as (λ item. A.bytes item (record_at w.reader number)) result in
        IsRead rules.now skips row.old w number seen row.new (A.meaning artifacts.new) }
    ensures sound { IsSoundRow row.new }
    ensures room { HasRepeats rules.now row.new }
{
    loop {
        let answer = artifacts.read_item();
        if !is_repeated(rules, row, skips, &answer) {
            return answer;
        }
        *row = row.repeated(1);
        artifacts.open_reader_at(number);
    }
}

/// Processes the item of the record of this number, again after each fault that is repeated in place. Its result, if it has
/// one, is put after the others. The row counts the repeats.
pub fn process_in_place<A: PartitionArtifacts>(
    artifacts: &mut A,
    rules: &Rules,
    row: &mut Row,
    skips: u64,
    number: u64,
    item: &A::Record,
    results: &mut A::Results,
) -> Result<bool, ArtifactError>
    requires sound { IsSoundRow row.old }
    requires room { HasRepeats rules.now row.old }
    requires from { (A.meaning artifacts.old).reader.first ≤ number }
    requires to { number < reader_end (A.meaning artifacts.old).reader }
    ensures processed { let w = A.meaning artifacts.old in
        let bytes = A.bytes item.now (record_at w.reader number) in
        IsProcessed rules.now skips row.old w number bytes result row.new (A.meaning artifacts.new) }
    ensures results { let w = A.meaning artifacts.old in
        let bytes = A.bytes item.now (record_at w.reader number) in
        A.Results.pairs results.new ≡ results_behind result number (w.processor.answer number bytes) (A.Results.pairs results.old) }
    ensures sound { IsSoundRow row.new }
    ensures room { HasRepeats rules.now row.new }
{
    loop {
        let answer = artifacts.process_item(number, item, results);
        if !is_repeated(rules, row, skips, &answer) {
            return answer;
        }
        *row = row.repeated(1);
    }
}

/// Writes the results, if there are any.
fn write_found<A: PartitionArtifacts>(
    artifacts: &mut A,
    results: &A::Results,
) -> Result<(), ArtifactError>
    ensures written { let w = A.meaning artifacts.old in
        let found = A.Results.pairs results.now in
        OnOk result ((write_fault w.writer found ≡ None)
        × (A.meaning artifacts.new ≡ record w { writer = after_write w.writer found })) }
    ensures faulted { let w = A.meaning artifacts.old in
        let found = A.Results.pairs results.now in
        IfFault result (λ class. (write_fault w.writer found ≡ Some class)
        × (A.meaning artifacts.new ≡ record w { writer = after_write w.writer found })) }
    ensures no_memory { let w = A.meaning artifacts.old in
        let now = A.meaning artifacts.new in
        let found = A.Results.pairs results.now in
        IfNoMemory result (now ≡ record w { writer = torn_write w.writer found (length now.writer.written) }) }
{
    if results.count() == 0 {
        return Ok(());
    }
    artifacts.write_items(results)
}

/// Writes the results, if there are any, again after each fault that is repeated in place. What a failing call wrote is
/// cut back before. The row counts the repeats.
pub fn write_in_place<A: PartitionArtifacts>(
    artifacts: &mut A,
    rules: &Rules,
    row: &mut Row,
    skips: u64,
    results: &A::Results,
) -> Result<(), ArtifactError>
    requires sound { IsSoundRow row.old }
    requires room { HasRepeats rules.now row.old }
    requires count { length (A.meaning artifacts.old).writer.written ≡ row.old.written }
    ensures put { let w = A.meaning artifacts.old in
        IsPut rules.now skips row.old w (A.Results.pairs results.now) result row.new (A.meaning artifacts.new) }
    ensures sound { IsSoundRow row.new }
{
    loop {
        let answer = write_found(artifacts, results);
        if !is_repeated(rules, row, skips, &answer) {
            return answer;
        }
        *row = row.repeated(1);
        artifacts.open_writer_at(row.written);
    }
}
