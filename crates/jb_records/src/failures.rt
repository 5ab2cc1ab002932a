//! With which fault each failed partition failed.

ghost use Rattle.std.specs.Prelude.{◌≡◌, ◌+◌, ◌<◌, ◌^◌, true, filter, length, IfOk, IfSome};
ghost use Rattle.std.specs.List.{enumerate_from};
ghost use Rattle.jb_base.specs.Pairwise.{Pairwise};
ghost use Rattle.jb_chunk.specs.Block.{choice_at};
ghost use Rattle.jb_chunk.specs.TaskState.{HasItemCount};
ghost use Rattle.jb_rules.specs.Sound.{IsSoundRow};
ghost use Rattle.jb_rules.specs.States.{is_failed};
ghost use Rattle.jb_records.specs.Failures.{AreFailures, EndsAttempt, IsFailure, IsFaultIn, IsFaultOf, fault_noted, last_fault};
ghost use Rattle.jb_records.specs.inside.Attempts.{IsPassed, IsReached};

use crate::artifacts::RecordsArtifacts;
use crate::refusals::refusal_of;
use crate::step_function::StepFunction;
use jb_artifacts::record_of;
use jb_base::{ClassId, PackedList, Rules};
use jb_ready::{Note, Notes};
use jb_rows::{Row as Fields, RowBuilder};
use jb_rules::{Choice, Row, decide};
use std::alloc::{AllocError, Global};

/// A partition that failed.
#[derive(Clone, Copy, Debug, PartialEq, Eq)]
pub struct FailedPartition {
    pub partition: u32,
    /// The record whose fault was neither skipped nor retried, and its class: that of the partition's last attempt. None if there was no
    /// memory to note it.
    pub fault: Option<Note>,
}

/// The fault that was noted last, if no note was lost.
fn last_fault(notes: &Notes) -> Option<Note>
    ensures { result ≡ last_fault notes.now }
{
    if notes.lost() > 0 {
        return None;
    }
    notes.kept().last().copied()
}

/// The fault that the partition of this number met last, if all of its faults were noted.
fn noted_of<F: StepFunction>(
    artifacts: &[(u32, RecordsArtifacts<F>)],
    partition: u32,
) -> Option<Note>
    ensures { result ≡ fault_noted artifacts.now partition (λ a. a.inner.processor.notes) }
{
    for one in artifacts {
        if one.0 == partition {
            return last_fault(&one.1.artifacts().inner.processor.notes);
        }
    }
    None
}

/// The class of this record's fault: that with which it is refused, or else this one, if a first try at it fails with it.
fn fault_of<F: StepFunction>(
    alloc: Global,
    function: &F,
    record: &[u8],
    class: ClassId,
) -> Result<Option<ClassId>, AllocError>
    ensures { IfOk result (λ fault. IfSome fault (IsFaultOf (F.function function.now) record.now)) }
{
    if let Some(refusal) = refusal_of(function, record, &mut RowBuilder::new(alloc))? {
        return Ok(Some(refusal));
    }
    let tries = function.tries_of(alloc, &Fields::of(record))?;
    if tries.contains(&class) {
        Ok(Some(class))
    } else {
        Ok(None)
    }
}

/// What becomes of a fault of this class after so many skips, in an attempt at the row's next chunk.
fn choice_at(rules: &Rules, row: &Row, class: ClassId, skips: u64) -> Choice
    ensures { result ≡ choice_at rules.now row.now class skips }
{
    decide(rules, class, row.at < row.redo, skips, row.retries)
}

/// The skips up to this record, given those before it. None if the record is refused and isn't skipped.
fn skips_past<F: StepFunction>(
    function: &F,
    rules: &Rules,
    records: &PackedList,
    row: &Row,
    number: u64,
    built: &mut RowBuilder,
    skips: u64,
) -> Result<Option<u64>, AllocError>
    ensures { IfOk result (λ past. IfSome past (IsPassed (F.function function.now) rules.now records.now row.now number skips)) }
{
    let Some(class) = refusal_of(function, record_of(records, 0, number), built)? else {
        return Ok(Some(skips));
    };
    match choice_at(rules, row, class, skips) {
        Choice::Skip => Ok(skips.checked_add(1)),
        _ => Ok(None),
    }
}

/// The skips before this record in an attempt at the row's next chunk. None if an earlier record of the chunk is refused and isn't skipped.
fn skips_before<F: StepFunction>(
    alloc: Global,
    function: &F,
    rules: &Rules,
    records: &PackedList,
    row: &Row,
    number: u64,
) -> Result<Option<u64>, AllocError>
    requires { IsSoundRow row.now }
    ensures { IfOk result (λ before. IfSome before (IsReached (F.function function.now) rules.now records.now row.now number)) }
{
    let mut built = RowBuilder::new(alloc);
    let mut skips = row.skips();
    let count = number.saturating_sub(row.at);
    for index in 0..count {
        match skips_past(
            function,
            rules,
            records,
            row,
            row.at + index,
            &mut built,
            skips,
        )? {
            Some(past) => skips = past,
            None => return Ok(None),
        }
    }
    Ok(Some(skips))
}

/// Whether the partition's last attempt, at its row's next chunk, ended by this fault.
fn ends_attempt<F: StepFunction>(
    alloc: Global,
    function: &F,
    rules: &Rules,
    item_count: u64,
    records: &PackedList,
    row: &Row,
    fault: Note,
) -> Result<bool, AllocError>
    requires items { HasItemCount item_count }
    ensures { IfOk result (λ ends. ends ≡ true → EndsAttempt (F.function function.now) rules.now item_count records.now row.now fault) }
{
    // Each row that a run leaves is sound.
    if !row.sound() || row.block(item_count).hi <= fault.number {
        return Ok(false);
    }
    match skips_before(alloc, function, rules, records, row, fault.number)? {
        Some(skips) => Ok(matches!(choice_at(rules, row, fault.class, skips), Choice::Fail)),
        None => Ok(false),
    }
}

/// The fault that was noted, if it is one of a record of this row that isn't committed, and ended the last attempt.
fn fault_in<F: StepFunction>(
    alloc: Global,
    function: &F,
    rules: &Rules,
    item_count: u64,
    records: &PackedList,
    row: &Row,
    noted: Option<Note>,
) -> Result<Option<Note>, AllocError>
    requires items { HasItemCount item_count }
    ensures { IfOk result (λ fault. IfSome fault (IsFaultIn (F.function function.now) rules.now item_count records.now row.now)) }
{
    let Some(Note { number, class }) = noted else {
        return Ok(None);
    };
    if number < row.at || row.hi <= number {
        return Ok(None);
    }
    let record = record_of(records, 0, number);
    let Some(class) = fault_of(alloc, function, record, class)? else {
        return Ok(None);
    };
    let fault = Note { number, class };
    if ends_attempt(alloc, function, rules, item_count, records, row, fault)? {
        Ok(Some(fault))
    } else {
        Ok(None)
    }
}

/// The failed ones of these partitions, the first of which has the number `partition`.
fn failures_from<F: StepFunction>(
    alloc: Global,
    function: &F,
    rules: &Rules,
    item_count: u64,
    records: &PackedList,
    partition: u32,
    rows: &[Row],
    artifacts: &[(u32, RecordsArtifacts<F>)],
) -> Result<Vec<FailedPartition>, AllocError>
    requires items { HasItemCount item_count }
    requires few { partition + length rows.now < 2 ^ 32 }
    ensures { IfOk result (λ failures. Pairwise (IsFailure (F.function function.now) rules.now item_count records.now)
        (filter (λ n. is_failed n.1.state) (enumerate_from partition rows.now)) failures.items) }
{
    let Some((row, others)) = rows.split_first() else {
        return Ok(Vec::new(alloc));
    };
    let mut failures = failures_from(
        alloc,
        function,
        rules,
        item_count,
        records,
        partition + 1,
        others,
        artifacts,
    )?;
    if row.state.is_failed() {
        let fault = fault_in(
            alloc,
            function,
            rules,
            item_count,
            records,
            row,
            noted_of(artifacts, partition),
        )?;
        failures.insert(0, FailedPartition { partition, fault })?;
    }
    Ok(failures)
}

/// The partitions that failed in a step with these rules and chunks of so many records, each with its fault.
pub(crate) fn failures_of<F: StepFunction>(
    alloc: Global,
    function: &F,
    rules: &Rules,
    item_count: u64,
    records: &PackedList,
    rows: &[Row],
    artifacts: &[(u32, RecordsArtifacts<F>)],
) -> Result<Vec<FailedPartition>, AllocError>
    requires items { HasItemCount item_count }
    requires few { length rows.now < 2 ^ 32 }
    ensures { IfOk result (λ failures. AreFailures (F.function function.now) rules.now item_count records.now rows.now failures.items) }
{
    failures_from(
        alloc, function, rules, item_count, records, 0, rows, artifacts,
    )
}
