//! The faults of a partition's items.

ghost use Rattle.std.specs.Prelude.{◌≡◌, ◌≤◌, ◌<◌, ◌+◌, ◌^◌, ◌++◌, length, map, option_map, option_to_list, IfOk, MatchOption, None, OnOk};
ghost use Rattle.jb_base.specs.Rules.{RulesRecord};
ghost use Rattle.jb_records.specs.Artifacts.{record_of};
ghost use Rattle.jb_records.specs.Following.{FollowsRules};
ghost use Rattle.jb_records.specs.Function.{steady};
ghost use Rattle.jb_records.specs.Skips.{skip_by, skips_between};
ghost use Rattle.jb_slices.specs.Function.{refusal_of};
ghost use Rattle.jb_slice_run.specs.Held.{fault_in, faults_in, new_output_in};
ghost use Rattle.jb_slice_run.specs.NewOutput.{AreNewOutputsOf, CanAllGrow, CanGrow, IsNewOutputOf, IsStopOfPartition, from_of, skipped_before};
ghost use Rattle.jb_slice_run.specs.Rows.{fault_at, faults_at};

use crate::fault::Fault;
use crate::first::first_and_others;
use crate::partition_output::PartitionOutput;
use jb_artifacts::record_of;
use jb_base::{ClassId, PackedList, Rules};
use jb_ready::Note;
use jb_records::{rules_are_kept, stop_of};
use jb_rows::{Outcome, Row as Fields, RowBuilder, RowFunction};
use jb_rules::Row;
use std::alloc::{AllocError, Global};

/// The class of the fault with which this item is refused, if it is refused. The function builds its result in `built`.
fn refusal_of<F: RowFunction>(
    function: &F,
    item: &[u8],
    built: &mut RowBuilder,
) -> Result<Option<ClassId>, AllocError>
    ensures { IfOk result (λ class. class ≡ refusal_of (F.answer function.now) item.now) }
{
    built.clear();
    match function.process(&Fields::of(item), built)? {
        Outcome::Refused(class) => Ok(Some(class)),
        Outcome::Given | Outcome::Filtered => Ok(None),
    }
}

/// Adds the fault of the item with this number, if the item is refused.
fn push_fault<F: RowFunction>(
    function: &F,
    items: &PackedList,
    first: u64,
    number: u64,
    built: &mut RowBuilder,
    faults: &mut Vec<Fault>,
) -> Result<(), AllocError>
    requires within { number < length items.now }
    requires numbers { first + length items.now < 2 ^ 64 }
    ensures { OnOk result (faults_in faults.new.items ≡
        faults_in faults.old.items ++ faults_at first (option_to_list (skip_by number (refusal_of (F.answer function.now) (record_of 0 items.now number))))) }
{
    if let Some(class) = refusal_of(function, record_of(items, 0, number), built)? {
        faults.push(Fault {
            number: first + number,
            class,
        })?;
    }
    Ok(())
}

/// The faults of the items from number `lo` to `hi - 1` of a slice. The slice's first item has the number `first` in the job.
fn faults_between<F: RowFunction>(
    alloc: Global,
    function: &F,
    items: &PackedList,
    first: u64,
    lo: u64,
    hi: u64,
) -> Result<Vec<Fault>, AllocError>
    requires to { hi ≤ length items.now }
    requires numbers { first + length items.now < 2 ^ 64 }
    ensures { IfOk result (λ faults. faults_in faults.items ≡ faults_at first (skips_between (steady (F.answer function.now)) items.now lo hi)) }
{
    let mut built = RowBuilder::new(alloc);
    let mut faults = Vec::new(alloc);
    for index in 0..hi.saturating_sub(lo) {
        push_fault(function, items, first, lo + index, &mut built, &mut faults)?;
    }
    Ok(faults)
}

/// Where a partition was: at the checkpoint of its row, or at its first item if there is no row before.
fn place_before(before: Option<&Row>, row: &Row) -> u64
    ensures { result ≡ from_of (option_map (λ r. r.now) before.entry) row.now }
{
    match before {
        Some(before) => before.at,
        None => row.lo,
    }
}

/// How many items it had skipped there.
fn skips_before(before: Option<&Row>) -> u64
    ensures { result ≡ skipped_before (option_map (λ r. r.now) before.entry) }
{
    match before {
        Some(before) => before.counts.process_skip,
        None => 0,
    }
}

/// The faults that a partition skipped since `before`. If it skipped some, the function is called again on the items between the two checkpoints.
fn new_skips<F: RowFunction>(
    alloc: Global,
    function: &F,
    items: &PackedList,
    first: u64,
    before: Option<&Row>,
    row: &Row,
) -> Result<Vec<Fault>, AllocError>
    requires numbers { first + length items.now < 2 ^ 64 }
    ensures { (rules : RulesRecord) → CanGrow (F.answer function.now) rules items.now (option_map (λ r. r.now) before.entry) row.now
        → IfOk result (λ faults. faults_in faults.items ≡ faults_at first (skips_between (steady (F.answer function.now)) items.now (from_of (option_map (λ r. r.now) before.entry) row.now) row.now.at)) }
{
    if row.counts.process_skip == skips_before(before) {
        return Ok(Vec::new(alloc));
    }
    let to = row.at.min(items.len() as u64);
    faults_between(alloc, function, items, first, place_before(before, row), to)
}

/// A record's fault by the number of its item in the job. `None` if there is no such record.
fn fault_of(note: Option<Note>, first: u64, items: &PackedList) -> Option<Fault>
    requires numbers { first + length items.now < 2 ^ 64 }
    ensures { MatchOption note (option_map fault_in result ≡ None) (λ n. n.number < length items.now → option_map fault_in result ≡ option_map (fault_at first) note) }
{
    match note {
        Some(note) if note.number < items.len() as u64 => Some(Fault {
            number: first + note.number,
            class: note.class,
        }),
        _ => None,
    }
}

/// The fault by which a partition failed, if it failed. The function is called again on the items from its checkpoint up to the failed one.
fn stop_in<F: RowFunction>(
    alloc: Global,
    function: &F,
    rules: &Rules,
    items: &PackedList,
    first: u64,
    row: &Row,
) -> Result<Option<Fault>, AllocError>
    requires numbers { first + length items.now < 2 ^ 64 }
    ensures { FollowsRules (steady (F.answer function.now)) rules.now items.now row.now → row.now.hi ≤ length items.now
        → IfOk result (λ stop. IsStopOfPartition (F.answer function.now) rules.now first items.now row.now (option_map fault_in stop)) }
{
    if !row.state.is_failed() {
        return Ok(None);
    }
    rules_are_kept();
    let note = stop_of(alloc, function, rules, items, row)?;
    Ok(fault_of(note, first, items))
}

/// What is new of a partition since `before`, or since its start if there is no `before`. It is these results, the faults that it skipped since
/// then, and the fault by which it failed.
pub(crate) fn new_output_of<F: RowFunction>(
    alloc: Global,
    function: &F,
    rules: &Rules,
    items: &PackedList,
    first: u64,
    before: Option<&Row>,
    row: &Row,
    results: PackedList,
) -> Result<PartitionOutput, AllocError>
    requires numbers { first + length items.now < 2 ^ 64 }
    ensures { CanGrow (F.answer function.now) rules.now items.now (option_map (λ r. r.now) before.entry) row.now
        → IfOk result (λ new_output. IsNewOutputOf (F.answer function.now) rules.now first items.now (option_map (λ r. r.now) before.entry) row.now results (new_output_in new_output)) }
{
    let skips = new_skips(alloc, function, items, first, before, row)?;
    let stop = stop_in(alloc, function, rules, items, first, row)?;
    Ok(PartitionOutput {
        results,
        skips,
        stop,
    })
}

/// What is new of each partition since the rows `before`, or since its start if these are empty.
pub(crate) fn all_new_output<F: RowFunction>(
    alloc: Global,
    function: &F,
    rules: &Rules,
    items: &PackedList,
    first: u64,
    before: &[Row],
    rows: &[Row],
    results: Vec<PackedList>,
) -> Result<Vec<PartitionOutput>, AllocError>
    requires numbers { first + length items.now < 2 ^ 64 }
    ensures { length results.items ≡ length rows.now → CanAllGrow (F.answer function.now) rules.now items.now before.now rows.now
        → IfOk result (λ new_output. AreNewOutputsOf (F.answer function.now) rules.now first items.now before.now rows.now results.items (map new_output_in new_output.items)) }
{
    let mut all = Vec::new(alloc);
    let mut before = before;
    let mut rows = rows;
    'results: for one in results {
        let (earlier, before_others) = first_and_others(before);
        let (first_row, others) = first_and_others(rows);
        let Some(row) = first_row else {
            return Ok(all);
        };
        all.push(new_output_of(alloc, function, rules, items, first, earlier, row, one)?)?;
        before = before_others;
        rows = others;
    }
    Ok(all)
}
