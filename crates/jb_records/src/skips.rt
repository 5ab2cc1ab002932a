//! Which records were skipped.

ghost use Rattle.std.specs.Prelude.{◌≡◌, ◌++◌, IfOk, OnOk, option_to_list};
ghost use Rattle.jb_records.specs.Artifacts.{record_of};
ghost use Rattle.jb_records.specs.Function.{refusal_of};
ghost use Rattle.jb_records.specs.Skips.{skip_by, skipped_of, skips_between};

use crate::refusals::refusal_of;
use crate::step_function::StepFunction;
use jb_artifacts::record_of;
use jb_base::PackedList;
use jb_ready::Note;
use jb_rows::RowBuilder;
use jb_rules::Row;
use std::alloc::{AllocError, Global};

/// Adds the record of this number to the others, if it is refused.
fn push_skip<F: StepFunction>(
    function: &F,
    records: &PackedList,
    number: u64,
    built: &mut RowBuilder,
    skips: &mut Vec<Note>,
) -> Result<(), AllocError>
    ensures { OnOk result (skips.new.items ≡
        skips.old.items ++ option_to_list (skip_by number (refusal_of (F.function function.now) (record_of 0 records.now number)))) }
{
    if let Some(class) = refusal_of(function, record_of(records, 0, number), built)? {
        skips.push(Note { number, class })?;
    }
    Ok(())
}

/// Adds to the others the records from number `lo` to `hi - 1` that are refused.
fn push_skips<F: StepFunction>(
    function: &F,
    records: &PackedList,
    lo: u64,
    hi: u64,
    built: &mut RowBuilder,
    skips: &mut Vec<Note>,
) -> Result<(), AllocError>
    ensures { OnOk result (skips.new.items ≡ skips.old.items ++ skips_between (F.function function.now) records.now lo hi) }
{
    let count = hi.saturating_sub(lo);
    for index in 0..count {
        push_skip(function, records, lo + index, built, skips)?;
    }
    Ok(())
}

/// The records before the checkpoints of these rows that are refused: those that were skipped.
pub(crate) fn skipped_of<F: StepFunction>(
    alloc: Global,
    function: &F,
    records: &PackedList,
    rows: &[Row],
) -> Result<Vec<Note>, AllocError>
    ensures { IfOk result (λ skips. skips.items ≡ skipped_of (F.function function.now) records.now rows.now) }
{
    let mut built = RowBuilder::new(alloc);
    let mut skips = Vec::new(alloc);
    for row in rows {
        push_skips(function, records, row.lo, row.at, &mut built, &mut skips)?;
    }
    Ok(skips)
}
