//! Saved rows as a step resumes from them.

ghost use Rattle.std.specs.Prelude.{◌≡◌, [], map, slice_get, OnOk, IfOk, IfErr};
ghost use Rattle.jb_saved.specs.GoingOn.{restarted, ends_past, step_faults, rows_restarted, AreUnfailed, Refuses};
ghost use Rattle.jb_saved.specs.SavedRows.{IsSaved};

use crate::error::SavedError;
use crate::place::SavedPlace;
use crate::saved::SavedRows;
use jb_rules::{Row, RowState, rows_stay_sound, unfinished_rows_go_on};
use std::alloc::{AllocError, Global};

/// A failed partition waits again. Any other is as it was saved.
fn restarted(row: &Row) -> Row
    ensures { result ≡ restarted row.now }
{
    if row.state.is_failed() {
        Row {
            state: RowState::Waiting,
            ..*row
        }
    } else {
        *row
    }
}

fn all_restarted(alloc: Global, rows: &[Row]) -> Result<Vec<Row>, AllocError>
    ensures { IfOk result (λ v. v.items ≡ map restarted rows.now) }
{
    rows.iter().map(restarted).collect(alloc)
}

/// Whether some row ends past the last record.
fn is_past(records: u64, rows: &[Row]) -> bool
    ensures { result ≡ ends_past records rows.now }
{
    rows.iter().any(|row| records < row.hi)
}

/// The first fault of saved rows for a step of this id and so many records.
fn refusal(step_id: &str, records: u64, saved: &SavedRows) -> Option<SavedPlace>
    ensures { result ≡ slice_get (step_faults step_id.now records saved.now) 0 }
{
    if saved.step_id() != step_id {
        Some(SavedPlace::Step)
    } else if is_past(records, saved.rows()) {
        Some(SavedPlace::Records)
    } else {
        None
    }
}

/// The rows with which a step of this id and so many records resumes from saved rows. The failed ones wait again (Jakarta
/// Batch 2.1, "Restart Processing"). The others are as they were.
///
/// # Errors
/// `Refused` with the first of: `Step`, if the rows are another step's; `Records`, if one ends past the last record.
/// `Memory`, only if neither holds.
pub fn rows_to_go_on(
    alloc: Global,
    step_id: &str,
    records: u64,
    saved: &SavedRows,
) -> Result<Vec<Row>, SavedError>
    ensures accepted { OnOk result (step_faults step_id.now records saved.now ≡ []) }
    ensures refused { IfErr result (λ e. Refuses e (step_faults step_id.now records saved.now)) }
    ensures rows { IfOk result (λ rows. rows.items ≡ rows_restarted saved.now) }
    ensures kept { IfOk result (λ rows. IsSaved (record { step = saved.now.step; rows = rows.items })) }
    ensures unfailed { IfOk result (λ rows. AreUnfailed rows.items) }
{
    rows_stay_sound();
    unfinished_rows_go_on();
    if let Some(place) = refusal(step_id, records, saved) {
        return Err(SavedError::Refused(place));
    }
    let rows = all_restarted(alloc, saved.rows())?;
    Ok(rows)
}
