//! Questions about rows, and counts over the table of rows.

ghost use Rattle.std.specs.Prelude.{◌≡◌, ◌+◌, ◌≤◌, ◌<◌, ℕ, false, length, take, slice_get, Some};
ghost use Rattle.jb_base.specs.Limits.{max_item_count, max_rollbacks, max_retry_limit, max_in_place};
ghost use Rattle.jb_rules.specs.Sound.{IsSoundRow};
ghost use Rattle.jb_repo.specs.inside.Fit.{CountsFit};
ghost use Rattle.jb_repo.specs.Rows.{remaining, total_counts};
ghost use Rattle.jb_repo.specs.Table.{is_ended, is_at_limit};

use jb_base::{MAX_IN_PLACE, MAX_RETRY_LIMIT, MAX_ROLLBACKS};
use jb_rules::{Counts, Row};

/// Whether no chunk of the partition is started any more.
pub fn is_ended(row: Option<Row>) -> bool
    ensures { result ≡ is_ended row }
{
    match row {
        Some(row) => row.state.has_ended(),
        None => false,
    }
}

/// Whether the row is at its limits: it has as many rollbacks as it may have, or no room for 100,000 repeats in place. One chunk may
/// make as many. At its limits, no chunk of the row is started or attempted.
pub fn is_at_limit(row: &Row) -> bool
    ensures test { result ≡ is_at_limit (Some row.now) }
    ensures rollbacks { result ≡ false → row.now.counts.rollback < max_rollbacks }
    ensures repeats { result ≡ false → row.now.in_place + max_retry_limit ≤ max_in_place }
{
    row.counts.rollback >= MAX_ROLLBACKS || row.in_place > MAX_IN_PLACE - MAX_RETRY_LIMIT
}

/// Writes how many chunks each row has left.
pub fn remaining_counts(rows: &[Row], item_count: u64, counts: &mut [u64])
    requires sound { (i : ℕ) (r : Row) → slice_get rows.now i ≡ Some r → IsSoundRow r }
    requires room { length rows.now ≤ length counts.old }
    requires some_items { 1 ≤ item_count }
    requires few_items { item_count ≤ max_item_count }
    ensures { take (length rows.now) counts.new ≡ remaining item_count rows.now }
{
    for i in 0..rows.len() {
        counts[i] = rows[i].remaining(item_count);
    }
}

/// The sums of the rows' counts.
pub fn totals(rows: &[Row]) -> Counts
    requires { CountsFit (total_counts rows.now) }
    ensures { result ≡ total_counts rows.now }
{
    let mut totals = Counts::ZERO;
    for row in rows {
        totals.add(&row.counts);
    }
    totals
}
