//! What a repository may be opened with.

ghost use Rattle.std.specs.Prelude.{◌≡◌, ◌↔◌, ◌≤◌, IsTrue, false, length, map, take};
ghost use Rattle.jb_rules.specs.Rows.{range_of};
ghost use Rattle.jb_rules.specs.Sound.{IsSoundRow};
ghost use Rattle.jb_rules.specs.States.{is_running};
ghost use Rattle.jb_repo.specs.Openable.{IsOpenable, AreIdle, opened_journal};
ghost use Rattle.jb_repo.specs.inside.Sized.{IsSized};

use jb_base::{MAX_ITEM_COUNT, MAX_PARTITIONS, MAX_THREADS, Range};
use jb_plan::are_disjoint;
use jb_rules::Row;

/// Whether the row is sound and its partition isn't running.
fn is_idle(row: &Row) -> bool
    ensures { IsTrue result ↔ (IsSoundRow row.now × (is_running row.now.state ≡ false)) }
{
    row.sound() && !row.state.is_running()
}

/// Whether each row is sound and no partition is running.
fn are_idle(rows: &[Row]) -> bool
    ensures { IsTrue result ↔ AreIdle rows.now }
{
    for i in 0..rows.len() {
        if !is_idle(&rows[i]) {
            return false;
        }
    }
    true
}

/// Writes the records of each row's partition.
fn write_ranges(rows: &[Row], ranges: &mut [Range])
    requires { length rows.now ≤ length ranges.old }
    ensures ranges { take (length rows.now) ranges.new ≡ map range_of rows.now }
    ensures length { length ranges.new ≡ length ranges.old }
{
    for i in 0..rows.len() {
        ranges[i] = rows[i].range();
    }
}

fn is_sized(partitions: usize, threads: u32, item_count: u64) -> bool
    ensures { IsTrue result ↔ IsSized partitions threads item_count }
{
    1 <= partitions
        && partitions <= MAX_PARTITIONS
        && 1 <= threads
        && threads <= MAX_THREADS
        && 1 <= item_count
        && item_count <= MAX_ITEM_COUNT
}

/// Whether a repository may be opened with these rows, so many threads and this item count. There may be 1 to 1,024 rows,
/// each sound and none running, and no two of their ranges have a record in common. There may be 1 to 64 threads, and the
/// item count is 1 to 1,000,000.
pub fn can_open(rows: &[Row], threads: u32, item_count: u64) -> bool
    ensures { IsTrue result ↔ IsOpenable (opened_journal rows.now threads item_count) }
{
    if !is_sized(rows.len(), threads, item_count) || !are_idle(rows) {
        return false;
    }
    let mut ranges = [Range { lo: 0, hi: 0 }; MAX_PARTITIONS];
    write_ranges(rows, &mut ranges);
    are_disjoint(&ranges[..rows.len()])
}
