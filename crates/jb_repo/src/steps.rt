//! What an event of a partition changes in its row.

ghost use Rattle.std.specs.Prelude.{◌≡◌, ◌+◌, ◌<◌, ◌≤◌};
ghost use Rattle.jb_base.specs.Limits.{max_in_place, max_item_count, max_rollbacks};
ghost use Rattle.jb_rules.specs.Rows.{dropped_row, failed_row, repeated_row, rolled_row, row_block};
ghost use Rattle.jb_rules.specs.Sound.{IsSoundRow};
ghost use Rattle.jb_repo.specs.inside.Steps.{CanStep};
ghost use Rattle.jb_repo.specs.Laws.{next_row};
ghost use Rattle.jb_repo.specs.Table.{is_commit_of};

use crate::events::Event;
use crate::laws::lower_laws;
use jb_rules::{Counts, Row, RowState};

/// Whether the delta and the number written are those of a commit of the row's next chunk.
pub fn is_commit(row: Row, delta: Counts, written: u64, item_count: u64) -> bool
    requires sound { IsSoundRow row }
    requires some_items { 1 ≤ item_count }
    requires items { item_count ≤ max_item_count }
    ensures { result ≡ is_commit_of item_count row delta written }
{
    let block = row.block(item_count);
    delta.is_delta(block.hi - block.lo)
        && u128::from(written) == u128::from(row.written) + u128::from(delta.write)
}

/// One more event of the row's partition.
pub fn step(row: &mut Row, event: Event, item_count: u64)
    requires can { CanStep item_count row.old event }
    requires some_items { 1 ≤ item_count }
    requires items { item_count ≤ max_item_count }
    ensures { row.new ≡ next_row item_count row.old event }
{
    lower_laws();
    match event {
        Event::Begin(lane, _) => row.state = RowState::Running(lane),
        Event::Commit(_, delta, _, again) => {
            let at = row.block(item_count).hi;
            row.repeat(u64::from(again));
            row.commit(at, &delta.counts());
        }
        Event::Roll(_, _, again) => *row = rolled_back(row, u64::from(again), item_count),
        Event::Fail(_, _, again) => *row = failed(row, u64::from(again)),
        Event::Drop(_) => row.state = RowState::Waiting,
        Event::Plan(_, _) | Event::Round | Event::Stop => {}
    }
}

/// The row after its chunk was rolled back, to be done again, after so many repeats in place.
fn rolled_back(row: &Row, again: u64, item_count: u64) -> Row
    requires sound { IsSoundRow row.now }
    requires unfinished { row.now.at < row.now.hi }
    requires room { row.now.counts.rollback < max_rollbacks }
    requires few_repeats { row.now.in_place + again ≤ max_in_place }
    requires some_items { 1 ≤ item_count }
    requires items { item_count ≤ max_item_count }
    ensures { result ≡ dropped_row (rolled_row (repeated_row row.now again) (row_block item_count row.now).hi) }
{
    let end = row.block(item_count).hi;
    row.repeated(again).rolled(end).dropped()
}

/// The row after its chunk failed, after so many repeats in place.
fn failed(row: &Row, again: u64) -> Row
    requires sound { IsSoundRow row.now }
    requires unfinished { row.now.at < row.now.hi }
    requires room { row.now.counts.rollback < max_rollbacks }
    requires few_repeats { row.now.in_place + again ≤ max_in_place }
    ensures { result ≡ failed_row (repeated_row row.now again) }
{
    row.repeated(again).failed()
}
