//! What a history says now, stored beside it so that no question walks it.

ghost use Rattle.std.specs.Prelude.{◌≡◌, ℕ, ◌<◌, ◌≤◌, List, ◌∷◌, Option, Some, IfSome, length, slice_get, slice_index_or};
ghost use Rattle.jb_base.specs.Limits.{max_events, max_item_count, max_partitions};
ghost use Rattle.jb_rules.specs.Counts.{SumsFit, plus_counts};
ghost use Rattle.jb_rules.specs.declared.row.Row.{Row};
ghost use Rattle.jb_repo.specs.History.{partition_of};
ghost use Rattle.jb_repo.specs.Openable.{opened_journal};
ghost use Rattle.jb_repo.specs.Rows.{gain, total_counts};
ghost use Rattle.jb_repo.specs.Table.{Journal, after};
ghost use Rattle.jb_repo.specs.inside.Fit.{CountsFit};
ghost use Rattle.jb_repo.specs.inside.Projection.{Shows, ShowOwnEvents, CanEnter};
ghost use Rattle.jb_repo.specs.inside.Steps.{CanStep, stepped_rows};

use crate::events::Event;
use crate::failures::Failures;
use crate::laws::lower_laws;
use crate::marks::Marks;
use crate::owners::Owners;
use crate::plan_progress::PlanProgress;
use crate::steps::step;
use crate::table::totals;
use jb_base::{MAX_PARTITIONS, Range};
use jb_rules::{Counts, Row};

/// What the history says now. Of the partitions: the rows and their totals, how many events are each one's own, and by which
/// class each failed. Besides: how many places are reserved for outcomes, what the lanes run, what was started in this round,
/// and the plans.
#[derive(Drop)]
pub struct Projection {
    pub rows: [Row; MAX_PARTITIONS],
    pub own_events: [u64; MAX_PARTITIONS],
    pub totals: Counts,
    pub reserved: usize,
    pub owners: Owners,
    pub marks: Marks,
    pub plan: PlanProgress,
    pub failures: Failures,
}

impl Projection {
    /// What holds before the first event.
    pub fn new(opening: &[Row]) -> Self
        requires few { length opening.now ≤ max_partitions }
        requires fit { CountsFit (total_counts opening.now) }
        ensures { (threads item_count : ℕ) → Shows (opened_journal opening.now threads item_count) result }
    {
        let mut rows = [Row::fresh(Range { lo: 0, hi: 0 }); MAX_PARTITIONS];
        for i in 0..opening.len() {
            rows[i] = opening[i];
        }
        Projection {
            rows,
            own_events: [0; MAX_PARTITIONS],
            totals: totals(opening),
            reserved: 0,
            owners: Owners::new(),
            marks: Marks::new(),
            plan: PlanProgress::new(),
            failures: Failures::new(),
        }
    }

    /// One more event.
    pub fn note(&mut self, event: Event, item_count: u64)
        requires { (j : Journal) × CanEnter j self.old event item_count }
        ensures { (j : Journal) → CanEnter j self.old event item_count → Shows (after j event) self.new }
    {
        lower_laws();
        let partition = self.owners.partition_of(event);
        step_rows(&mut self.rows, partition, event, item_count);
        count_own(&mut self.own_events, partition);
        add_gain(&mut self.totals, event);
        self.reserved = self.reserved + event.places() - 1;
        self.owners.note(event);
        self.marks.note(event);
        self.plan.note(event);
        self.failures.note(event, partition);
    }
}

/// Steps the row of the partition that the event is about, if it is about one.
fn step_rows(
    rows: &mut [Row; MAX_PARTITIONS],
    partition: Option<u32>,
    event: Event,
    item_count: u64,
)
    requires inside { IfSome partition (λ p. p < max_partitions) }
    requires can { IfSome partition (λ p. (row : Row) → slice_get rows.old p ≡ Some row → CanStep item_count row event) }
    requires some_items { 1 ≤ item_count }
    requires items { item_count ≤ max_item_count }
    ensures steps { (d : Row) → rows.new ≡ stepped_rows item_count rows.old partition event d }
    ensures width { length rows.new ≡ length rows.old }
{
    if let Some(partition) = partition {
        let index = partition as usize;
        step(&mut rows[index], event, item_count);
    }
}

/// Counts one more event of the partition that it is about, if it is about one.
fn count_own(counts: &mut [u64; MAX_PARTITIONS], partition: Option<u32>)
    requires inside { IfSome partition (λ p. p < max_partitions) }
    requires few { (p d : ℕ) → p < max_partitions → slice_index_or counts.old p d < max_events }
    ensures { (past : List Event) (e : Event) → partition_of e past ≡ partition → ShowOwnEvents counts.old past → ShowOwnEvents counts.new (e ∷ past) }
{
    if let Some(partition) = partition {
        counts[partition as usize] += 1;
    }
}

/// Adds what the event gains to the totals.
fn add_gain(totals: &mut Counts, event: Event)
    requires { SumsFit totals.old (gain event) }
    ensures { totals.new ≡ plus_counts totals.old (gain event) }
{
    match event {
        Event::Commit(_, delta, _, _) => totals.add(&delta.counts()),
        Event::Roll(_, _, _) | Event::Fail(_, _, _) => totals.rollback += 1,
        Event::Begin(_, _) | Event::Drop(_) | Event::Plan(_, _) | Event::Round | Event::Stop => {}
    }
}
