//! The worked lists of events, computed; as many partitions and events as there may be; and memory that is refused.

ghost use Rattle.std.specs.Prelude.{◌≡◌, ◌∷◌, [], Some, None};
ghost use Rattle.jb_rules.specs.Counts.{no_counts};
ghost use Rattle.jb_base.specs.declared.class.ClassId.{ClassId};
ghost use Rattle.jb_repo.specs.Deltas.{delta_of};
ghost use Rattle.jb_repo.specs.Rows.{total_counts};
ghost use Rattle.jb_repo.specs.Table.{rows_of, own_events, failure};
ghost use Rattle.jb_repo.specs.Worked.{table_answers, journal_after};
ghost use Rattle.jb_repo.specs.Worked.{fresh, two_partitions, two_records, walk, answered, finished, four_records, rollback, given_up, one_record, tries, tried_out, at_limit};
ghost use Rattle.jb_repo.specs.Worked.{EndedPlans, skipped_writes, one_failed};
ghost use Rattle.jb_tests.specs.RefusedEvents.{refused_events, answers};

use jb_base::{ClassId, Range};
use jb_cert::Certificate;
use jb_repo::*;
use jb_rules::{Row, RowState};
use std::alloc::{AllocError, Global};
use std::process::Abort;

/// The definitions, computed on the worked lists of events.
fn worked_lists()
    ensures in_order { table_answers two_partitions (walk 0 1) ≡ answered }
    ensures other_order { table_answers two_partitions (walk 1 0) ≡ answered }
    ensures rows { rows_of (journal_after two_partitions (walk 0 1)) ≡ finished 0 2 ∷ finished 2 4 ∷ [] }
    ensures same_rows { rows_of (journal_after two_partitions (walk 1 0)) ≡ finished 0 2 ∷ finished 2 4 ∷ [] }
    ensures totals { total_counts (finished 0 2 ∷ finished 2 4 ∷ []) ≡ record { read = 4; write = 4; commit = 2; rollback = 0; read_skip = 0; process_skip = 0; filter = 0; write_skip = 0 } }
    ensures rolled_back { (class : ClassId) → table_answers four_records (rollback class) ≡ None ∷ None ∷ None ∷ Some Refused.LaneBusy ∷ None ∷ Some Refused.PastPlan ∷ Some Refused.BadPlan ∷ None ∷ [] }
    ensures given_up { rows_of (journal_after two_partitions given_up) ≡ finished 0 2 ∷ fresh 2 4 ∷ [] }
    ensures tries { (class : ClassId) → table_answers one_record (tries class) ≡ None ∷ None ∷ None ∷ None ∷ None ∷ None ∷ None ∷ None ∷ None ∷ None ∷ None ∷ None ∷ Some Refused.NotIdle ∷ None ∷ [] }
    ensures failed { (class : ClassId) → rows_of (journal_after one_record (tries class)) ≡ tried_out ∷ [] }
    ensures at_limit { table_answers at_limit (Event.Plan 1 (Certificate.Longest 0) ∷ Event.Begin 0 0 ∷ []) ≡ None ∷ Some Refused.Full ∷ [] }
    ensures ended_plans { EndedPlans }
    ensures skipped_writes { table_answers two_partitions skipped_writes ≡ None ∷ None ∷ Some Refused.BadDelta ∷ Some Refused.BadDelta ∷ Some Refused.BadDelta ∷ None ∷ [] }
{}

/// The same of each event with each of its refusals, and the rows after them. The first partition is finished and the second has failed,
/// each after as many repeats as there may be.
fn worked_refusals()
    ensures answers { (class : ClassId) → table_answers two_partitions (refused_events class) ≡ answers class }
    ensures rows { (class : ClassId) → rows_of (journal_after two_partitions (refused_events class)) ≡
        record (finished 0 2) { retries = 100000; in_place = 100000 }
        ∷ record (fresh 2 4) { retries = 100000; counts = record no_counts { rollback = 1 }; in_place = 100000; state = RowState.Failed } ∷ [] }
    ensures first { (class : ClassId) → failure (journal_after two_partitions (refused_events class)) 0 ≡ None }
    ensures second { (class : ClassId) → failure (journal_after two_partitions (refused_events class)) 1 ≡ Some class }
{}

/// The same of repeats in place: as many as an attempt makes, and one more. A row has room for those of one more chunk, another has too
/// many before. And a row has room for one more rollback.
fn worked_repeats()
    ensures few { (class : ClassId) → table_answers two_partitions (Event.Plan 1 (Certificate.Longest 0) ∷ Event.Begin 0 0 ∷ Event.Begin 1 1 ∷ Event.Commit 0 (delta_of two_records) 2 100000 ∷ Event.Roll 1 class 100000 ∷ []) ≡ None ∷ None ∷ None ∷ None ∷ None ∷ [] }
    ensures many { (class : ClassId) → table_answers two_partitions (Event.Plan 1 (Certificate.Longest 0) ∷ Event.Begin 0 0 ∷ Event.Commit 0 (delta_of two_records) 2 100001 ∷ Event.Roll 0 class 100001 ∷ Event.Fail 0 class 100001 ∷ []) ≡ None ∷ None ∷ Some Refused.BadDelta ∷ Some Refused.BadDelta ∷ Some Refused.BadDelta ∷ [] }
    ensures room { let repeated = record one_record { opening = record (fresh 0 1) { retries = 999999900000; in_place = 999999900000 } ∷ [] } in
        table_answers repeated (Event.Plan 1 (Certificate.Longest 0) ∷ Event.Begin 0 0 ∷ []) ≡ None ∷ None ∷ [] }
    ensures no_room { let repeated = record one_record { opening = record (fresh 0 1) { retries = 999999900001; in_place = 999999900001 } ∷ [] } in
        table_answers repeated (Event.Plan 1 (Certificate.Longest 0) ∷ Event.Begin 0 0 ∷ []) ≡ None ∷ Some Refused.Full ∷ [] }
    ensures below_limit { let below = record one_record { opening = record (fresh 0 1) { counts = record no_counts { rollback = 999999999999 } } ∷ [] } in
        table_answers below (Event.Plan 1 (Certificate.Longest 0) ∷ Event.Begin 0 0 ∷ []) ≡ None ∷ None ∷ [] }
    ensures most { (class : ClassId) → let repeated = record one_record { opening = record (fresh 0 1) { retries = 999999900000; in_place = 999999900000 } ∷ [] } in
        rows_of (journal_after repeated (Event.Plan 1 (Certificate.Longest 0) ∷ Event.Begin 0 0 ∷ Event.Roll 0 class 100000 ∷ [])) ≡ record (fresh 0 1) { redo = 1; retries = 1000000000001; counts = record no_counts { rollback = 1 }; in_place = 1000000000000 } ∷ [] }
    ensures counted { (class : ClassId) → rows_of (journal_after one_record (Event.Plan 1 (Certificate.Longest 0) ∷ Event.Begin 0 0 ∷ Event.Roll 0 class 3 ∷ [])) ≡ record (fresh 0 1) { redo = 1; retries = 4; counts = record no_counts { rollback = 1 }; in_place = 3 } ∷ [] }
{}

/// The numbers of own events, computed on a worked list of events.
fn worked_own_events()
    ensures first { own_events (journal_after two_partitions (walk 0 1)) 0 ≡ 2 }
    ensures second { own_events (journal_after two_partitions (walk 0 1)) 1 ≡ 2 }
    ensures none { own_events (journal_after two_partitions (walk 0 1)) 2 ≡ 0 }
{}

/// By which class a partition failed, computed on the same list and on one with a rollback and a failure.
fn worked_failures()
    ensures done { failure (journal_after two_partitions (walk 0 1)) 0 ≡ None }
    ensures failed { (class other : ClassId) → failure (journal_after two_partitions (one_failed other class)) 1 ≡ Some class }
    ensures rolled { (class other : ClassId) → failure (journal_after two_partitions (one_failed other class)) 0 ≡ None }
    ensures none { (class other : ClassId) → failure (journal_after two_partitions (one_failed other class)) 2 ≡ None }
{}

#[test]
fn definitions(_rt: HostRuntime) {
    worked_lists();
    worked_refusals();
    worked_repeats();
    worked_own_events();
    worked_failures();
}

/// What a chunk of one written record adds.
const ONE_RECORD: Delta = Delta {
    read: 1,
    write: 1,
    commit: 1,
    rollback: 0,
    read_skip: 0,
    process_skip: 0,
    filter: 0,
    write_skip: 0,
};

const TWO_RECORDS: Delta = Delta {
    read: 2,
    write: 2,
    ..ONE_RECORD
};

/// Fresh rows of these ranges.
pub(crate) fn rows_of(alloc: Global, ranges: &[(u64, u64)]) -> Result<Vec<Row>, AllocError> {
    let mut rows = Vec::new(alloc);
    for (lo, hi) in ranges {
        rows.push(Row::fresh(Range { lo: *lo, hi: *hi }))?;
    }
    Ok(rows)
}

/// As many fresh rows as a repository has, of one record each.
pub(crate) fn most_rows(alloc: Global) -> Result<Vec<Row>, AllocError> {
    let mut rows = Vec::new(alloc);
    for lo in 0..1_024 {
        rows.push(Row::fresh(Range { lo, hi: lo + 1 }))?;
    }
    Ok(rows)
}

/// A repository of these rows.
pub(crate) fn opened(rt: &impl Abort, rows: Vec<Row>, threads: u32, item_count: u64) -> Repo {
    assert!(rt; can_open(rows.as_slice(), threads, item_count));
    Repo::new(rows, threads, item_count)
}

/// Two partitions of two records each, two threads, chunks of two items.
fn two_partitions(rt: &impl Abort, alloc: Global) -> Result<Repo, AllocError> {
    Ok(opened(rt, rows_of(alloc, &[(0, 2), (2, 4)])?, 2, 2))
}

/// A round in which each of 64 lanes runs a partition of one record, of those from `first` on.
fn run_round(rt: &impl Abort, repo: &mut Repo, first: u32) {
    for lane in 0..64u32 {
        let partition = lane.saturating_add(first);
        assert!(rt; repo.apply(Event::Begin(lane, partition)).is_ok());
    }
    assert!(rt; repo.apply(Event::Begin(64, 0)) == Err(Refused::LaneRange));
    assert!(rt; repo.apply(Event::Begin(0, 1_024)) == Err(Refused::NoPartition));
    for lane in 0..64 {
        assert!(rt; repo.apply(Event::Commit(lane, ONE_RECORD, 1, 0)).is_ok());
    }
    assert!(rt; repo.apply(Event::Round).is_ok());
}

#[test]
fn many_partitions_and_threads(rt: HostRuntime) -> Result<(), AllocError> {
    let mut repo = opened(&rt, most_rows(rt.alloc())?, 64, 1);
    assert!(rt; repo.apply(Event::Plan(15, Certificate::FullLoad)) == Err(Refused::BadPlan));
    assert!(rt; repo.apply(Event::Plan(16, Certificate::FullLoad)).is_ok());
    for round in 0..16u32 {
        run_round(&rt, &mut repo, round.saturating_mul(64));
    }
    assert!(rt; repo.totals().commit == 1_024);
    assert!(rt; repo.apply(Event::Plan(0, Certificate::Nothing)).is_ok());
    Ok(())
}

/// How many of the answers are this one.
fn count_of(answers: &[Option<Refused>], wanted: Option<Refused>) -> usize {
    let mut count = 0usize;
    for answer in answers {
        if *answer == wanted {
            count = count.saturating_add(1);
        }
    }
    count
}

/// Runs so many events, and says whether all were accepted.
fn accepts(repo: &mut Repo, events: &[Event], count: usize) -> Result<bool, AllocError> {
    let answers = run_events(repo, events)?;
    Ok(answers.len() == count && count_of(&answers, None) == count)
}

/// Of a partition of 10,000 chunks, the events from its Plan to its end.
fn ten_thousand_chunks(alloc: Global) -> Result<Vec<Event>, AllocError> {
    let mut events = Vec::new(alloc);
    events.push(Event::Plan(10_000, Certificate::Longest(0)))?;
    for written in 1..10_001 {
        events.push(Event::Begin(0, 0))?;
        events.push(Event::Commit(0, ONE_RECORD, written, 0))?;
        events.push(Event::Round)?;
    }
    Ok(events)
}

/// A partition of 10,000 chunks, from its Plan to its end, as one list of events.
#[test]
fn a_list_of_30_001_events(rt: HostRuntime) -> Result<(), AllocError> {
    let mut repo = opened(&rt, rows_of(rt.alloc(), &[(0, 10_000)])?, 1, 1);
    let events = ten_thousand_chunks(rt.alloc())?;
    assert!(rt; accepts(&mut repo, &events, 30_001)?);
    assert!(rt; repo.totals().commit == 10_000);
    Ok(())
}

/// Ranges of rows, and whether a repository may be opened with them.
const RANGES: [(&[(u64, u64)], bool); 6] = [
    (&[(0, 2), (2, 4)], true),
    (&[(2, 4), (0, 2), (3, 3)], true),
    (&[(0, 3), (2, 4)], false),
    (&[(0, 2), (7, 9), (1, 2)], false),
    (&[], false),
    (&[(0, 10_000_001)], false),
];

/// Threads and an item count, and whether a repository may be opened with them.
const SIZES: [(u32, u64, bool); 5] = [
    (64, 1_000_000, true),
    (0, 2, false),
    (65, 2, false),
    (1, 0, false),
    (1, 1_000_001, false),
];

#[test]
fn what_a_repository_is_opened_with(rt: HostRuntime) -> Result<(), AllocError> {
    for (ranges, want) in RANGES {
        let rows = rows_of(rt.alloc(), ranges)?;
        assert!(rt; can_open(&rows, 2, 2) == want, "{ranges:?}");
    }
    let row = Row::fresh(Range { lo: 0, hi: 2 });
    for (threads, item_count, want) in SIZES {
        assert!(rt; can_open(&[row], threads, item_count) == want);
    }
    let state = RowState::Running(0);
    assert!(rt; !can_open(&[Row { state, ..row }], 1, 1));
    let many = vec![in rt.alloc(); Row::fresh(Range { lo: 0, hi: 0 }); 1_025]?;
    assert!(rt; !can_open(&many, 1, 1) && can_open(&many[1..], 1, 1));
    Ok(())
}

/// Applies an event that fits. If its memory is refused nothing changes, and the event is accepted afterwards.
fn apply_lawful(rt: &impl Abort, repo: &mut Repo, event: Event) {
    let events = repo.history().len();
    let totals = repo.totals();
    if let Err(refused) = repo.apply(event) {
        assert!(rt; refused == Refused::Memory);
        assert!(rt; repo.history().len() == events && repo.totals() == totals);
        assert!(rt; repo.apply(event).is_ok());
    }
    assert!(rt; repo.history().len() == events + 1);
}

/// Applies events that fit, one after another.
fn apply_each(rt: &impl Abort, repo: &mut Repo, events: &[Event]) {
    for event in events {
        apply_lawful(rt, repo, *event);
    }
}

/// After an accepted Begin each of the four ends of its chunk is accepted, whichever request for memory is refused: none of them
/// makes one. `tests/refused-memory` refuses each in turn.
#[test]
fn memory_refused_before_each_end(rt: HostRuntime) {
    let class = ClassId::new(0);
    let ends = [
        Event::Commit(0, TWO_RECORDS, 2, 0),
        Event::Roll(0, class, 0),
        Event::Fail(0, class, 0),
        Event::Drop(0),
    ];
    for end in ends {
        let Ok(mut repo) = two_partitions(&rt, rt.alloc()) else {
            return;
        };
        let plan = Event::Plan(1, Certificate::Longest(0));
        apply_each(&rt, &mut repo, &[plan, Event::Begin(0, 0)]);
        assert!(rt; repo.apply(end).is_ok() && repo.history().len() == 3);
    }
}

/// Whether the repository shows six events that wrote two records, the second time if it found no memory before.
fn shows_two_records(repo: &Repo) -> bool {
    match repo.snapshot() {
        Ok(shown) => shown.events == 6 && shown.totals == TWO_RECORDS.counts(),
        Err(_) => repo.snapshot().is_ok(),
    }
}

/// Runs a list of events, and says whether all were accepted but one, a BadDelta. Where there was no memory for the answers nothing
/// was applied, and where there was none for an event its answer says so.
fn accepts_but_one(repo: &mut Repo, events: &[Event]) -> bool {
    let before = repo.history().len();
    match run_events(repo, events) {
        Ok(answers) => {
            let bad = count_of(&answers, Some(Refused::BadDelta));
            let accepted = repo.history().len().saturating_sub(before);
            count_of(&answers, Some(Refused::Memory)) > 0 || (bad == 1 && accepted == 5)
        }
        Err(_) => repo.history().len() == before && run_events(repo, events).is_ok(),
    }
}

/// `tests/refused-memory` runs it also with each of its requests for memory refused in turn.
#[test]
fn memory_refused(rt: HostRuntime) {
    let Ok(mut repo) = two_partitions(&rt, rt.alloc()) else {
        return;
    };
    let one_by_one = [
        Event::Plan(1, Certificate::Longest(0)),
        Event::Begin(0, 0),
        Event::Commit(0, TWO_RECORDS, 2, 0),
        Event::Begin(1, 1),
        Event::Drop(1),
        Event::Round,
    ];
    apply_each(&rt, &mut repo, &one_by_one);
    assert!(rt; shows_two_records(&repo));
    let as_one_list = [
        Event::Plan(1, Certificate::Longest(1)),
        Event::Begin(0, 1),
        Event::Commit(0, TWO_RECORDS, 4, 0),
        Event::Commit(0, TWO_RECORDS, 2, 0),
        Event::Round,
        Event::Stop,
    ];
    assert!(rt; accepts_but_one(&mut repo, &as_one_list));
}

#[test]
fn names_of_refusals(rt: HostRuntime) -> Result<(), AllocError> {
    let all = [
        Refused::Stopping,
        Refused::NoPartition,
        Refused::LaneRange,
        Refused::LaneBusy,
        Refused::NotIdle,
        Refused::NotRunning,
        Refused::BadDelta,
        Refused::StillRunning,
        Refused::PastPlan,
        Refused::BadPlan,
        Refused::Memory,
        Refused::Full,
    ];
    let mut names = String::new(rt.alloc());
    for refused in all {
        names.push_str(format!(in rt.alloc(); "{refused}.")?.as_str())?;
    }
    assert!(rt; names.as_str() == NAMES);
    Ok(())
}

/// The names of all refusals, each with a full stop after it.
const NAMES: &str =
    "Stopping.NoPartition.LaneRange.LaneBusy.NotIdle.NotRunning.BadDelta.StillRunning.PastPlan.BadPlan.no memory.Full.";
