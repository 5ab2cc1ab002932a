//! Steps at whose table one thread looks while another asks for a stop.

ghost use Rattle.std.specs.Prelude.{◌≡◌};
ghost use Rattle.jb_base.specs.Limits.{max_parts};

use crate::lines::{assert_text, number};
use crate::step::beginning::begun;
use crate::step::between::Between;
use crate::step::given::{GivenArtifacts, Letters};
use crate::step::lacking::Lacking;
use crate::step::rows::SEVEN;
use crate::step::ways::run_in;
use crate::way::{BOTH_WAYS, Way};
use jb_base::MAX_PARTS;
use jb_collect::{ListAnalyzer, Status};
use jb_step::{Prepared, StepEnd, StepError};
use jb_workers::{Desk, Gate};
use std::alloc::Global;
use std::marker::Brand;
use std::sync::Wait;
use std::sync::atomic::{AtomicBool, AtomicU64, Ordering};
use std::sync::ledger::{Blank, Ledger};
use std::test::*;
use std::thread;
use std::thread::{Scope, Threads};
use std::time::{Clock, Duration};

/// Steps of seven records, those of `SEVEN`, and the number of commits from which on a stop is requested.
const LINES: &str = "records=abc/de/fg/ threads=1 commits=0
records=abc/de/fg/ threads=1 commits=1
records=abc/de/fg/ threads=1 commits=2
records=abc/de/fg/ threads=2 commits=0
records=abc/de/fg/ threads=2 commits=2
records=abc/de/fg/ threads=3 commits=1
records=abc/de/fg/ threads=4 commits=0
";

/// Where both lookers say that a look is over.
#[derive(Drop)]
struct Looks {
    watcher: AtomicU64,
    asker: AtomicU64,
    is_over: AtomicBool,
}

impl Looks {
    fn new() -> Looks {
        Looks {
            watcher: AtomicU64::new(0),
            asker: AtomicU64::new(0),
            is_over: AtomicBool::new(false),
        }
    }
}

/// Holds each lane before and after its attempt until both lookers have taken a whole look at the table.
#[derive(Drop)]
struct Held<'a, R> {
    rt: R,
    looks: &'a Looks,
}

impl<R: Clock> Held<'_, R> {
    /// Waits until two more looks are over, of which the second began after this call; 10,000 turns of a millisecond at most.
    fn wait_for(&self, looks: &AtomicU64) {
        let enough = looks.load(Ordering::SeqCst).saturating_add(2);
        for _ in 0..10_000 {
            if enough <= looks.load(Ordering::SeqCst) {
                return;
            }
            thread::sleep(&self.rt, Duration::from_millis(1));
        }
    }

    fn wait_for_both(&self) {
        self.wait_for(&self.looks.watcher);
        self.wait_for(&self.looks.asker);
    }
}

impl<R: Clock + Sync> Gate for Held<'_, R> {
    fn arrive(&self, _lane: u32, _round: u64) {
        self.wait_for_both();
    }

    fn leave(&self, _lane: u32, _round: u64) {
        self.wait_for_both();
    }
}

/// Looks at the table until it was read after the step was over, and answers how often it saw more commits than before. `None` if it had
/// fewer commits than before.
fn watch<L: Ledger, R: Wait>(rt: &R, desk: &Desk<L>, looks: &Looks) -> Option<u64> {
    let mut commits = desk.status(rt).ok()?.totals.commit;
    let mut rises = 0u64;
    for _ in 0..10_000_000 {
        let is_last = looks.is_over.load(Ordering::SeqCst);
        if let Ok(snapshot) = desk.status(rt) {
            if snapshot.totals.commit < commits {
                return None;
            }
            if commits < snapshot.totals.commit {
                rises = rises.saturating_add(1);
            }
            commits = snapshot.totals.commit;
            if is_last {
                return Some(rises);
            }
        }
        looks.watcher.fetch_add(1, Ordering::SeqCst);
    }
    None
}

/// Asks for a stop, if there are so many commits.
fn ask_once<L: Ledger, R: Wait>(rt: &R, desk: &Desk<L>, commits: u64) {
    if let Ok(snapshot) = desk.status(rt) {
        if commits <= snapshot.totals.commit {
            desk.request_stop();
        }
    }
}

/// From this number of commits on asks for a stop, until the step is over.
fn ask<L: Ledger, R: Wait>(rt: &R, desk: &Desk<L>, looks: &Looks, commits: u64) {
    for _ in 0..10_000_000 {
        if looks.is_over.load(Ordering::SeqCst) {
            return;
        }
        ask_once(rt, desk, commits);
        looks.asker.fetch_add(1, Ordering::SeqCst);
    }
}

/// Runs the step while one thread looks at its table and another asks for a stop. Answers its end, and how often more commits were seen, if
/// all was well with the table. The first request for a stop is before the step runs, so that a step with so many commits is stopped.
fn run_between<
    's,
    E,
    L: Ledger + Send + Sync + 'static,
    R: Threads + Wait + Clock + Copy + Sync + 's,
>(
    scope: &Scope<'s, E>,
    rt: &'s R,
    alloc: Global,
    desk: &'s Desk<L>,
    looks: &'s Looks,
    prepared: Prepared,
    mut reducer: Lacking,
    artifacts: Vec<GivenArtifacts>,
    way: Way,
    commits: u64,
) -> (Result<StepEnd<GivenArtifacts>, StepError>, Option<u64>) {
    let mut analyzer = ListAnalyzer::new(alloc, None);
    ask_once(rt, desk, commits);
    let watcher = scope.spawn(move || watch(&*rt, &*desk, &*looks));
    let asker = scope.spawn(move || ask(&*rt, &*desk, &*looks, commits));
    let end = run_in::<Letters, L, Held<'_, R>, R>(
        way,
        rt,
        alloc,
        desk,
        prepared,
        artifacts,
        &mut analyzer,
        &mut reducer,
        None,
        &Held { rt: *rt, looks },
    );
    looks.is_over.store(true, Ordering::SeqCst);
    if let Ok(asker) = asker {
        asker.join(rt);
    }
    let rises = match watcher {
        Ok(watcher) => watcher.join(rt),
        Err(_) => None,
    };
    (end, rises)
}

/// The same in its own scope, so that neither thread is left running.
fn in_scope<L: Ledger + Send + Sync + 'static, R: Threads + Wait + Clock + Copy + Sync>(
    rt: &R,
    alloc: Global,
    desk: &Desk<L>,
    prepared: Prepared,
    reducer: Lacking,
    artifacts: Vec<GivenArtifacts>,
    way: Way,
    commits: u64,
) -> (Result<StepEnd<GivenArtifacts>, StepError>, Option<u64>) {
    let looks = Looks::new();
    thread::scope(thread::scope_env(), rt, |scope| {
        run_between(
            scope, rt, alloc, desk, &looks, prepared, reducer, artifacts, way, commits,
        )
    })
}

/// Runs the step so from what the run before left: its status, and how often more commits were seen.
fn watched_on<L: Ledger + Send + Sync + 'static, R: Threads + Wait + Clock + Copy + Sync>(
    way: Way,
    rt: &R,
    alloc: Global,
    desk: &Desk<L>,
    line: &str,
    prepared: Prepared,
    reducer: Lacking,
    commits: u64,
    between: &mut Between,
) -> Result<(Option<Status>, u64), Fail> {
    let artifacts = between.artifacts(alloc, line, prepared.needs())?;
    let (end, rises) = in_scope(rt, alloc, desk, prepared, reducer, artifacts, way, commits);
    let table = desk.status(rt)?;
    let status = between.take(alloc, line, &table, end)?;
    Ok((status, rises.ok_or("a table whose commits never fall")?))
}

/// The same on a desk that is made for it.
fn run_watched<L: Ledger + Send + Sync + 'static, R: Threads + Wait + Clock + Copy + Sync>(
    way: Way,
    rt: &R,
    alloc: Global,
    blank: Blank,
    line: String,
    commits: u64,
    between: &mut Between,
) -> Result<(Option<Status>, u64), Fail>
    requires name { blank.name ≡ L.name }
    requires parts { blank.parts ≡ L.parts }
    requires all { blank.parts ≡ max_parts }
{
    let line = line.as_str();
    let mut reducer = Lacking::told(alloc, line);
    let mut text = String::new(alloc);
    let saved = between.saved(alloc, line)?;
    let prepared = begun(alloc, line, &mut reducer, saved, &mut text)??;
    let desk = prepared.desk::<L>(alloc, blank)?;
    watched_on(
        way, rt, alloc, &desk, line, prepared, reducer, commits, between,
    )
}

/// Runs the step so, and resumes it until it isn't stopped, each time with a stop from one commit more on. Answers its status, how often it
/// was stopped before its last run, how often more commits were seen than before, and what its partitions come to.
fn watched<R: Threads + Wait + Clock + Copy + Sync>(
    way: Way,
    rt: &R,
    alloc: Global,
    line: &str,
) -> Result<(Option<Status>, u64, u64, String), Fail> {
    let mut between = Between::nothing(alloc);
    let commits = number(line, "commits").unwrap_or(0);
    let mut stops = 0;
    let mut rises = 0u64;
    let mut status = Some(Status::Stopped);
    for run in 0..8 {
        if matches!(status, Some(Status::Stopped)) {
            let blank = Blank::new(MAX_PARTS);
            let from = commits.saturating_add(run);
            let line = String::from_str(alloc, line)?;
            let (next, more) = run_watched::<Brand, R>(
                way,
                rt,
                alloc,
                blank,
                line,
                from,
                &mut between,
            )?;
            status = next;
            rises = rises.saturating_add(more);
            stops = run;
        }
    }
    let mut partitions = String::new(alloc);
    between.add_to(&mut partitions, alloc)?;
    Ok((status, stops, rises, partitions))
}

/// After any number of stops, the step comes to the same once it isn't stopped. Each row is stopped at least once, before it runs or after
/// a commit that was seen. A commit is seen in each of its two rounds, and on one thread each of its four commits.
#[test]
fn a_table_is_watched(rt: HostRuntime) -> Result<(), Fail> {
    for line in LINES.lines() {
        for way in BOTH_WAYS {
            let (status, stops, rises, partitions) = watched(way, &rt, rt.alloc(), line)?;
            let least = if line.contains("threads=1") { 4 } else { 2 };
            assert!(rt; matches!(status, Some(Status::Completed)) && stops > 0);
            assert!(rt; least <= rises && rises <= 4);
            assert_text(&rt, partitions.as_str(), SEVEN);
        }
    }
    Ok(())
}
