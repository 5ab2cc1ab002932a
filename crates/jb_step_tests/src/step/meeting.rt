//! Four lanes that wait for each other in both rounds of a step: their processors at each chunk's first record, and the lanes until the
//! chunks of all four are in the table.

ghost use Rattle.std.specs.Prelude.{◌≡◌};
ghost use Rattle.jb_base.specs.Limits.{max_parts};

use crate::lines::assert_text;
use crate::step::beginning::begun;
use crate::step::between::Between;
use crate::step::given::artifacts;
use crate::step::lacking::Lacking;
use crate::step::runs::run_at;
use crate::way::{BOTH_WAYS, Way};
use jb_base::MAX_PARTS;
use jb_step::Prepared;
use jb_workers::{Desk, Gate};
use std::alloc::{AllocError, Global};
use std::marker::Brand;
use std::sync::atomic::{AtomicU64, Ordering};
use std::sync::ledger::{Blank, Ledger};
use std::sync::{Arc, Wait};
use std::test::*;
use std::thread;
use std::thread::Threads;
use std::time::{Clock, Duration};

/// Four partitions of four records, which are two chunks of two.
const LINE: &str = "records=abcd/efgh/ijkl/mnop/ threads=4";

/// What comes of the step, and of the meetings of its processors and of its lanes: how many came to each in vain.
const COURSE: &str = "[0, 1, 2, 3]
Longest(0) 2 of 2
0:2:2 1:6:2 2:10:2 3:14:2 0:4:4 0:4:4:end 0 Completed 1:8:4 1:8:4:end 1 Completed 2:12:4 2:12:4:end 2 Completed 3:16:4 3:16:4:end 3 Completed .
Begin Before After(Commit) .
Completed 19
0 4 4 0 0 4 4 4 2 0 0 0 0 0 0 done xa xb xc xd
4 8 8 4 0 4 4 4 2 0 0 0 0 0 0 done xe xf xg xh
8 12 12 8 0 4 4 4 2 0 0 0 0 0 0 done xi xj xk xl
12 16 16 12 0 4 4 4 2 0 0 0 0 0 0 done xm xn xo xp
processors: 8 met, 0 alone
lanes: 8 met, 0 alone
";

/// How many met the others, and how many waited for them in vain.
#[derive(Drop)]
struct Met {
    met: AtomicU64,
    alone: AtomicU64,
}

impl Met {
    fn none() -> Met {
        Met {
            met: AtomicU64::new(0),
            alone: AtomicU64::new(0),
        }
    }

    fn note(&self, met: bool) {
        let count = if met { &self.met } else { &self.alone };
        count.fetch_add(1, Ordering::SeqCst);
    }

    fn add_to(&self, text: &mut String, alloc: Global, who: &str) -> Result<(), AllocError> {
        let met = self.met.load(Ordering::SeqCst);
        let alone = self.alone.load(Ordering::SeqCst);
        let line = format!(in alloc; "{who}: {met} met, {alone} alone\n")?;
        text.push_str(line.as_str())
    }
}

/// How many processors are at the first record of their chunk, in the first round and in the second one.
#[derive(Drop)]
pub(crate) struct Meetings {
    here: [AtomicU64; 2],
    met: Met,
}

/// Whether four are here within 1,000,000,000 loads.
fn spin_for(here: &AtomicU64) -> bool {
    for _ in 0..1_000_000_000 {
        if here.load(Ordering::SeqCst) == 4 {
            return true;
        }
    }
    false
}

impl Meetings {
    /// A processor has the record of this number. At the first of its chunk it waits for the other three.
    pub(crate) fn come(&self, number: u64) {
        let here = match number % 4 {
            0 => &self.here[0],
            2 => &self.here[1],
            _ => return,
        };
        here.fetch_add(1, Ordering::SeqCst);
        self.met.note(spin_for(here));
    }
}

/// Each lane, once it is done, waits until the table has the commits of all four of its round.
#[derive(Drop)]
struct Lanes<'a, L: Ledger, R> {
    rt: &'a R,
    desk: &'a Desk<L>,
    met: Met,
}

impl<L: Ledger, R: Wait + Clock> Lanes<'_, L, R> {
    /// Whether the table has so many commits within 10,000 turns of a millisecond.
    fn wait_for(&self, commits: u64) -> bool {
        for _ in 0..10_000 {
            if let Ok(table) = self.desk.status(self.rt) {
                if table.totals.commit == commits {
                    return true;
                }
            }
            thread::sleep(self.rt, Duration::from_millis(1));
        }
        false
    }
}

impl<L: Ledger + Send + Sync, R: Wait + Clock + Sync> Gate for Lanes<'_, L, R> {
    fn arrive(&self, _lane: u32, _round: u64) {}

    fn leave(&self, _lane: u32, round: u64) {
        let commits = round.saturating_add(1).saturating_mul(4);
        self.met.note(self.wait_for(commits));
    }
}

/// The artifacts of the four partitions, whose processors meet.
fn handed(alloc: Global, meetings: &Arc<Meetings>) -> Result<Between, Fail> {
    let mut between = Between::nothing(alloc);
    for partition in 0..4 {
        let mut own = artifacts(alloc, LINE)?;
        own.processor.meetings = Some(Arc::try_clone(meetings)?);
        between.hand(partition, own)?;
    }
    Ok(between)
}

/// Runs the step on this desk: what comes of it and of the meetings.
fn met_at<L: Ledger + Send + Sync + 'static, R: Threads + Wait + Clock + Sync>(
    way: Way,
    rt: &R,
    alloc: Global,
    desk: &Desk<L>,
    prepared: Prepared,
    reducer: Lacking,
) -> Result<String, Fail> {
    let meetings = Arc::new(
        alloc,
        Meetings {
            here: [AtomicU64::new(0), AtomicU64::new(0)],
            met: Met::none(),
        },
    )?;
    let gate = Lanes {
        rt,
        desk,
        met: Met::none(),
    };
    let mut between = handed(alloc, &meetings)?;
    let mut text = String::new(alloc);
    run_at(
        way,
        rt,
        alloc,
        desk,
        &gate,
        LINE,
        prepared,
        reducer,
        &mut between,
        &mut text,
    )?;
    meetings.met.add_to(&mut text, alloc, "processors")?;
    gate.met.add_to(&mut text, alloc, "lanes")?;
    Ok(text)
}

/// The same on its own desk.
fn meet<L: Ledger + Send + Sync + 'static, R: Threads + Wait + Clock + Sync>(
    way: Way,
    rt: &R,
    alloc: Global,
    blank: Blank,
) -> Result<String, Fail>
    requires name { blank.name ≡ L.name }
    requires parts { blank.parts ≡ L.parts }
    requires all { blank.parts ≡ max_parts }
{
    let mut reducer = Lacking::told(alloc, LINE);
    let mut text = String::new(alloc);
    let prepared = begun(alloc, LINE, &mut reducer, None, &mut text)??;
    let desk = prepared.desk::<L>(alloc, blank)?;
    met_at(way, rt, alloc, &desk, prepared, reducer)
}

#[test]
fn four_lanes_meet_in_both_rounds(rt: HostRuntime) -> Result<(), Fail> {
    for way in BOTH_WAYS {
        let text = meet::<Brand, _>(way, &rt, rt.alloc(), Blank::new(MAX_PARTS))?;
        assert_text(&rt, text.as_str(), COURSE);
    }
    Ok(())
}
