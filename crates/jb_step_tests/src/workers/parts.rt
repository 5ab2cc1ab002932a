//! A ledger of few parts: each part that a worker held comes back.

ghost use Rattle.std.specs.Prelude.{◌≡◌};
ghost use Rattle.jb_chunk.specs.TaskState.{IsReady};

use crate::lines::{add_line, assert_text, has, number};
use crate::way::{BOTH_WAYS, Way};
use crate::workers::most::{OneRecordTask, own_task, planned_desk, works};
use crate::workers::rounds::run_round_in;
use jb_chunk::PartitionTask;
use jb_workers::{Desk, NoGate, RoundError, Work};
use std::alloc::Global;
use std::marker::Brand;
use std::sync::Wait;
use std::sync::ledger::{Blank, Ledger};
use std::test::*;
use std::thread::Threads;

/// Three rounds on a desk whose ledger has so many parts, and what comes of each: how many attempts it gave, or the error, and how many
/// parts are left after it.
///
/// A round has two works, or one that is done without a pool (`one`). In one of the two ways its pool has a worker for each work, and the
/// caller's thread needs a part too: three parts are enough in both ways.
const ROUNDS: &str = "> parts=3
2 done, 3 left
2 done, 3 left
2 done, 3 left
> parts=1
WorkerNotStarted, 1 left
WorkerNotStarted, 1 left
WorkerNotStarted, 1 left
> parts=1 one
1 done, 1 left
1 done, 1 left
1 done, 1 left
";

/// How many parts the desk has left, up to so many: takes each, and gives all back.
pub(crate) fn parts_left<L: Ledger>(rt: &impl Wait, desk: &Desk<L>, most: u64) -> u64 {
    if most == 0 {
        return 0;
    }
    let Some(share) = desk.take_share(rt) else {
        return 0;
    };
    let others = parts_left(rt, desk, most - 1);
    desk.give_back(rt, share);
    others.saturating_add(1)
}

/// A round of one work without a pool, where the task waits: the number of its attempts.
fn run_one<L: Ledger, T: PartitionTask>(
    rt: &impl Wait,
    alloc: Global,
    desk: &Desk<L>,
    task: T,
) -> Option<Result<usize, RoundError>>
    requires { IsReady (T.task_state task) }
{
    if !task.row().state.is_waiting() {
        return None;
    }
    let done = desk.run_one(rt, alloc, &NoGate, Work { lane: 0, task });
    Some(done.map(|_| 1))
}

/// The round of this number: how many attempts it gave.
fn run_round<L: Ledger + Send + Sync + 'static, R: Threads + Wait + Sync>(
    way: Way,
    rt: &R,
    alloc: Global,
    desk: &Desk<L>,
    line: &str,
    round: u32,
) -> Option<Result<usize, RoundError>> {
    let first = round.saturating_mul(2);
    if has(line, "one") {
        return run_one::<L, OneRecordTask>(rt, alloc, desk, own_task(alloc, first)?);
    }
    let works = works(alloc, 2, |lane| own_task(alloc, first.saturating_add(lane)))?;
    let dones = run_round_in(way, desk, rt, alloc, &NoGate, works);
    Some(dones.map(|dones| dones.len()))
}

/// Runs the line's rounds on a desk with so many parts, and writes what comes of them.
fn run_told<L: Ledger + Send + Sync + 'static, R: Threads + Wait + Sync>(
    way: Way,
    rt: &R,
    alloc: Global,
    blank: Blank,
    parts: u64,
    line: String,
    text: &mut String,
) -> Result<(), Fail>
    requires name { blank.name ≡ L.name }
    requires parts { blank.parts ≡ L.parts }
    requires all { blank.parts ≡ parts }
{
    let line = line.as_str();
    let desk = planned_desk::<L>(rt, alloc, blank, parts).ok_or("a desk")?;
    for round in 0..3 {
        let came = run_round(way, rt, alloc, &desk, line, round).ok_or("works")?;
        let left = parts_left(rt, &desk, 9);
        let told = match came {
            Ok(done) => format!(in alloc; "{done} done, {left} left\n")?,
            Err(error) => format!(in alloc; "{error}, {left} left\n")?,
        };
        text.push_str(told.as_str())?;
    }
    Ok(())
}

/// The lines that describe rounds, each followed by what comes of it.
fn all_told<R: Threads + Wait + Sync>(
    way: Way,
    rt: &R,
    alloc: Global,
    told: &str,
) -> Result<String, Fail> {
    let mut text = String::new(alloc);
    for line in told.lines() {
        if line.starts_with("> ") {
            add_line(&mut text, line)?;
            let parts = number(line, "parts").ok_or("parts")?;
            let blank = Blank::new(parts);
            let line = String::from_str(alloc, line)?;
            run_told::<Brand, R>(way, rt, alloc, blank, parts, line, &mut text)?;
        }
    }
    Ok(text)
}

#[test]
fn parts_come_back(rt: HostRuntime) -> Result<(), Fail> {
    for way in BOTH_WAYS {
        let text = all_told(way, &rt, rt.alloc(), ROUNDS)?;
        assert_text(&rt, text.as_str(), ROUNDS);
    }
    Ok(())
}
