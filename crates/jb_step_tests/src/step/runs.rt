//! Steps that lines describe, and what comes of them.

ghost use Rattle.std.specs.Prelude.{◌≡◌};
ghost use Rattle.jb_base.specs.Limits.{max_parts};

use crate::lines::{add_line, assert_text, has, number};
use crate::step::answers::{add_answer, add_refusal};
use crate::step::beginning::begun;
use crate::step::between::Between;
use crate::step::given::Letters;
use crate::step::lacking::Lacking;
use crate::step::stopping::Stopping;
use crate::step::ways::run_in;
use crate::way::{BOTH_WAYS, Way};
use jb_base::{ClassId, MAX_PARTS};
use jb_cert::Certificate;
use jb_collect::{ListAnalyzer, Status};
use jb_repo::Event;
use jb_step::{Prepared, StepError};
use jb_workers::{Desk, Gate};
use std::alloc::Global;
use std::marker::Brand;
use std::process::Abort;
use std::sync::Wait;
use std::sync::ledger::{Blank, Ledger};
use std::test::*;
use std::thread::Threads;

/// The line's part for the step, and, after ` on `, that for the step whose desk it is: the same, if it is its own. The history of such a
/// desk may have a plan (`planned`).
fn halves(line: &str) -> (&str, &str) {
    match line.split_once(" on ") {
        Some(halves) => halves,
        None => (line, line),
    }
}

/// The desk of the line's run: that of what the step begins with, or of another step.
fn desk_of<L: Ledger>(
    alloc: Global,
    blank: Blank,
    line: &str,
    prepared: &Prepared,
) -> Result<Option<Desk<L>>, Fail>
    requires name { blank.name ≡ L.name }
    requires parts { blank.parts ≡ L.parts }
    requires all { blank.parts ≡ max_parts }
{
    match other_of(alloc, line)? {
        Some(other) => Ok(other.desk::<L>(alloc, blank).ok()),
        None => Ok(prepared.desk::<L>(alloc, blank).ok()),
    }
}

/// What the step after ` on ` begins with.
fn other_of(alloc: Global, line: &str) -> Result<Option<Prepared>, Fail> {
    let Some((_, line)) = line.split_once(" on ") else {
        return Ok(None);
    };
    let saved = Between::nothing(alloc).saved(alloc, line)?;
    let mut reducer = Lacking::told(alloc, line);
    let mut text = String::new(alloc);
    Ok(Some(begun(alloc, line, &mut reducer, saved, &mut text)??))
}

/// Runs the step of the line on this desk, and writes what comes of it. Answers its status, if it has an answer.
pub(crate) fn run_at<L: Ledger + Send + Sync + 'static, R: Threads + Wait + Sync, G: Gate + Sync>(
    way: Way,
    rt: &R,
    alloc: Global,
    desk: &Desk<L>,
    gate: &G,
    line: &str,
    prepared: Prepared,
    mut reducer: Lacking,
    between: &mut Between,
    text: &mut String,
) -> Result<Option<Status>, Fail> {
    let fault = match number(line, "analyzer") {
        Some(number) => Some((number, ClassId::new(5))),
        None => None,
    };
    let mut analyzer = ListAnalyzer::new(alloc, fault);
    let artifacts = between.artifacts(alloc, line, prepared.needs())?;
    text.push_str(format!(in alloc; "{:?}\n", prepared.needs())?.as_str())?;
    let rounds = number(line, "rounds");
    let end = run_in::<Letters, L, G, R>(
        way,
        rt,
        alloc,
        desk,
        prepared,
        artifacts,
        &mut analyzer,
        &mut reducer,
        rounds,
        gate,
    );
    let table = desk.status(rt)?;
    add_answer(text, alloc, &end, &table, &analyzer, &reducer)?;
    let status = between.take(alloc, line, &table, end)?;
    between.add_to(text, alloc)?;
    Ok(status)
}

/// The same; the desk's history may have a plan before, and a lane may ask for a stop.
fn run_on<L: Ledger + Send + Sync + 'static, R: Threads + Wait + Sync>(
    way: Way,
    rt: &R,
    alloc: Global,
    desk: &Desk<L>,
    line: &str,
    prepared: Prepared,
    reducer: Lacking,
    between: &mut Between,
    text: &mut String,
) -> Result<Option<Status>, Fail> {
    let (own, others) = halves(line);
    if has(others, "planned") {
        desk.apply(rt, Event::Plan(1, Certificate::FullLoad))?;
    }
    let gate = Stopping::told(desk, own);
    let status = run_at(
        way, rt, alloc, desk, &gate, own, prepared, reducer, between, text,
    )?;
    if desk.is_stopping() {
        text.push_str("asked to stop\n")?;
    }
    Ok(status)
}

/// The same on a desk that is made for it.
fn on_a_desk<L: Ledger + Send + Sync + 'static, R: Threads + Wait + Sync>(
    way: Way,
    rt: &R,
    alloc: Global,
    blank: Blank,
    line: String,
    prepared: Prepared,
    reducer: Lacking,
    between: &mut Between,
    text: &mut String,
) -> Result<Option<Status>, Fail>
    requires name { blank.name ≡ L.name }
    requires parts { blank.parts ≡ L.parts }
    requires all { blank.parts ≡ max_parts }
{
    match desk_of::<L>(alloc, blank, line.as_str(), &prepared)? {
        Some(desk) => run_on(
            way,
            rt,
            alloc,
            &desk,
            line.as_str(),
            prepared,
            reducer,
            between,
            text,
        ),
        None => {
            add_refusal(text, alloc, StepError::Memory, &reducer)?;
            Ok(None)
        }
    }
}

/// Runs the step of the line, and writes what comes of it. Answers its status, if it has an answer.
///
/// `records` are those of `Given`. The line has the step's item count, `items`, and its rules. It has the plan's threads, and whether the
/// plan has an `override`. `rounds` is the greatest number of rounds. The run resumes from the rows that are `saved`, or, if it runs
/// `again`, from what the run before left: with the artifacts that were handed back, or with `new` ones. `Failing`, `Lacking` and
/// `Stopping` say what fails, and who asks for a stop. `analyzer` is the number of the analyzer's call that is answered with a fault, the
/// first being 0.
pub(crate) fn run_told<R: Threads + Wait + Sync>(
    way: Way,
    rt: &R,
    alloc: Global,
    line: &str,
    between: &mut Between,
    text: &mut String,
) -> Result<Option<Status>, Fail> {
    let (own, _) = halves(line);
    let saved = between.saved(alloc, own)?;
    let mut reducer = Lacking::told(alloc, own);
    match begun(alloc, own, &mut reducer, saved, text)? {
        Ok(prepared) => {
            let blank = Blank::new(MAX_PARTS);
            let line = String::from_str(alloc, line)?;
            on_a_desk::<Brand, R>(
                way, rt, alloc, blank, line, prepared, reducer, between, text,
            )
        }
        Err(error) => {
            add_refusal(text, alloc, error, &reducer)?;
            Ok(None)
        }
    }
}

/// The lines that describe a run, each followed by what comes of it.
fn all_told<R: Threads + Wait + Sync>(
    way: Way,
    rt: &R,
    alloc: Global,
    told: &str,
) -> Result<String, Fail> {
    let mut text = String::new(alloc);
    let mut between = Between::nothing(alloc);
    for line in told.lines() {
        if line.starts_with("> ") {
            add_line(&mut text, line)?;
            if !has(line, "again") {
                between = Between::nothing(alloc);
            }
            run_told(way, rt, alloc, line, &mut between, &mut text)?;
        }
    }
    Ok(text)
}

/// Asserts that the text after each line that describes a run is what comes of the run, in both ways to have its threads.
pub(crate) fn assert_told<R: Threads + Wait + Abort + Sync>(
    rt: &R,
    alloc: Global,
    told: &str,
) -> Result<(), Fail> {
    for way in BOTH_WAYS {
        let text = all_told(way, rt, alloc, told)?;
        assert_text(rt, text.as_str(), told);
    }
    Ok(())
}
