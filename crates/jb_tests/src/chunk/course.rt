//! The attempts at what a row says, by artifacts that count and note their calls: as they are, in boxes, and where they lend and pack.

ghost use Rattle.std.specs.Prelude.{◌≡◌, ◌+◌, ◌≤◌, ◌<◌, true};
ghost use Rattle.jb_rules.specs.declared.row.RowState.TheVariants.{Waiting};
ghost use Rattle.jb_base.specs.Limits.{max_rollbacks, max_retry_limit, max_in_place};

use super::counted::{
    AllCalls, Calls, CountedCollector, CountedProcessor, CountedReader, CountedWriter, Counting,
};
use super::told::{ReadyArtifacts, artifacts_of, begun};
use jb_artifacts::{Artifacts, ArtifactsOf, ItemReader, ItemWriter, PackedArtifacts};
use jb_base::{MAX_IN_PLACE, MAX_RETRY_LIMIT, MAX_ROLLBACKS};
use jb_chunk::{Alone, Done, Outcome, PartitionTask, run_alone};
use jb_rules::Row;
use std::alloc::{AllocError, Global};
use std::sync::Arc;
use std::test::*;

/// Whether a chunk may be attempted after this row, or all those that are left, alone.
fn waits(row: &Row) -> bool
    ensures state { result ≡ true → row.now.state ≡ Waiting }
    ensures rollbacks { result ≡ true → row.now.counts.rollback < max_rollbacks }
    ensures room { result ≡ true → row.now.counts.rollback + max_retry_limit < max_rollbacks }
    ensures repeats { result ≡ true → row.now.in_place + max_retry_limit ≤ max_in_place }
{
    row.state.is_waiting()
        && row.counts.rollback < MAX_ROLLBACKS - MAX_RETRY_LIMIT
        && row.in_place <= MAX_IN_PLACE - MAX_RETRY_LIMIT
}

/// An attempt at the task's next chunk, or the task, if none may be attempted.
pub(super) fn attempted<T: PartitionTask>(alloc: Global, task: T) -> Result<Done<T>, T> {
    if !task.is_ready() || !waits(task.row()) {
        return Err(task);
    }
    Ok(task.attempt(alloc))
}

/// The chunks of a task that are left, attempted alone.
pub(super) fn ran_alone<T: PartitionTask>(alloc: Global, task: T) -> Option<Alone<T>> {
    if !task.is_ready() || !waits(task.row()) {
        return None;
    }
    Some(run_alone(alloc, task))
}

fn name_of(outcome: &Outcome) -> &'static str {
    match outcome {
        Outcome::Committed(_) => "committed",
        Outcome::Rolled(_) => "rolled",
        Outcome::Failed(_) => "failed",
        Outcome::NoMemory => "no memory",
    }
}

/// What came of attempts.
#[derive(Drop)]
struct Course {
    calls: AllCalls,
    /// A line for each: how it ended, the calls in it, and the place of the row. At last the row's numbers.
    lines: String,
    /// What each answered: its outcome, the row, how often calls were repeated in place, and the collector's texts.
    answers: Vec<u8>,
    /// The outputs, each with a blank before it.
    outputs: String,
    /// The calls of reader, processor and writer, each kind on a line.
    noted: String,
    /// How often a record was lent, and how often one was processed.
    lent: u64,
    processed: u64,
}

impl Course {
    fn new(alloc: Global) -> Result<Course, Fail> {
        Ok(Course {
            calls: Calls::new(alloc)?,
            lines: String::new(alloc),
            answers: Vec::new(alloc),
            outputs: String::new(alloc),
            noted: String::new(alloc),
            lent: 0,
            processed: 0,
        })
    }

    /// Whether the attempts came to the same, with as many calls in each.
    fn is_as(&self, other: &Course) -> bool {
        self.lines.as_str() == other.lines.as_str()
            && self.answers.as_slice() == other.answers.as_slice()
    }

    /// Whether they left the same outputs, and were the same calls in the same order.
    fn left_as(&self, other: &Course) -> bool {
        self.outputs.as_str() == other.outputs.as_str()
            && self.noted.as_str() == other.noted.as_str()
    }

    fn add<T: PartitionTask>(&mut self, alloc: Global, done: &Done<T>) -> Result<(), Fail> {
        let row = done.task.row();
        let line = self.calls.line(alloc, name_of(&done.outcome), row)?;
        self.lines.push_str(line.as_str())?;
        let answer = format!(in alloc; "{:?} {row:?} {}\n", done.outcome, done.again)?;
        self.answers.extend_from_slice(answer.as_bytes())?;
        for value in &done.values {
            self.answers.extend_from_slice(value.as_slice())?;
        }
        Ok(())
    }

    /// Attempts one chunk after another, up to the second that finds no memory. Without memory the row stays as it was.
    fn attempt<T: PartitionTask>(&mut self, alloc: Global, mut task: T) -> Result<T, Fail> {
        let mut found_none = false;
        for _ in 0..20 {
            let row = *task.row();
            let done = match attempted(alloc, task) {
                Ok(done) => done,
                Err(task) => return Ok(task),
            };
            self.add(alloc, &done)?;
            task = done.task;
            let is_without = done.outcome == Outcome::NoMemory;
            if (*task.row() == row) != is_without {
                return Err(Fail::from("a row"));
            }
            if is_without && found_none {
                break;
            }
            found_none = found_none || is_without;
        }
        Ok(task)
    }

    /// Attempts a task's chunks, notes the numbers of the row that they leave, and gives back what it worked with.
    fn run<T: PartitionTask>(&mut self, alloc: Global, task: T) -> Result<T::Artifacts, Fail> {
        let task = self.attempt(alloc, task)?;
        let numbers = format!(in alloc; "{:?}", task.row().numbers())?;
        self.lines.push_str(numbers.as_str())?;
        Ok(task.into_artifacts())
    }

    /// Notes the outputs.
    fn add_outputs(&mut self, writer: &CountedWriter) -> Result<(), Fail> {
        for number in 0..writer.count() {
            let output = writer.item_at(number).ok_or("an output")?;
            self.outputs.push_str(" ")?;
            self.outputs
                .push_str(str::from_utf8(output).ok().ok_or("a text")?)?;
        }
        Ok(())
    }

    /// Notes what the artifacts tell of their calls, and their outputs.
    fn end(&mut self, alloc: Global, artifacts: &Counting) -> Result<(), Fail> {
        self.lent = self.calls.lent();
        self.processed = artifacts.processor.noted.len() as u64;
        let reads = &artifacts.reader.noted;
        let processes = &artifacts.processor.noted;
        let writes = &artifacts.writer.noted;
        self.noted = format!(in alloc; "{reads:?}\n{processes:?}\n{writes:?}\n")?;
        self.add_outputs(&artifacts.writer)
    }
}

/// The calls, as each of the four artifacts holds them.
type Handles = (AllCalls, AllCalls, AllCalls, AllCalls);

fn handles_of(calls: &AllCalls) -> Result<Handles, AllocError> {
    let of_reader = Arc::try_clone(calls)?;
    let of_processor = Arc::try_clone(calls)?;
    let of_writer = Arc::try_clone(calls)?;
    let of_collector = Arc::try_clone(calls)?;
    Ok((of_reader, of_processor, of_writer, of_collector))
}

/// Artifacts over what a row says, which note their calls.
fn counting(alloc: Global, told: (ReadyArtifacts, Option<u64>), handles: Handles) -> Counting {
    let (ready, forgets) = told;
    let (of_reader, of_processor, of_writer, of_collector) = handles;
    ArtifactsOf {
        reader: CountedReader {
            table: ready.reader,
            calls: of_reader,
            noted: Vec::new(alloc),
        },
        processor: CountedProcessor {
            prefixer: ready.processor,
            forgets,
            calls: of_processor,
            noted: Vec::new(alloc),
        },
        writer: CountedWriter {
            list: ready.writer,
            calls: of_writer,
            noted: Vec::new(alloc),
        },
        collector: CountedCollector {
            counter: ready.collector,
            calls: of_collector,
        },
    }
}

/// Those in boxes.
fn in_boxes(alloc: Global, each: Counting) -> Result<Artifacts, Fail> {
    Ok(Artifacts {
        reader: Box::new(alloc, each.reader)?,
        processor: Box::new(alloc, each.processor)?,
        writer: Box::new(alloc, each.writer)?,
        collector: Box::new(alloc, each.collector)?,
    })
}

/// The attempts by artifacts that own what they carry.
fn owned(alloc: Global, row: &str, item_count: u64) -> Result<Course, Fail> {
    let mut course = Course::new(alloc)?;
    let handles = handles_of(&course.calls)?;
    let artifacts = counting(alloc, artifacts_of(alloc, row)?, handles);
    let task = begun(artifacts.reader.end(), item_count, artifacts).ok_or("a task")?;
    let artifacts = course.run(alloc, task)?;
    course.end(alloc, &artifacts)?;
    Ok(course)
}

/// The same where they lend and pack it.
fn lent(alloc: Global, row: &str, item_count: u64) -> Result<Course, Fail> {
    let mut course = Course::new(alloc)?;
    let handles = handles_of(&course.calls)?;
    let inner = counting(alloc, artifacts_of(alloc, row)?, handles);
    let hi = inner.reader.end();
    let task = begun(hi, item_count, PackedArtifacts { inner }).ok_or("a task")?;
    let packed = course.run(alloc, task)?;
    course.end(alloc, &packed.inner)?;
    Ok(course)
}

/// The same where each is in a box: a call of a box is one call of what it holds.
fn boxed(alloc: Global, row: &str, item_count: u64) -> Result<Course, Fail> {
    let mut course = Course::new(alloc)?;
    let handles = handles_of(&course.calls)?;
    let each = counting(alloc, artifacts_of(alloc, row)?, handles);
    let hi = each.reader.end();
    let task = begun(hi, item_count, in_boxes(alloc, each)?).ok_or("a task")?;
    let _left = course.run(alloc, task)?;
    Ok(course)
}

/// What comes of the chunks of a row, with the calls noted where they are asked for.
fn story_of(alloc: Global, row: &str, item_count: u64, has_calls: bool) -> Result<String, Fail> {
    let course = owned(alloc, row, item_count)?;
    let other = lent(alloc, row, item_count)?;
    if !course.is_as(&other) || !course.left_as(&other) || other.lent != other.processed {
        return Err(Fail::from("the same where a record is lent for each call that processes it"));
    }
    if !course.is_as(&boxed(alloc, row, item_count)?) {
        return Err(Fail::from("the same in boxes"));
    }
    let mut story = format!(in alloc; "{}{}\n", course.lines, course.outputs)?;
    if has_calls {
        story.push_str(course.noted.as_str())?;
    }
    Ok(story)
}

/// What comes of each of these rows, in chunks of so many, by all three kinds of artifacts. It gives the attempts, the row's numbers and
/// the outputs, and the calls of reader, processor and writer if they are asked for.
pub(super) fn stories_of(
    alloc: Global,
    rows: &str,
    item_count: u64,
    has_calls: bool,
) -> Result<String, Fail> {
    let mut stories = String::new(alloc);
    for row in rows.lines() {
        let story = story_of(alloc, row, item_count, has_calls)?;
        stories.push_str(story.as_str())?;
    }
    Ok(stories)
}
