//! A task with boxed artifacts goes into a thread and comes back with its meaning.

ghost use Rattle.std.specs.Prelude.{◌≡◌, ◌<◌, IfSome};
ghost use denote.Param.Send.{IsSend};
ghost use Rattle.jb_rules.specs.declared.row.RowState.TheVariants.{Waiting};
ghost use Rattle.jb_base.specs.Limits.{max_rollbacks};
ghost use Rattle.jb_chunk.specs.Attempt.{IsAttempt, ending_of};
ghost use Rattle.jb_chunk.specs.TaskState.{IsReady, HasRepeats};

use crate::workers::tasks::{RULES, boxes, fresh_rows, task_of};
use jb_artifacts::{Artifacts, Item};
use jb_base::MAX_ROLLBACKS;
use jb_chunk::{Done, Outcome, PartitionTask, Task};
use std::alloc::Global;
use std::snapshot::Snapshot;
use std::test::*;
use std::thread;
use std::thread::{Promise, Threads};

/// That a thread gives back an attempt of its task.
#[derive(Drop)]
struct Attempts<T> {
    task: Snapshot<T>,
}

impl<T: PartitionTask> Promise<Done<T>> for Attempts<T> {
    ghost kept_by = { λ p d. IsAttempt (T.task_state p.task.value) (ending_of (T.task_state d.task) d.outcome d.values.items d.again) };
}

/// Attempts the task's next chunk in its own thread, if one can be made.
fn attempt_in_thread<T: PartitionTask + Send + 'static>(
    rt: &impl Threads,
    alloc: Global,
    task: T,
) -> Option<Done<T>>
    requires waiting { (T.task_state task).row.state ≡ Waiting }
    requires room { (T.task_state task).row.counts.rollback < max_rollbacks }
    requires repeats { HasRepeats (T.task_state task).rules (T.task_state task).row }
    requires ready { IsReady (T.task_state task) }
    ensures { IfSome result (λ d. IsAttempt (T.task_state task) (ending_of (T.task_state d.task) d.outcome d.values.items d.again)) }
{
    let promise = Attempts {
        task: Snapshot::of(&task),
    };
    let job = move || -> Done<T>
        requires { IsSend T.row × ((T.task_state task).row.state ≡ Waiting) × ((T.task_state task).row.counts.rollback < max_rollbacks) × HasRepeats (T.task_state task).rules (T.task_state task).row × IsReady (T.task_state task) }
        ensures { IsAttempt (T.task_state task) (ending_of (T.task_state result.task) result.outcome result.values.items result.again) }
    { task.attempt(alloc) };
    match thread::spawn_with(rt, promise, job) {
        Ok(child) => Some(child.join(rt)),
        Err(_) => None,
    }
}

/// The attempt of partition 7, of the letters a and b, in a thread.
fn attempted<T: PartitionTask + Send + 'static>(
    rt: &impl Threads,
    alloc: Global,
    artifacts: T::Artifacts,
) -> Option<Done<T>> {
    let [row, _] = fresh_rows();
    let task = task_of::<T>(7, row, RULES, 2, artifacts)?;
    let row = *task.row();
    if row.state.is_waiting() && row.counts.rollback < MAX_ROLLBACKS && row.in_place == 0 {
        attempt_in_thread(rt, alloc, task)
    } else {
        None
    }
}

/// Whether the attempt was committed, and its collector's texts are those of partition 7.
fn is_whole(outcome: Outcome, values: &[Item]) -> bool {
    matches!(outcome, Outcome::Committed(_))
        && values.len() == 2
        && values[0].as_slice() == b"7:2:2".as_slice()
        && values[1].as_slice() == b"7:2:2:end".as_slice()
}

#[test]
fn task_in_a_thread(rt: HostRuntime) -> Result<(), Fail> {
    let alloc = rt.alloc();
    let boxes = boxes(alloc)?;
    let artifacts = Artifacts {
        reader: boxes.reader,
        processor: boxes.processor,
        writer: boxes.writer,
        collector: boxes.collector,
    };
    let done = attempted::<Task>(&rt, alloc, artifacts).ok_or("an attempt")?;
    assert!(rt; done.task.partition() == 7 && is_whole(done.outcome, done.values.as_slice()));
    let writer = done.task.into_artifacts().writer;
    assert!(rt; writer.item_at(0) == Some(b"xa".as_slice()));
    assert!(rt; writer.item_at(1) == Some(b"xb".as_slice()));
    Ok(())
}
