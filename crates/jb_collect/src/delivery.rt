//! What an analyzer hears of a round.

ghost use Rattle.std.specs.Prelude.{◌++◌};
ghost use Rattle.jb_chunk.specs.Attempt.{ending_of};
ghost use Rattle.jb_collect.specs.Heard.{heard_of, heard_in, endings_of, collected_calls, ended_calls};
ghost use Rattle.jb_collect.specs.AnsweredCalls.{TakesCalls};

use crate::calls::Status;
use crate::interfaces::Analyzer;
use jb_artifacts::Item;
use jb_base::ArtifactError;
use jb_chunk::{Done, PartitionTask};
use jb_rules::RowState;

/// Reports the attempts of one round to the analyzer, given by rising partition (Jakarta Batch 2.1, "Partition Analyzer"; the
/// order is this project's choice). For each attempt it reports the collected texts. If the partition ended with the attempt,
/// it then reports COMPLETED or FAILED.
///
/// # Errors
/// The analyzer's first fault, after which it is called no more; or `Memory`, if it had none for a call.
pub fn deliver<T: PartitionTask>(
    dones: &[Done<T>],
    analyzer: &mut dyn Analyzer,
) -> Result<(), ArtifactError>
    ensures { TakesCalls (analyzed analyzer.old) (heard_in (endings_of T.task_state dones.now)) result (analyzed analyzer.new) }
{
    for done in dones {
        tell_done(done, analyzer)?;
    }
    Ok(())
}

/// Reports one attempt to the analyzer, as `deliver` does each, and hands its texts over: none is copied.
///
/// # Errors
/// Those of `deliver`.
pub fn deliver_one<T: PartitionTask>(
    task: &T,
    texts: Vec<Item>,
    analyzer: &mut dyn Analyzer,
) -> Result<(), ArtifactError>
    ensures { let t = T.task_state task.now in
        TakesCalls (analyzed analyzer.old) (collected_calls t.partition texts.items ++ ended_calls t.partition t.row.state) result (analyzed analyzer.new) }
{
    let partition = task.partition();
    hand_over(partition, texts, analyzer)?;
    tell_end(partition, task.row().state, analyzer)
}

// A partition's texts, handed over.
fn hand_over(
    partition: u32,
    texts: Vec<Item>,
    analyzer: &mut dyn Analyzer,
) -> Result<(), ArtifactError>
    ensures { TakesCalls (analyzed analyzer.old) (collected_calls partition texts.items) result (analyzed analyzer.new) }
{
    for text in texts {
        analyzer.take_collected(partition, text)?;
    }
    Ok(())
}

// Of one attempt.
fn tell_done<T: PartitionTask>(
    done: &Done<T>,
    analyzer: &mut dyn Analyzer,
) -> Result<(), ArtifactError>
    ensures { TakesCalls (analyzed analyzer.old) (heard_of (ending_of (T.task_state done.now.task) done.now.outcome done.now.values.items done.now.again)) result (analyzed analyzer.new) }
{
    let partition = done.task.partition();
    tell_texts(partition, done.values.as_slice(), analyzer)?;
    tell_end(partition, done.task.row().state, analyzer)
}

// A partition's texts.
fn tell_texts(
    partition: u32,
    texts: &[Item],
    analyzer: &mut dyn Analyzer,
) -> Result<(), ArtifactError>
    ensures { TakesCalls (analyzed analyzer.old) (collected_calls partition texts.now) result (analyzed analyzer.new) }
{
    for text in texts {
        analyzer.collected(partition, text.as_slice())?;
    }
    Ok(())
}

// How a partition ended, if it has.
fn tell_end(
    partition: u32,
    state: RowState,
    analyzer: &mut dyn Analyzer,
) -> Result<(), ArtifactError>
    ensures { TakesCalls (analyzed analyzer.old) (ended_calls partition state) result (analyzed analyzer.new) }
{
    match state {
        RowState::Finished => analyzer.status(partition, Status::Completed),
        RowState::Failed => analyzer.status(partition, Status::Failed),
        RowState::Waiting | RowState::Running(_) => Ok(()),
    }
}
