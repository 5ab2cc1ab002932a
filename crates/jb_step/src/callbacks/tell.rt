//! The analyzer's calls, and the fault that it answers.

ghost use Rattle.std.specs.Prelude.{◌≤◌, ◌++◌, IfOk, [], ◌∷◌, length};
ghost use Rattle.jb_base.specs.Limits.{max_partitions};
ghost use Rattle.jb_collect.specs.declared.calls.AnalyzerCall.TheVariants as call;
ghost use Rattle.jb_collect.specs.Heard.{collected_calls, ended_calls, endings_of, heard_first, heard_in, heard_last};
ghost use Rattle.jb_collect.specs.AnsweredCalls.{Grew, HasTaken};
ghost use Rattle.jb_step.specs.inside.table.Places.{table_in};
ghost use Rattle.jb_step.specs.Tables.{held_in};
ghost use Rattle.jb_step.specs.inside.callbacks.Telling.{IsCallbackAnswer, IsHearing, empties, moment};

use crate::preparing::prepared::Prepared;
use crate::rounds::error::StepRunError;
use jb_artifacts::Item;
use jb_base::{ArtifactError, ClassId};
use jb_chunk::{Done, PartitionTask};
use jb_collect::{Analyzer, Status, calls_end_at_a_fault, deliver, deliver_one};
use jb_rules::Row;

/// The fault that a callback answered, if it did.
pub(crate) fn fault_of(answer: Result<(), ArtifactError>) -> Result<Option<ClassId>, StepRunError>
    ensures { IfOk result (λ fault. IsCallbackAnswer answer fault) }
{
    match answer {
        Ok(()) => Ok(None),
        Err(ArtifactError::Fault(class)) => Ok(Some(class)),
        Err(ArtifactError::Memory) => Err(StepRunError::Memory),
    }
}

/// Reports a round, unless the analyzer answered a fault before.
pub(crate) fn tell_round<T: PartitionTask>(
    dones: &[Done<T>],
    fault: Option<ClassId>,
    analyzer: &mut dyn Analyzer,
) -> Result<Option<ClassId>, StepRunError>
    ensures heard { IfOk result (λ now. IsHearing fault (analyzed analyzer.old) (heard_in (endings_of T.task_state dones.now)) (moment (analyzed analyzer.new) now)) }
    ensures grew { Grew (analyzed analyzer.old) (analyzed analyzer.new) }
{
    if fault.is_some() {
        return Ok(fault);
    }
    let answer = deliver(dones, analyzer);
    fault_of(answer)
}

/// Reports one attempt, which left this task, and hands its texts over, unless the analyzer answered a fault before.
pub(crate) fn tell_one<T: PartitionTask>(
    task: &T,
    texts: Vec<Item>,
    fault: Option<ClassId>,
    analyzer: &mut dyn Analyzer,
) -> Result<Option<ClassId>, StepRunError>
    ensures heard { let t = T.task_state task.now in
        IfOk result (λ now. IsHearing fault (analyzed analyzer.old) (collected_calls t.partition texts.items ++ ended_calls t.partition t.row.state) (moment (analyzed analyzer.new) now)) }
    ensures grew { Grew (analyzed analyzer.old) (analyzed analyzer.new) }
{
    if fault.is_some() {
        return Ok(fault);
    }
    let answer = deliver_one(task, texts, analyzer);
    fault_of(answer)
}

// Reports one status.
fn tell_status(
    partition: u32,
    status: Status,
    analyzer: &mut dyn Analyzer,
) -> Result<Option<ClassId>, StepRunError>
    ensures heard { IfOk result (λ fault. HasTaken (analyzed analyzer.old) (call.Status partition status ∷ []) fault (analyzed analyzer.new)) }
    ensures grew { Grew (analyzed analyzer.old) (analyzed analyzer.new) }
{
    let answer = analyzer.status(partition, status);
    fault_of(answer)
}

/// Reports what is known at first: which ranges are empty.
pub(crate) fn tell_first(
    prepared: &Prepared,
    analyzer: &mut dyn Analyzer,
) -> Result<Option<ClassId>, StepRunError>
    ensures heard { IfOk result (λ fault. HasTaken (analyzed analyzer.old) (heard_first prepared.now.is_fresh prepared.now.rows) fault (analyzed analyzer.new)) }
    ensures grew { Grew (analyzed analyzer.old) (analyzed analyzer.new) }
{
    if !prepared.is_fresh() {
        return Ok(None);
    }
    let rows = prepared.begun_rows();
    tell_empties(rows, analyzer)
}

// Reports the empty ranges.
fn tell_empties(rows: &[Row], analyzer: &mut dyn Analyzer) -> Result<Option<ClassId>, StepRunError>
    requires { length rows.now ≤ max_partitions }
    ensures heard { IfOk result (λ fault. HasTaken (analyzed analyzer.old) (empties 0 rows.now) fault (analyzed analyzer.new)) }
    ensures grew { Grew (analyzed analyzer.old) (analyzed analyzer.new) }
{
    calls_end_at_a_fault();
    for (partition, row) in rows.iter().enumerate() {
        let fault = tell_empty(partition as u32, row, analyzer)?;
        if fault.is_some() {
            return Ok(fault);
        }
    }
    Ok(None)
}

// Reports a partition, if its range is empty.
fn tell_empty(
    partition: u32,
    row: &Row,
    analyzer: &mut dyn Analyzer,
) -> Result<Option<ClassId>, StepRunError>
    ensures heard { IfOk result (λ fault. HasTaken (analyzed analyzer.old) (empties partition (row.now ∷ [])) fault (analyzed analyzer.new)) }
    ensures grew { Grew (analyzed analyzer.old) (analyzed analyzer.new) }
{
    if row.lo != row.hi {
        return Ok(None);
    }
    tell_status(partition, Status::Completed, analyzer)
}

/// Reports the partitions that are left unfinished, unless the analyzer answered a fault before.
pub(crate) fn tell_last<T: PartitionTask>(
    held: &[Option<T>],
    fault: Option<ClassId>,
    analyzer: &mut dyn Analyzer,
) -> Result<Option<ClassId>, StepRunError>
    ensures heard { IfOk result (λ now. IsHearing fault (analyzed analyzer.old) (heard_last (held_in (table_in T.task_state held.now))) (moment (analyzed analyzer.new) now)) }
    ensures grew { Grew (analyzed analyzer.old) (analyzed analyzer.new) }
{
    if fault.is_some() {
        return Ok(fault);
    }
    tell_stopped(held, analyzer)
}

// Reports the partitions that are left unfinished.
fn tell_stopped<T: PartitionTask>(
    held: &[Option<T>],
    analyzer: &mut dyn Analyzer,
) -> Result<Option<ClassId>, StepRunError>
    ensures heard { IfOk result (λ fault. HasTaken (analyzed analyzer.old) (heard_last (held_in (table_in T.task_state held.now))) fault (analyzed analyzer.new)) }
    ensures grew { Grew (analyzed analyzer.old) (analyzed analyzer.new) }
{
    calls_end_at_a_fault();
    for place in held {
        let fault = tell_unfinished(place, analyzer)?;
        if fault.is_some() {
            return Ok(fault);
        }
    }
    Ok(None)
}

// Reports the partition whose task is in this place, if it is left unfinished.
fn tell_unfinished<T: PartitionTask>(
    place: &Option<T>,
    analyzer: &mut dyn Analyzer,
) -> Result<Option<ClassId>, StepRunError>
    ensures heard { IfOk result (λ fault. HasTaken (analyzed analyzer.old) (heard_last (held_in (table_in T.task_state (place.now ∷ [])))) fault (analyzed analyzer.new)) }
    ensures grew { Grew (analyzed analyzer.old) (analyzed analyzer.new) }
{
    let Some(task) = place else {
        return Ok(None);
    };
    if !task.row().state.is_waiting() {
        return Ok(None);
    }
    tell_status(task.partition(), Status::Stopped, analyzer)
}
