//! The reducer's calls at a step's end, and the step's status.

ghost use Rattle.std.specs.Prelude.{◌≡◌, ◌||◌, ◌⊎◌, true, false, not, if◌then◌else◌, IfOk, OnErr, [], ◌∷◌};
ghost use Rattle.std.specs.List.{list_any};
ghost use Rattle.jb_rules.specs.States.{is_finished, is_failed};
ghost use Rattle.jb_collect.specs.declared.calls.ReducerCall.TheVariants as act;
ghost use Rattle.jb_collect.specs.declared.calls.Status.TheVariants.{Completed, Failed};
ghost use Rattle.jb_collect.specs.ReducerCalls.{rolled_back};
ghost use Rattle.jb_collect.specs.AnsweredCalls.{Grew, calls_of, since};
ghost use Rattle.jb_step.specs.callbacks.Callbacks.{AreSome};
ghost use Rattle.jb_step.specs.Answers.{AreCallsInPart, AreCallsUndone};
ghost use Rattle.jb_step.specs.Statuses.{status_of};
ghost use Rattle.jb_step.specs.declared.error.StepError.TheVariants.{Memory};
ghost use Rattle.jb_step.specs.inside.callbacks.Reducing.{IsEnding, IsReducing, callback_fault};

use crate::error::StepError;
use crate::rounds::error::StepRunError;
use jb_base::ArtifactError;
use jb_collect::{PartitionStatus, Reducer, Status};
use jb_rules::Row;

// Whether some partition failed.
fn some_failed(rows: &[Row]) -> bool
    ensures { result ≡ list_any (λ row. is_failed row.state) rows.now }
{
    rows.iter().any(|row| row.state.is_failed())
}

// Whether some partition is unfinished.
fn some_unfinished(rows: &[Row]) -> bool
    ensures { result ≡ list_any (λ row. not (is_finished row.state)) rows.now }
{
    rows.iter().any(|row| !row.state.is_finished())
}

/// The step's status.
pub(crate) fn status_now(rows: &[Row], callback_failed: bool) -> Status
    ensures { result ≡ status_of rows.now callback_failed }
{
    if callback_failed || some_failed(rows) {
        return Status::Failed;
    }
    if some_unfinished(rows) {
        return Status::Stopped;
    }
    Status::Completed
}

fn either(one: bool, other: bool) -> bool
    ensures { result ≡ (one || other) }
{
    one || other
}

// Whether a call was answered with a fault. The only error is `Memory`.
fn fault_in(answer: Result<(), ArtifactError>) -> Result<bool, StepRunError>
    ensures { result ≡ callback_fault answer }
{
    match answer {
        Ok(()) => Ok(false),
        Err(ArtifactError::Fault(_)) => Ok(true),
        Err(ArtifactError::Memory) => Err(StepRunError::Memory),
    }
}

/// Rolls the step back: both calls are made, even if the first one answers an error.
pub(crate) fn undo(reducer: &mut dyn Reducer) -> Result<bool, StepRunError>
    ensures calls { IfOk result (λ faulted. IsReducing rolled_back faulted false (since (reduced reducer.old) (reduced reducer.new))) }
    ensures some { AreSome (calls_of (since (reduced reducer.old) (reduced reducer.new))) rolled_back }
    ensures grew { Grew (reduced reducer.old) (reduced reducer.new) }
{
    let rolled = reducer.rollback();
    let ended = reducer.after(PartitionStatus::Rollback);
    let first = fault_in(rolled)?;
    let second = fault_in(ended)?;
    let both = either(first, second);
    Ok(both)
}

/// Rolls the step back for this error. If the reducer is out of memory for it, the error is `Memory`.
pub(crate) fn undone(error: StepError, reducer: &mut dyn Reducer) -> StepError
    ensures calls { AreCallsUndone result (since (reduced reducer.old) (reduced reducer.new)) }
    ensures same { (result ≡ error) ⊎ (result ≡ Memory) }
    ensures grew { Grew (reduced reducer.old) (reduced reducer.new) }
{
    match undo(reducer) {
        Ok(_) => error,
        Err(_) => StepError::Memory,
    }
}

// Calls `before_completion`; if it is out of memory, the step is rolled back.
fn begin_completion(reducer: &mut dyn Reducer) -> Result<bool, StepRunError>
    ensures calls { IfOk result (λ faulted. IsReducing (act.Before ∷ []) faulted faulted (since (reduced reducer.old) (reduced reducer.new))) }
    ensures memory { OnErr result (AreSome (calls_of (since (reduced reducer.old) (reduced reducer.new))) rolled_back) }
    ensures grew { Grew (reduced reducer.old) (reduced reducer.new) }
{
    let answer = reducer.before_completion();
    match fault_in(answer) {
        Ok(failed) => Ok(failed),
        Err(error) => {
            let _ = undo(reducer);
            Err(error)
        }
    }
}

// The step's status after more calls, by whether one of them was answered with a fault.
fn status_after(status: Status, faulted: bool) -> Status
    ensures { result ≡ (if faulted then Failed else status) }
{
    if faulted { Status::Failed } else { status }
}

// The calls if each partition is completed and no callback failed.
fn complete(reducer: &mut dyn Reducer) -> Result<Status, StepRunError>
    ensures ending { IfOk result (λ ended. IsEnding Completed ended (since (reduced reducer.old) (reduced reducer.new))) }
    ensures memory { OnErr result (AreCallsInPart (since (reduced reducer.old) (reduced reducer.new))) }
    ensures grew { Grew (reduced reducer.old) (reduced reducer.new) }
{
    let failed = begin_completion(reducer)?;
    if failed {
        undo(reducer)?;
        return Ok(Status::Failed);
    }
    let ended = reducer.after(PartitionStatus::Commit);
    let faulted = fault_in(ended)?;
    Ok(status_after(Status::Completed, faulted))
}

/// Makes the reducer's calls at the end of a step with this status. Answers the status after them. The only error is `Memory`.
pub(crate) fn end_step(status: Status, reducer: &mut dyn Reducer) -> Result<Status, StepRunError>
    ensures ending { IfOk result (λ ended. IsEnding status ended (since (reduced reducer.old) (reduced reducer.new))) }
    ensures memory { OnErr result (AreCallsInPart (since (reduced reducer.old) (reduced reducer.new))) }
    ensures grew { Grew (reduced reducer.old) (reduced reducer.new) }
{
    match status {
        Status::Completed => complete(reducer),
        Status::Started | Status::Stopped | Status::Failed => {
            let faulted = undo(reducer)?;
            Ok(status_after(status, faulted))
        }
    }
}
