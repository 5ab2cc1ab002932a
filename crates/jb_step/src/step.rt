//! A step, from its artifacts to its end.

ghost use Rattle.std.specs.Prelude.{◌≡◌, ◌⊎◌, ◌+◌, ◌*◌, ◌++◌, ◌∷◌, [], true, false, IfOk, IfErr, OnOk, length, map};
ghost use Rattle.jb_step.specs.inside.table.Places.{table_in};
ghost use Rattle.jb_step.specs.Tables.{held_in};
ghost use Rattle.jb_step.specs.Answers.{artifacts_of, given_back, AreCallsAfter, AreCallsUndone, AreLeftOnTheWay, IsRunError, IsRunOfStep, IsStatus};
ghost use Rattle.jb_step.specs.preparing.Prepare.{DoFit};
ghost use Rattle.jb_collect.specs.AnsweredCalls.{Grew, since};
ghost use Rattle.jb_step.specs.callbacks.Callbacks.{has_fault};
ghost use Rattle.jb_step.specs.Headline.{Headline};
ghost use Rattle.jb_step.specs.preparing.Setup.{first_tasks};
ghost use Rattle.jb_step.specs.Short.{IsShort};
ghost use Rattle.jb_step.specs.Statuses.{status_of};
ghost use Rattle.jb_step.specs.declared.error.StepError.TheVariants.{WrongArtifacts, Memory};

use crate::callbacks::reduce::{end_step, status_now, undone};
use crate::callbacks::tell::{tell_first, tell_last};
use crate::error::StepError;
use crate::laws::lower_laws;
use crate::preparing::prepared::Prepared;
use crate::preparing::start::start_all;
use crate::rounds::error::StepRunError;
use crate::rounds::ran::Ran;
use crate::rounds::runner::{RoundRunner, StepGate, StepLedger, StepTask, StepThreads};
use jb_artifacts::Meaning;
use jb_cert::PlanNote;
use jb_chunk::PartitionTask;
use jb_collect::{Analyzer, Reducer, Status};
use jb_repo::Snapshot;
use jb_workers::{Desk, Gate, Pool};
use std::alloc::Global;
use std::sync::Wait;
use std::sync::ledger::Ledger;
use std::thread::Threads;

/// How a step ended, with the artifacts of the partitions that it ran.
#[derive(Drop)]
pub struct StepEnd<A> {
    /// The step's status.
    pub status: Status,
    /// The repository's rows and numbers.
    pub snapshot: Snapshot,
    /// Its plans, the first one first.
    pub plans: Vec<PlanNote>,
    /// The artifacts, each with the number of its partition.
    pub artifacts: Vec<(u32, A)>,
}

// The artifacts of the tasks, each with its partition.
fn give_back<T: PartitionTask>(
    alloc: Global,
    held: Vec<Option<T>>,
) -> Result<Vec<(u32, T::Artifacts)>, StepRunError>
    ensures { IfOk result (λ left. given_back T.Artifacts.meaning left.items ≡ artifacts_of (held_in (table_in T.task_state held.items))) }
{
    let mut left = Vec::new(alloc);
    for place in held {
        give_one(&mut left, place)?;
    }
    Ok(left)
}

// Adds the artifacts of the task in this place, if it has one.
fn give_one<T: PartitionTask>(
    left: &mut Vec<(u32, T::Artifacts)>,
    place: Option<T>,
) -> Result<(), StepRunError>
    ensures { OnOk result (given_back T.Artifacts.meaning left.new.items ≡ given_back T.Artifacts.meaning left.old.items ++ artifacts_of (held_in (table_in T.task_state (place ∷ [])))) }
{
    if let Some(task) = place {
        let partition = task.partition();
        left.push((partition, task.into_artifacts()))?;
    }
    Ok(())
}

// Whether the history's numbers are those of the run, unless it was stopped.
fn are_numbers<T: PartitionTask>(snapshot: &Snapshot, ran: &Ran<T>) -> bool
    ensures { result ≡ true → snapshot.now.stopping ≡ false → (ran.now.stopped ≡ false) × (snapshot.now.plans ≡ length ran.now.notes.items) × (snapshot.now.events ≡ length ran.now.notes.items + ran.now.rounds + 2 * ran.now.attempts) }
{
    if snapshot.stopping {
        return true;
    }
    let plans = ran.notes.len() as u64;
    let attempts = ran.attempts;
    let events = u128::from(plans) + u128::from(ran.rounds) + 2 * u128::from(attempts);
    !ran.stopped && snapshot.plans == plans && u128::from(snapshot.events) == events
}

impl<L: StepLedger, G: StepGate, R: StepThreads> RoundRunner<'_, L, G, R> {
    // The desk has the prepared rows, and no event yet.
    fn is_new<T: StepTask>(&self, alloc: Global, prepared: &Prepared) -> Result<(), StepRunError> {
        let none: Vec<Option<T>> = Vec::new(alloc);
        let snapshot = self.rows_shown(prepared, none.as_slice())?;
        if snapshot.events != 0 {
            return Err(StepRunError::Desk);
        }
        Ok(())
    }

    // The rounds of a step whose artifacts fit, and its status before the reducer's last calls.
    fn run_tasks<T: StepTask>(
        &self,
        pool: &mut Pool<T, L>,
        alloc: Global,
        prepared: &Prepared,
        artifacts: Vec<T::Artifacts>,
        analyzer: &mut dyn Analyzer,
        round_limit: Option<u64>,
    ) -> Result<StepEnd<T::Artifacts>, StepRunError>
        requires { DoFit prepared.now (map T.Artifacts.meaning artifacts.items) }
        ensures run { IfOk result (λ end. IsRunOfStep (record {
          setup = prepared.now;
          artifacts = map T.Artifacts.meaning artifacts.items;
          round_limit = round_limit;
          heard_before = analyzed analyzer.old;
          heard_after = analyzed analyzer.new;
          notes = end.plans.items;
          snapshot = end.snapshot;
          left = given_back T.Artifacts.meaning end.artifacts.items;
        })) }
        ensures headline { IfOk result (λ end. Headline (record {
          setup = prepared.now;
          artifacts = map T.Artifacts.meaning artifacts.items;
          round_limit = round_limit;
          heard_before = analyzed analyzer.old;
          heard_after = analyzed analyzer.new;
          notes = end.plans.items;
          snapshot = end.snapshot;
          left = given_back T.Artifacts.meaning end.artifacts.items;
        })) }
        ensures on_the_way { IfOk result (λ end.
            AreLeftOnTheWay (first_tasks prepared.now (map T.Artifacts.meaning artifacts.items)) end.snapshot.rows.items (given_back T.Artifacts.meaning end.artifacts.items)) }
        ensures short { IfOk result (λ end. IsShort (first_tasks prepared.now (map T.Artifacts.meaning artifacts.items)) end.plans.items end.snapshot) }
        ensures status { IfOk result (λ end. end.status ≡ status_of end.snapshot.rows.items (has_fault (since (analyzed analyzer.old) (analyzed analyzer.new)))) }
        ensures grew { Grew (analyzed analyzer.old) (analyzed analyzer.new) }
    {
        lower_laws();
        self.is_new::<T>(alloc, prepared)?;
        let tasks = start_all::<T>(alloc, prepared, artifacts)?;
        let fault = tell_first(prepared, analyzer)?;
        let mut ran = self.run_rounds(pool, alloc, prepared, tasks, fault, analyzer, round_limit)?;
        ran.fault = tell_last(ran.held.as_slice(), ran.fault, analyzer)?;
        let snapshot = self.rows_shown(prepared, ran.held.as_slice())?;
        if !are_numbers(&snapshot, &ran) {
            return Err(StepRunError::Desk);
        }
        let status = status_now(snapshot.rows.as_slice(), ran.fault.is_some());
        let artifacts = give_back(alloc, ran.held)?;
        Ok(StepEnd {
            status,
            snapshot,
            plans: ran.notes,
            artifacts,
        })
    }
}

/// Runs each unfinished partition to its end, in rounds of least plans, each round over the desk's threads. The desk must be
/// the step's own and new. `round_limit` is the greatest number of rounds.
///
/// # Errors
/// - `WrongArtifacts` if `Prepared::fits` is false, which is checked first.
/// - `Repository(p)` if the desk's row `p` isn't the step's own, at the start or after the last round. With the number of rows: the desk
///   was used by another, or it refused an event.
/// - `Workers` if a worker could not be started.
/// - `Memory`.
///
/// The reducer is rolled back before an error is answered, as far as it has memory for it. It isn't rolled back if `after(Commit)` was the
/// call that was out of memory. The artifacts are dropped.
pub fn run_step<
    T: PartitionTask + Send + 'static,
    L: Ledger + Send + Sync + 'static,
    G: Gate + Sync,
    R: Threads + Wait + Sync,
>(
    rt: &R,
    alloc: Global,
    desk: &Desk<L>,
    prepared: Prepared,
    artifacts: Vec<T::Artifacts>,
    analyzer: &mut dyn Analyzer,
    reducer: &mut dyn Reducer,
    round_limit: Option<u64>,
    gate: &G,
) -> Result<StepEnd<T::Artifacts>, StepError>
    ensures run { IfOk result (λ end. IsRunOfStep (record {
      setup = prepared;
      artifacts = map T.Artifacts.meaning artifacts.items;
      round_limit = round_limit;
      heard_before = analyzed analyzer.old;
      heard_after = analyzed analyzer.new;
      notes = end.plans.items;
      snapshot = end.snapshot;
      left = given_back T.Artifacts.meaning end.artifacts.items;
    })) }

    // The headline: each plan has exactly the chunks not yet committed, each partition's in order. It has the fewest rounds of all lawful
    // plans, with a certificate of it. Unstopped, the step has what its partitions have if they run alone.
    ensures headline { IfOk result (λ end. Headline (record {
      setup = prepared;
      artifacts = map T.Artifacts.meaning artifacts.items;
      round_limit = round_limit;
      heard_before = analyzed analyzer.old;
      heard_after = analyzed analyzer.new;
      notes = end.plans.items;
      snapshot = end.snapshot;
      left = given_back T.Artifacts.meaning end.artifacts.items;
    })) }

    // Stopped, each partition is on the way to where its attempts alone end.
    ensures on_the_way { IfOk result (λ end.
        AreLeftOnTheWay (first_tasks prepared (map T.Artifacts.meaning artifacts.items)) end.snapshot.rows.items (given_back T.Artifacts.meaning end.artifacts.items)) }

    // No more plans than rounds, no more rounds than the tasks had attempts left, and unstopped no more than four events for each of these.
    ensures short { IfOk result (λ end. IsShort (first_tasks prepared (map T.Artifacts.meaning artifacts.items)) end.plans.items end.snapshot) }

    // The step's status, and the reducer's calls.
    ensures status { IfOk result (λ end. IsStatus end.snapshot (since (analyzed analyzer.old) (analyzed analyzer.new)) (since (reduced reducer.old) (reduced reducer.new)) end.status) }
    ensures reducer { IfOk result (λ end. AreCallsAfter end.snapshot (since (analyzed analyzer.old) (analyzed analyzer.new)) (since (reduced reducer.old) (reduced reducer.new))) }
    ensures undone { IfErr result (λ e. AreCallsUndone e (since (reduced reducer.old) (reduced reducer.new))) }
    ensures fit { OnOk result (DoFit prepared (map T.Artifacts.meaning artifacts.items)) }
    ensures wrong { IfErr result (λ e. e ≡ WrongArtifacts → DoFit prepared (map T.Artifacts.meaning artifacts.items) → ⊥) }
    ensures fit_first { IfErr result (λ e. (DoFit prepared (map T.Artifacts.meaning artifacts.items) → ⊥) → (e ≡ WrongArtifacts) ⊎ (e ≡ Memory)) }
    ensures causes { IfErr result IsRunError }

    // The calls that were taken before stay.
    ensures analyzer_grew { Grew (analyzed analyzer.old) (analyzed analyzer.new) }
    ensures reducer_grew { Grew (reduced reducer.old) (reduced reducer.new) }
{
    let mut empty = Pool::empty(alloc);
    let end = run_step_by::<T, L, G, R>(
        &mut empty,
        rt,
        alloc,
        desk,
        prepared,
        artifacts,
        analyzer,
        reducer,
        round_limit,
        gate,
    );
    empty.end(desk, rt);
    end
}

/// As `run_step`, but the pool's workers do the chunks of a round, if it has one for each chunk but one. A round of more chunks starts its
/// own threads. The pool was started over the same desk, by `jb_workers::start_pool` in a scope of the caller's threads. The caller ends it
/// there, as `run_pooled_step` does.
///
/// # Errors
/// Those of `run_step`.
pub fn run_step_by<
    T: PartitionTask + Send + 'static,
    L: Ledger + Send + Sync + 'static,
    G: Gate + Sync,
    R: Threads + Wait + Sync,
>(
    pool: &mut Pool<T, L>,
    rt: &R,
    alloc: Global,
    desk: &Desk<L>,
    prepared: Prepared,
    artifacts: Vec<T::Artifacts>,
    analyzer: &mut dyn Analyzer,
    reducer: &mut dyn Reducer,
    round_limit: Option<u64>,
    gate: &G,
) -> Result<StepEnd<T::Artifacts>, StepError>
    ensures run { IfOk result (λ end. IsRunOfStep (record {
      setup = prepared;
      artifacts = map T.Artifacts.meaning artifacts.items;
      round_limit = round_limit;
      heard_before = analyzed analyzer.old;
      heard_after = analyzed analyzer.new;
      notes = end.plans.items;
      snapshot = end.snapshot;
      left = given_back T.Artifacts.meaning end.artifacts.items;
    })) }

    // The headline: each plan has exactly the chunks not yet committed, each partition's in order. It has the fewest rounds of all lawful
    // plans, with a certificate of it. Unstopped, the step has what its partitions have if they run alone.
    ensures headline { IfOk result (λ end. Headline (record {
      setup = prepared;
      artifacts = map T.Artifacts.meaning artifacts.items;
      round_limit = round_limit;
      heard_before = analyzed analyzer.old;
      heard_after = analyzed analyzer.new;
      notes = end.plans.items;
      snapshot = end.snapshot;
      left = given_back T.Artifacts.meaning end.artifacts.items;
    })) }

    // Stopped, each partition is on the way to where its attempts alone end.
    ensures on_the_way { IfOk result (λ end.
        AreLeftOnTheWay (first_tasks prepared (map T.Artifacts.meaning artifacts.items)) end.snapshot.rows.items (given_back T.Artifacts.meaning end.artifacts.items)) }

    // No more plans than rounds, no more rounds than the tasks had attempts left, and unstopped no more than four events for each of these.
    ensures short { IfOk result (λ end. IsShort (first_tasks prepared (map T.Artifacts.meaning artifacts.items)) end.plans.items end.snapshot) }

    // The step's status, and the reducer's calls.
    ensures status { IfOk result (λ end. IsStatus end.snapshot (since (analyzed analyzer.old) (analyzed analyzer.new)) (since (reduced reducer.old) (reduced reducer.new)) end.status) }
    ensures reducer { IfOk result (λ end. AreCallsAfter end.snapshot (since (analyzed analyzer.old) (analyzed analyzer.new)) (since (reduced reducer.old) (reduced reducer.new))) }
    ensures undone { IfErr result (λ e. AreCallsUndone e (since (reduced reducer.old) (reduced reducer.new))) }
    ensures fit { OnOk result (DoFit prepared (map T.Artifacts.meaning artifacts.items)) }
    ensures wrong { IfErr result (λ e. e ≡ WrongArtifacts → DoFit prepared (map T.Artifacts.meaning artifacts.items) → ⊥) }
    ensures fit_first { IfErr result (λ e. (DoFit prepared (map T.Artifacts.meaning artifacts.items) → ⊥) → (e ≡ WrongArtifacts) ⊎ (e ≡ Memory)) }
    ensures causes { IfErr result IsRunError }

    // The calls that were taken before stay.
    ensures analyzer_grew { Grew (analyzed analyzer.old) (analyzed analyzer.new) }
    ensures reducer_grew { Grew (reduced reducer.old) (reduced reducer.new) }
{
    if !prepared.fits::<T>(artifacts.as_slice()) {
        return Err(undone(StepError::WrongArtifacts, reducer));
    }
    let runner = RoundRunner { desk, gate, rt };
    let rows = prepared.rows().len() as u32;
    let mut end = match runner.run_tasks::<T>(
        pool,
        alloc,
        &prepared,
        artifacts,
        analyzer,
        round_limit,
    ) {
        Ok(end) => end,
        Err(error) => return Err(undone(error.of_step(rows), reducer)),
    };
    match end_step(end.status, reducer) {
        Ok(status) => {
            end.status = status;
            Ok(end)
        }
        Err(_) => Err(StepError::Memory),
    }
}
