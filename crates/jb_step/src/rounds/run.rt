//! All rounds of a step.

ghost use Rattle.std.specs.Prelude.{◌≡◌, ◌≤◌, true, false, IfOk, [], ◌∷◌};
ghost use Rattle.jb_step.specs.rounds.PlanLaws.{IsTaskTable};
ghost use Rattle.jb_collect.specs.AnsweredCalls.{Grew};
ghost use Rattle.jb_step.specs.Alone.{have_ended};
ghost use Rattle.jb_step.specs.inside.rounds.SoFar.{IsRunOfStepSoFar, at_first};
ghost use Rattle.jb_step.specs.inside.rounds.Round.{progress, table_of};
ghost use Rattle.jb_step.specs.inside.callbacks.Telling.{moment};
ghost use Rattle.jb_step.specs.inside.table.Places.{table_in};
ghost use Rattle.jb_step.specs.Tables.{held_in};

use crate::laws::lower_laws;
use crate::preparing::prepared::Prepared;
use crate::rounds::error::StepRunError;
use crate::rounds::ran::Ran;
use crate::rounds::runner::{RoundRunner, StepGate, StepLedger, StepTask, StepThreads};
use jb_base::ClassId;
use jb_chunk::PartitionTask;
use jb_collect::Analyzer;
use jb_workers::Pool;
use std::alloc::Global;

// True if each task has ended.
fn all_ended<T: PartitionTask>(held: &[Option<T>]) -> bool
    ensures { result ≡ have_ended (held_in (table_in T.task_state held.now)) }
{
    for place in held {
        if !has_ended(place) {
            return false;
        }
    }
    true
}

fn has_ended<T: PartitionTask>(place: &Option<T>) -> bool
    ensures { result ≡ have_ended (held_in (table_in T.task_state (place.now ∷ []))) }
{
    match place {
        Some(task) => task.row().state.has_ended(),
        None => true,
    }
}

impl<L: StepLedger, G: StepGate, R: StepThreads> RoundRunner<'_, L, G, R> {
    /// Runs the tasks in rounds, each of a least plan for what is left, until all have ended, or to a stop, or to the limit. `fault` is
    /// what the analyzer answered before. Each plan runs a round, and each round uses up an attempt of those that the tasks have left, so
    /// there is an end.
    pub(crate) fn run_rounds<T: StepTask>(
        &self,
        pool: &mut Pool<T, L>,
        alloc: Global,
        prepared: &Prepared,
        tasks: Vec<Option<T>>,
        fault: Option<ClassId>,
        analyzer: &mut dyn Analyzer,
        round_limit: Option<u64>,
    ) -> Result<Ran<T>, StepRunError>
        requires { IsTaskTable prepared.now (table_in T.task_state tasks.items) }
        ensures run { IfOk result (λ ran. IsRunOfStepSoFar prepared.now round_limit ran.stopped (at_first (moment (analyzed analyzer.old) fault) (table_in T.task_state tasks.items)) (progress T.task_state (analyzed analyzer.new) ran)) }
        ensures ended { IfOk result (λ ran. ran.stopped ≡ false → have_ended (held_in (table_of T.task_state ran)) ≡ true) }
        ensures table { IfOk result (λ ran. IsTaskTable prepared.now (table_of T.task_state ran)) }
        ensures busy { IfOk result (λ ran. ran.rounds ≤ ran.attempts) }
        ensures grew { Grew (analyzed analyzer.old) (analyzed analyzer.new) }
    {
        lower_laws();
        let mut ran = Ran {
            held: tasks,
            notes: Vec::new(alloc),
            fault,
            rounds: 0,
            attempts: 0,
            near: 0,
            stopped: false,
        };
        'plans: while !all_ended(ran.held.as_slice()) {
            ran.stopped = self.run_plan(pool, alloc, prepared, &mut ran, analyzer, round_limit)?;
            if ran.stopped {
                self.stop()?;
                return Ok(ran);
            }
        }
        Ok(ran)
    }
}
