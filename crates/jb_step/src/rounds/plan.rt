//! A plan for what is left, and its rounds.

ghost use Rattle.std.specs.Prelude.{◌≡◌, ◌+◌, ◌<◌, ◌≤◌, ◌++◌, ◌∷◌, [], false, IfOk, OnOk};
ghost use Rattle.jb_collect.specs.AnsweredCalls.{Grew};
ghost use Rattle.jb_step.specs.rounds.PlanLaws.{IsTaskTable};
ghost use Rattle.jb_step.specs.rounds.Runs.{note_of};
ghost use Rattle.jb_step.specs.preparing.Setup.{row_now, counts_now};
ghost use Rattle.jb_step.specs.inside.rounds.SoFar.{AreWithin, IsPlanFor, IsRunOfStepSoFar, plan_run_of};
ghost use Rattle.jb_step.specs.inside.rounds.Round.{progress, table_of};
ghost use Rattle.jb_step.specs.inside.table.Places.{table_in};
ghost use Rattle.jb_step.specs.Tables.{ArePlaced, held_in};

use crate::laws::lower_laws;
use crate::preparing::prepared::Prepared;
use crate::rounds::error::StepRunError;
use crate::rounds::ran::Ran;
use crate::rounds::runner::{RoundRunner, StepGate, StepLedger, StepTask, StepThreads};
use jb_cert::{PlanNote, fits};
use jb_chunk::PartitionTask;
use jb_collect::Analyzer;
use jb_rounds::RoundCursor;
use jb_rules::Row;
use jb_workers::Pool;
use std::alloc::Global;

/// The row of a partition now: its task's, or `row` if it has no task.
pub(crate) fn row_of<'a, T: PartitionTask>(
    held: &'a [Option<T>],
    partition: u32,
    row: &'a Row,
) -> &'a Row
    requires { ArePlaced 0 (table_in T.task_state held.now) }
    ensures { result.now ≡ row_now (held_in (table_in T.task_state held.now)) partition row.now }
{
    match held.get(partition as usize) {
        Some(place) => match place {
            Some(task) => task.row(),
            None => row,
        },
        None => row,
    }
}

// How many chunks each partition has left.
fn counts_of<T: PartitionTask>(
    alloc: Global,
    prepared: &Prepared,
    held: &[Option<T>],
) -> Result<Vec<u64>, StepRunError>
    requires { IsTaskTable prepared.now (table_in T.task_state held.now) }
    ensures { IfOk result (λ counts. counts.items ≡ counts_now prepared.now (table_in T.task_state held.now)) }
{
    let rows = prepared.begun_rows();
    let mut counts = Vec::with_capacity(alloc, rows.len())?;
    let item_count = prepared.item_count();
    for (partition, row) in rows.iter().enumerate() {
        let now = row_of(held, partition as u32, row);
        counts.push(now.remaining(item_count))?;
    }
    Ok(counts)
}

// Notes a plan of which so many rounds were run.
fn take_note(cursor: &RoundCursor, ran: u64, notes: &mut Vec<PlanNote>) -> Result<(), StepRunError>
    ensures { OnOk result (notes.new.items ≡ notes.old.items ++ note_of (plan_run_of cursor.now ran) ∷ []) }
{
    let note = PlanNote {
        certificate: cursor.certificate(),
        planned: cursor.rounds(),
        ran,
    };
    notes.push(note)?;
    Ok(())
}

impl<L: StepLedger, G: StepGate, R: StepThreads> RoundRunner<'_, L, G, R> {
    // A plan for what is left.
    fn new_plan<T: StepTask>(
        &self,
        alloc: Global,
        prepared: &Prepared,
        held: &[Option<T>],
    ) -> Result<RoundCursor, StepRunError>
        requires { IsTaskTable prepared.now (table_in T.task_state held.now) }
        ensures { IfOk result (λ cursor. IsPlanFor prepared.now (table_in T.task_state held.now) (plan_run_of cursor 0)) }
    {
        let counts = counts_of(alloc, prepared, held)?;
        let threads = prepared.threads();
        if !fits(counts.as_slice(), threads) {
            return Err(StepRunError::Row(0));
        }
        let cursor = RoundCursor::new(alloc, counts.as_slice(), threads)?;
        let rounds = cursor.rounds();
        if rounds < 1 {
            return Err(StepRunError::Row(0));
        }
        self.plan(rounds, cursor.certificate())?;
        Ok(cursor)
    }

    // True if no further round may be run: a stop was asked for, or the limit is reached.
    fn is_cut(&self, round_limit: Option<u64>, rounds: u64) -> bool
        ensures { result ≡ false → AreWithin round_limit (rounds + 1) }
    {
        if self.is_stopping() {
            return true;
        }
        match round_limit {
            Some(limit) => limit <= rounds,
            None => false,
        }
    }

    /// Runs a least plan for what is left, round after round. It ends after a round with a rollback or a failure, after the last round, at
    /// a stop, or at the limit. Answers whether the step stops: if it doesn't, a round was run. Each round attempts a chunk.
    pub(crate) fn run_plan<T: StepTask>(
        &self,
        pool: &mut Pool<T, L>,
        alloc: Global,
        prepared: &Prepared,
        ran: &mut Ran<T>,
        analyzer: &mut dyn Analyzer,
        round_limit: Option<u64>,
    ) -> Result<bool, StepRunError>
        requires table { IsTaskTable prepared.now (table_of T.task_state ran.old) }
        requires few { AreWithin round_limit ran.old.rounds }
        ensures run { IfOk result (λ stopped. IsRunOfStepSoFar prepared.now round_limit stopped (progress T.task_state (analyzed analyzer.old) ran.old) (progress T.task_state (analyzed analyzer.new) ran.new)) }
        ensures table { OnOk result (IsTaskTable prepared.now (table_of T.task_state ran.new)) }
        ensures on { IfOk result (λ stopped. stopped ≡ false → ran.old.rounds < ran.new.rounds) }
        ensures busy { OnOk result (ran.new.rounds + ran.old.attempts ≤ ran.new.attempts + ran.old.rounds) }
        ensures grew { Grew (analyzed analyzer.old) (analyzed analyzer.new) }
    {
        lower_laws();
        if self.is_cut(round_limit, ran.rounds) {
            return Ok(true);
        }
        let plan = self.new_plan(alloc, prepared, ran.held.as_slice())?;
        let cursor = &plan;
        let rounds = cursor.rounds();
        // There is one thread at least, so each round has a slot.
        let _threads = cursor.threads();
        for round in 0..rounds {
            let broke = self.next_round(pool, alloc, ran, cursor, round, analyzer)?;
            let over = broke || round + 1 == rounds;
            if over || self.is_cut(round_limit, ran.rounds) {
                take_note(cursor, round + 1, &mut ran.notes)?;
                return Ok(!over);
            }
        }
        unreachable!()
    }
}
