//! A round of one slot.

ghost use Rattle.std.specs.Prelude.{◌∷◌, [], IfOk};
ghost use Rattle.jb_cert.specs.Plans.{slot_pair};
ghost use Rattle.jb_collect.specs.AnsweredCalls.{Grew};
ghost use Rattle.jb_step.specs.rounds.Rounds.{CanRun};
ghost use Rattle.jb_step.specs.inside.rounds.Round.{IsRound, progress, table_of};
ghost use Rattle.jb_step.specs.Tables.{ArePlaced, held_in};
ghost use Rattle.jb_step.specs.Alone.{AreReady};

use crate::callbacks::tell::tell_one;
use crate::rounds::error::StepRunError;
use crate::rounds::ran::Ran;
use crate::rounds::round::{is_committed, put_task, sum, take_task};
use crate::rounds::runner::{RoundRunner, StepGate, StepLedger, StepTask, StepThreads};
use jb_cert::Slot;
use jb_chunk::Done;
use jb_collect::Analyzer;
use jb_workers::Work;
use std::alloc::Global;

impl<L: StepLedger, G: StepGate, R: StepThreads> RoundRunner<'_, L, G, R> {
    /// One round of one slot, as `one_round`: the caller's thread does its work, and no list takes memory.
    pub(crate) fn round_of_one<T: StepTask>(
        &self,
        alloc: Global,
        ran: &mut Ran<T>,
        slot: Slot,
        analyzer: &mut dyn Analyzer,
    ) -> Result<bool, StepRunError>
        requires placed { ArePlaced 0 (table_of T.task_state ran.old) }
        requires ready { AreReady (held_in (table_of T.task_state ran.old)) }
        requires can_run { CanRun (slot_pair slot ∷ []) (table_of T.task_state ran.old) }
        ensures round { IfOk result (λ broke. IsRound (slot_pair slot ∷ []) broke (progress T.task_state (analyzed analyzer.old) ran.old) (progress T.task_state (analyzed analyzer.new) ran.new)) }
        ensures grew { Grew (analyzed analyzer.old) (analyzed analyzer.new) }
    {
        let Some(task) = take_task(&mut ran.held, &slot) else {
            unreachable!();
        };
        let work = Work {
            lane: slot.lane,
            task,
        };
        let done = self.run_one(alloc, work)?;
        let broke = !is_committed(&done);
        let Done { task, values, .. } = done;
        ran.fault = tell_one(&task, values, ran.fault, analyzer)?;
        ran.rounds = sum(ran.rounds, 1)?;
        ran.attempts = sum(ran.attempts, 1)?;
        ran.near = slot.partition;
        put_task(&mut ran.held, task);
        Ok(broke)
    }
}
