//! One round over the tasks that a step holds.

ghost use Rattle.std.specs.Prelude.{◌≡◌, ◌+◌, ◌++◌, [], IfOk, None, OnOk, Some, map, slice_index_or, slice_set};
ghost use Rattle.std.specs.List.{cons_option};
ghost use Rattle.jb_cert.specs.Plans.{slot_pair};
ghost use Rattle.jb_cert.specs.WrapAround.{slots_of_round};
ghost use Rattle.jb_cert.specs.Rising.{Rise};
ghost use Rattle.jb_step.specs.rounds.Rounds.{CanRun, breaks_in, is_commit};
ghost use Rattle.jb_collect.specs.Heard.{endings_of};
ghost use Rattle.jb_collect.specs.AnsweredCalls.{Grew};
ghost use Rattle.jb_step.specs.inside.rounds.SoFar.{set_of_round};
ghost use Rattle.jb_step.specs.inside.table.Places.{emptied, filled, picked, table_in};
ghost use Rattle.jb_step.specs.inside.rounds.Round.{IsRound, progress, table_of, tasks_of};
ghost use Rattle.jb_step.specs.Tables.{ArePlaced, held_in};
ghost use Rattle.jb_step.specs.Alone.{AreReady};
ghost use Rattle.jb_workers.specs.Works.{AllCanBegin, RiseByPartition as AreInOrder};

mod single;

use crate::callbacks::tell::tell_round;
use crate::rounds::error::StepRunError;
use crate::rounds::ran::Ran;
use crate::rounds::runner::{RoundRunner, StepGate, StepLedger, StepTask, StepThreads};
use jb_cert::{Slot, lanes_are_found};
use jb_chunk::{Done, Outcome, PartitionTask};
use jb_collect::Analyzer;
use jb_rounds::RoundCursor;
use jb_workers::{Pool, Work};
use std::alloc::Global;

// The slots of a round, by rising lane and so by rising partition.
fn slots_of(alloc: Global, cursor: &RoundCursor, round: u64) -> Result<Vec<Slot>, StepRunError>
    ensures slots { IfOk result (λ slots. slots.items ≡ slots_of_round cursor.now.counts cursor.now.threads round) }
    ensures rise { IfOk result (λ slots. Rise (map (λ slot. slot.partition) slots.items)) }
{
    lanes_are_found();
    Ok(cursor.slots(alloc, round)?)
}

// Takes the task of the slot's partition out of its place, if there is one.
pub(crate) fn take_task<T: PartitionTask>(places: &mut Vec<Option<T>>, slot: &Slot) -> Option<T>
    ensures task { result ≡ slice_index_or places.old.items slot.now.partition None }
    ensures places { places.new.items ≡ slice_set places.old.items slot.now.partition None }
{
    let index = slot.partition as usize;
    if places.len() <= index {
        return None;
    }
    places[index].take()
}

// Takes the task of the slot's partition out of its place, as a work.
fn take_work<T: PartitionTask>(
    works: &mut Vec<Work<T>>,
    places: &mut Vec<Option<T>>,
    slot: &Slot,
) -> Result<(), StepRunError>
    ensures works { OnOk result (tasks_of works.new.items ≡ tasks_of works.old.items ++ cons_option (slice_index_or places.old.items slot.now.partition None) []) }
    ensures places { OnOk result (places.new.items ≡ slice_set places.old.items slot.now.partition None) }
{
    if let Some(task) = take_task(places, slot) {
        let work = Work {
            lane: slot.lane,
            task,
        };
        works.push(work)?;
    }
    Ok(())
}

// Takes the tasks of the slots' partitions out of their places, as works in the order of the slots.
fn take_works<T: PartitionTask>(
    works: &mut Vec<Work<T>>,
    places: &mut Vec<Option<T>>,
    slots: &[Slot],
) -> Result<(), StepRunError>
    ensures works { OnOk result (tasks_of works.new.items ≡ tasks_of works.old.items ++ picked (map slot_pair slots.now) places.old.items) }
    ensures places { OnOk result (places.new.items ≡ emptied (map slot_pair slots.now) places.old.items) }
{
    for slot in slots {
        take_work(works, places, slot)?;
    }
    Ok(())
}

// Puts the task of a Done into the place of its partition.
pub(crate) fn put_task<T: PartitionTask>(places: &mut Vec<Option<T>>, task: T)
    ensures { places.new.items ≡ slice_set places.old.items (T.task_state task).partition (Some task) }
{
    let index = task.partition() as usize;
    if index < places.len() {
        places[index] = Some(task);
    }
}

// Puts the tasks of the Dones back into their places.
fn put_back<T: PartitionTask>(places: &mut Vec<Option<T>>, dones: Vec<Done<T>>)
    ensures { places.new.items ≡ filled T.task_state dones.items places.old.items }
{
    for done in dones {
        put_task(places, done.task);
    }
}

pub(crate) fn is_committed<T: PartitionTask>(done: &Done<T>) -> bool
    ensures { result ≡ is_commit done.now.outcome }
{
    match done.outcome {
        Outcome::Committed(_) => true,
        Outcome::NoMemory | Outcome::Rolled(_) | Outcome::Failed(_) => false,
    }
}

// True if some attempt is no commit.
fn some_breaks<T: PartitionTask>(dones: &[Done<T>]) -> bool
    ensures { result ≡ breaks_in (endings_of T.task_state dones.now) }
{
    for done in dones {
        if !is_committed(done) {
            return true;
        }
    }
    false
}

// Takes the works of a round that can be run out of their places.
fn chosen<T: PartitionTask>(
    alloc: Global,
    places: &mut Vec<Option<T>>,
    slots: &[Slot],
) -> Result<Vec<Work<T>>, StepRunError>
    requires placed { ArePlaced 0 (table_in T.task_state places.old.items) }
    requires in_turn { Rise (map (λ slot. slot.partition) slots.now) }
    requires ready { AreReady (held_in (table_in T.task_state places.old.items)) }
    requires can_run { CanRun (map slot_pair slots.now) (table_in T.task_state places.old.items) }
    ensures works { IfOk result (λ works. tasks_of works.items ≡ picked (map slot_pair slots.now) places.old.items) }
    ensures places { OnOk result (places.new.items ≡ emptied (map slot_pair slots.now) places.old.items) }
    ensures can { IfOk result (λ works. AllCanBegin T.task_state works.items) }
    ensures in_order { IfOk result (λ works. AreInOrder T.task_state works.items) }
{
    let mut works = Vec::with_capacity(alloc, slots.len())?;
    take_works(&mut works, places, slots)?;
    Ok(works)
}

// The sum of two numbers of the history.
pub(crate) fn sum(number: u64, more: u64) -> Result<u64, StepRunError>
    ensures { IfOk result (λ sum. sum ≡ number + more) }
{
    number.checked_add(more).ok_or(StepRunError::Desk)
}

impl<L: StepLedger, G: StepGate, R: StepThreads> RoundRunner<'_, L, G, R> {
    // One round: an attempt for each task of the slots' partitions, and for no other; and the analyzer's calls. Answers whether some
    // partition was rolled back or failed.
    fn one_round<T: StepTask>(
        &self,
        pool: &mut Pool<T, L>,
        alloc: Global,
        ran: &mut Ran<T>,
        slots: &[Slot],
        analyzer: &mut dyn Analyzer,
    ) -> Result<bool, StepRunError>
        requires placed { ArePlaced 0 (table_of T.task_state ran.old) }
        requires in_turn { Rise (map (λ slot. slot.partition) slots.now) }
        requires ready { AreReady (held_in (table_of T.task_state ran.old)) }
        requires can_run { CanRun (map slot_pair slots.now) (table_of T.task_state ran.old) }
        ensures round { IfOk result (λ broke. IsRound (map slot_pair slots.now) broke (progress T.task_state (analyzed analyzer.old) ran.old) (progress T.task_state (analyzed analyzer.new) ran.new)) }
        ensures grew { Grew (analyzed analyzer.old) (analyzed analyzer.new) }
    {
        let works = chosen(alloc, &mut ran.held, slots)?;
        let dones = self.run_round(alloc, pool, works)?;
        ran.fault = tell_round(dones.as_slice(), ran.fault, analyzer)?;
        ran.rounds = sum(ran.rounds, 1)?;
        ran.attempts = sum(ran.attempts, dones.as_slice().len() as u64)?;
        let broke = some_breaks(dones.as_slice());
        put_back(&mut ran.held, dones);
        Ok(broke)
    }

    /// The plan's next round, as `one_round`. If it has only one slot, no list takes memory.
    pub(crate) fn next_round<T: StepTask>(
        &self,
        pool: &mut Pool<T, L>,
        alloc: Global,
        ran: &mut Ran<T>,
        cursor: &RoundCursor,
        round: u64,
        analyzer: &mut dyn Analyzer,
    ) -> Result<bool, StepRunError>
        requires placed { ArePlaced 0 (table_of T.task_state ran.old) }
        requires ready { AreReady (held_in (table_of T.task_state ran.old)) }
        requires can_run { CanRun (set_of_round cursor.now round) (table_of T.task_state ran.old) }
        ensures round { IfOk result (λ broke. IsRound (set_of_round cursor.now round) broke (progress T.task_state (analyzed analyzer.old) ran.old) (progress T.task_state (analyzed analyzer.new) ran.new)) }
        ensures grew { Grew (analyzed analyzer.old) (analyzed analyzer.new) }
    {
        if let Some(slot) = cursor.only_slot(round, ran.near) {
            return self.round_of_one(alloc, ran, slot, analyzer);
        }
        let slots = slots_of(alloc, cursor, round)?;
        self.one_round(pool, alloc, ran, slots.as_slice(), analyzer)
    }
}
