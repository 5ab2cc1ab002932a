//! The tasks of a step's unfinished partitions: whether artifacts fit them, and how they begin.

ghost use Rattle.std.specs.Prelude.{◌≡◌, ◌↔◌, ◌+◌, ◌<◌, ◌++◌, ◌∷◌, [], List, IfOk, OnOk, IsTrue, length, map};
ghost use Rattle.std.specs.Vec.Iter.{into_iter_items};
ghost use Rattle.jb_base.specs.Limits.{max_partitions};
ghost use Rattle.jb_rules.specs.declared.row.Row.{Row};
ghost use Rattle.jb_step.specs.preparing.Prepare.{DoFit, FitRows};
ghost use Rattle.jb_step.specs.preparing.Setup.{first_table, first_tasks, unfinished};
ghost use Rattle.jb_step.specs.rounds.PlanLaws.{IsTaskTable};
ghost use Rattle.jb_step.specs.inside.table.Places.{table_in};
ghost use Rattle.jb_step.specs.Tables.{ArePlaced, held_in};
ghost use Rattle.jb_step.specs.inside.preparing.Starting.{IsRowBegun, tasks_from, unfinished_from};

use crate::preparing::prepared::Prepared;
use crate::rounds::error::StepRunError;
use jb_artifacts::Meaning;
use jb_chunk::PartitionTask;
use jb_rules::Row;
use std::alloc::Global;
use std::vec::IntoIter;

impl Prepared {
    /// Whether there are artifacts for each unfinished partition, in their order, and each serves its partition's row.
    pub fn fits<T: PartitionTask>(&self, artifacts: &[T::Artifacts]) -> bool
        ensures { IsTrue result ↔ DoFit self.now (map T.Artifacts.meaning artifacts.now) }
    {
        fit_rows::<T>(self.rows(), artifacts)
    }
}

// The same for these rows.
fn fit_rows<T: PartitionTask>(rows: &[Row], artifacts: &[T::Artifacts]) -> bool
    ensures { IsTrue result ↔ FitRows (unfinished rows.now) (map T.Artifacts.meaning artifacts.now) }
{
    let mut left = artifacts;
    for row in rows {
        if row.state.is_finished() {
            continue;
        }
        let Some((own, others)) = left.split_first() else {
            return false;
        };
        if !T::fits(own, row) {
            return false;
        }
        left = others;
    }
    left.is_empty()
}

/// The tasks of the unfinished partitions, each with its artifacts and in the place of its partition.
pub(crate) fn start_all<T: PartitionTask>(
    alloc: Global,
    prepared: &Prepared,
    artifacts: Vec<T::Artifacts>,
) -> Result<Vec<Option<T>>, StepRunError>
    requires { DoFit prepared.now (map T.Artifacts.meaning artifacts.items) }
    ensures tasks { IfOk result (λ tasks. table_in T.task_state tasks.items ≡ first_table prepared.now (map T.Artifacts.meaning artifacts.items)) }
    ensures held { IfOk result (λ tasks. held_in (table_in T.task_state tasks.items) ≡ first_tasks prepared.now (map T.Artifacts.meaning artifacts.items)) }
    ensures table { IfOk result (λ tasks. IsTaskTable prepared.now (table_in T.task_state tasks.items)) }
{
    let mut tasks = Vec::new(alloc);
    let mut artifacts = artifacts.into_iter();
    let rows = prepared.begun_rows();
    for row in rows {
        start_row(&mut tasks, prepared, row, &mut artifacts)?;
    }
    Ok(tasks)
}

// Adds the place of the next partition, which has this row.
fn start_row<T: PartitionTask>(
    tasks: &mut Vec<Option<T>>,
    prepared: &Prepared,
    row: &Row,
    artifacts: &mut IntoIter<T::Artifacts, Global>,
) -> Result<(), StepRunError>
    requires fit { (rest : List Row) × FitRows (unfinished_from (length tasks.old.items) (row.now ∷ rest)) (map T.Artifacts.meaning (into_iter_items artifacts.old)) }
    requires begun { IsRowBegun row.now }
    requires few { length tasks.old.items < max_partitions }
    requires placed { ArePlaced 0 (table_in T.task_state tasks.old.items) }
    ensures placed { OnOk result (ArePlaced 0 (table_in T.task_state tasks.new.items)) }
    ensures length { OnOk result (length tasks.new.items ≡ length tasks.old.items + 1) }
    ensures fit { (rest : List Row) → FitRows (unfinished_from (length tasks.old.items) (row.now ∷ rest)) (map T.Artifacts.meaning (into_iter_items artifacts.old)) → OnOk result (FitRows (unfinished_from (length tasks.old.items + 1) rest) (map T.Artifacts.meaning (into_iter_items artifacts.new))) }
    ensures tasks { (rest : List Row) → FitRows (unfinished_from (length tasks.old.items) (row.now ∷ rest)) (map T.Artifacts.meaning (into_iter_items artifacts.old)) → OnOk result (held_in (table_in T.task_state tasks.new.items) ++ tasks_from prepared.now (length tasks.old.items + 1) rest (map T.Artifacts.meaning (into_iter_items artifacts.new)) ≡ held_in (table_in T.task_state tasks.old.items) ++ tasks_from prepared.now (length tasks.old.items) (row.now ∷ rest) (map T.Artifacts.meaning (into_iter_items artifacts.old))) }
{
    let partition = tasks.len() as u32;
    if row.state.is_finished() {
        add_place(tasks, None)?;
        return Ok(());
    }
    let Some(own) = artifacts.next() else {
        unreachable!();
    };
    let task = T::start(
        partition,
        *row,
        prepared.rules(),
        prepared.item_count(),
        own,
    );
    add_place(tasks, Some(task))?;
    Ok(())
}

// Adds the next partition's place.
fn add_place<T: PartitionTask>(
    places: &mut Vec<Option<T>>,
    place: Option<T>,
) -> Result<(), StepRunError>
    ensures items { OnOk result (held_in (table_in T.task_state places.new.items) ≡ held_in (table_in T.task_state places.old.items) ++ held_in (table_in T.task_state (place ∷ []))) }
    ensures length { OnOk result (length places.new.items ≡ length places.old.items + 1) }
    ensures placed { ArePlaced 0 (table_in T.task_state places.old.items) → ArePlaced (length places.old.items) (table_in T.task_state (place ∷ [])) → OnOk result (ArePlaced 0 (table_in T.task_state places.new.items)) }
{
    places.push(place)?;
    Ok(())
}
