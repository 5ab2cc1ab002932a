//! What a step begins with.

ghost use Rattle.std.specs.Prelude.{◌≡◌, ◌≤◌, ◌-◌, min, [], true, false, length, slice_get, option_copied, IfOk, IfErr, OnOk};
ghost use Rattle.jb_base.specs.Limits.{max_partitions, max_parts};
ghost use Rattle.jb_chunk.specs.TaskState.{HasItemCount};
ghost use Rattle.jb_step.specs.preparing.Setup.{IsSetup, fresh_rows, needs};
ghost use Rattle.jb_saved.specs.GoingOn.{rows_restarted, step_faults};
ghost use Rattle.jb_step.specs.inside.preparing.Fresh.{RefusesToGoOn, setup_of_rows};
ghost use Rattle.jb_step.specs.inside.preparing.Preparing.{MayOpen};
ghost use Rattle.jb_step.specs.inside.preparing.Starting.{AreBegun};

use crate::error::StepError;
use crate::saved::Saved;
use jb_base::{Range, Rules};
use jb_job::Step;
use jb_plan::Checked;
use jb_repo::Repo;
use jb_rules::{Row, rows_stay_sound};
use jb_saved::rows_to_go_on;
use jb_workers::Desk;
use std::alloc::{AllocError, Global};
use std::marker::Model;
use std::sync::ledger::{Blank, Ledger};

/// The rows of a step's partitions, and which of them are to be run.
#[derive(Drop)]
pub struct Prepared {
    rows: Vec<Row>,
    needs: Vec<u32>,
    rules: Rules,
    item_count: u64,
    threads: u32,
    is_fresh: bool,
}

impl Model for Prepared {
    ghost use Rattle.jb_step.specs.preparing.Setup.{Setup};

    ghost Value = { Setup };

    ghost use Rattle.jb_step.specs.inside.preparing.Preparing.{prepared_setup, IsPrepared};

    ghost view = { prepared_setup };

    ghost invariant = { IsPrepared };
}

impl Prepared {
    /// The rows of partitions that begin from the start on the ranges of a checked plan. It fails only if it is out of memory.
    pub(crate) fn fresh(alloc: Global, plan: &Checked, step: &Step) -> Result<Prepared, AllocError>
        ensures value { IfOk result (λ prepared. prepared ≡ setup_of_rows (fresh_rows plan.now.ranges) plan.now step.now true) }
        ensures setup { IfOk result (λ prepared. IsSetup prepared) }
    {
        rows_stay_sound();
        let rows = fresh_rows(alloc, plan.ranges())?;
        Prepared::with_rows(alloc, rows, plan, step, true)
    }

    /// The rows of an earlier run that the plan doesn't discard; the failed ones wait again. Only the plan's thread number counts.
    ///
    /// # Errors
    /// `Saved` with the first fault of the rows for this step (`rows_to_go_on`), and `Memory`.
    pub(crate) fn resumed(
        alloc: Global,
        plan: &Checked,
        step: &Step,
        records: u64,
        saved: &Saved,
    ) -> Result<Prepared, StepError>
        ensures accepted { OnOk result (step_faults step.now.id records saved.now ≡ []) }
        ensures refused { IfErr result (λ error. RefusesToGoOn error (step_faults step.now.id records saved.now)) }
        ensures value { IfOk result (λ prepared. prepared ≡ setup_of_rows (rows_restarted saved.now) plan.now step.now false) }
        ensures setup { IfOk result (λ prepared. IsSetup prepared) }
    {
        let rows = rows_to_go_on(alloc, step.id(), records, saved.held())?;
        Ok(Prepared::with_rows(alloc, rows, plan, step, false)?)
    }

    // These rows, on the threads of a checked plan. It fails only if it is out of memory for the list of the unfinished.
    fn with_rows(
        alloc: Global,
        rows: Vec<Row>,
        plan: &Checked,
        step: &Step,
        is_fresh: bool,
    ) -> Result<Prepared, AllocError>
        requires { MayOpen rows.items }
        ensures value { IfOk result (λ prepared. prepared ≡ setup_of_rows rows.items plan.now step.now is_fresh) }
        ensures setup { IfOk result (λ prepared. IsSetup prepared) }
    {
        let rules = step.rules();
        // Unused, but it brings the type's invariant into the proof: how high the limit may be.
        let _limit = rules.retry_limit;
        let needs = needs_of(alloc, rows.as_slice())?;
        Ok(Prepared {
            rows,
            needs,
            rules,
            item_count: step.item_count(),
            threads: plan.threads(),
            is_fresh,
        })
    }

    /// The partitions that aren't finished, rising.
    pub fn needs(&self) -> &[u32]
        ensures { result.now ≡ needs self.now.rows }
    {
        self.needs.as_slice()
    }

    /// The prepared row of a partition.
    pub fn row(&self, partition: u32) -> Option<&Row>
        ensures { option_copied result ≡ slice_get self.now.rows partition }
    {
        self.rows.get(partition as usize)
    }

    /// A new desk for the step: it has the prepared rows, and no event yet. `blank` is a ledger's with `MAX_PARTS` parts. It fails only if
    /// it is out of memory for the rows.
    pub fn desk<L: Ledger>(&self, alloc: Global, blank: Blank) -> Result<Desk<L>, AllocError>
        requires name { blank.name ≡ L.name }
        requires parts { blank.parts ≡ L.parts }
        requires all { blank.parts ≡ max_parts }
    {
        let rows = Vec::from_slice(alloc, self.rows())?;
        let repo = Repo::new(rows, self.threads(), self.item_count());
        Ok(Desk::new(repo, blank))
    }

    /// The prepared rows.
    pub(crate) fn rows(&self) -> &[Row]
        ensures value { result.now ≡ self.now.rows }
        ensures setup { IsSetup self.now }
    {
        self.rows.as_slice()
    }

    /// The same rows, at most 1,024. Each is sound, and its partition waits or is finished.
    pub(crate) fn begun_rows(&self) -> &[Row]
        ensures value { result.now ≡ self.now.rows }
        ensures begun { AreBegun result.now }
        ensures few { length result.now ≤ max_partitions }
        ensures setup { IsSetup self.now }
    {
        self.rows.as_slice()
    }

    /// The step's rules.
    pub(crate) fn rules(&self) -> Rules
        ensures { result ≡ self.now.rules }
    {
        self.rules
    }

    /// The number of records in a chunk, 1 to 1,000,000.
    pub(crate) fn item_count(&self) -> u64
        ensures value { result ≡ self.now.item_count }
        ensures limits { HasItemCount result }
    {
        self.item_count
    }

    /// How many workers of a pool its rounds can keep at work beside the caller's thread. It is one fewer than its threads, or than its
    /// unfinished partitions if these are fewer.
    pub fn workers(&self) -> usize
        ensures { result ≡ min (length (needs self.now.rows)) self.now.threads - 1 }
    {
        let threads = self.threads() as usize;
        self.needs().len().min(threads).saturating_sub(1)
    }

    /// The number of threads, 1 to 64.
    pub(crate) fn threads(&self) -> u32
        ensures { result ≡ self.now.threads }
    {
        self.threads
    }

    /// Whether the rows are new ones, and not those of an earlier run.
    pub(crate) fn is_fresh(&self) -> bool
        ensures { result ≡ self.now.is_fresh }
    {
        self.is_fresh
    }
}

// New rows of the ranges.
fn fresh_rows(alloc: Global, ranges: &[Range]) -> Result<Vec<Row>, AllocError>
    ensures { IfOk result (λ rows. rows.items ≡ fresh_rows ranges.now) }
{
    ranges.iter().map(|range| Row::fresh(*range)).collect(alloc)
}

// The partitions that aren't finished, rising.
fn needs_of(alloc: Global, rows: &[Row]) -> Result<Vec<u32>, AllocError>
    requires { length rows.now ≤ max_partitions }
    ensures { IfOk result (λ list. list.items ≡ needs rows.now) }
{
    let mut needs = Vec::new(alloc);
    for (partition, row) in rows.iter().enumerate() {
        if !row.state.is_finished() {
            needs.push(partition as u32)?;
        }
    }
    Ok(needs)
}
