//! How a step over records ended.

ghost use Rattle.std.specs.Prelude.{◌≡◌, IfErr, IfOk, Some, string_bytes};
ghost use Rattle.jb_job.specs.Reading.{tree_of};
ghost use Rattle.jb_saved.specs.SavedTree.{saved_tree};
ghost use Rattle.jb_records.specs.Refusals.{IsUnsaved};
ghost use Rattle.jb_records.specs.PartitionResults.{joined};
ghost use Rattle.jb_records.specs.Skips.{skipped_of};

use crate::error::RecordsStepError;
use crate::failures::FailedPartition;
use crate::partition_results::joined;
use crate::skips::skipped_of;
use crate::step_function::StepFunction;
use jb_base::{Name, PackedList};
use jb_collect::Status;
use jb_ready::Note;
use jb_repo::Snapshot;
use jb_step::{Saved, saved_text};
use std::alloc::{AllocError, Global};

/// How a step over records ended: its status, the rows of its partitions, the results of each, and those that failed.
#[derive(Drop)]
pub struct RecordsEnd {
    pub status: Status,
    pub snapshot: Snapshot,
    pub results: Vec<PackedList>,
    pub failures: Vec<FailedPartition>,
}

impl RecordsEnd {
    /// The results of all partitions, joined in the order of the partitions.
    pub fn all_results(&self, alloc: Global) -> Result<PackedList, AllocError>
        ensures { IfOk result (λ all. all ≡ joined self.now.results.items) }
    {
        joined(alloc, &self.results)
    }

    /// The records that were skipped, by this run and by an earlier one that it resumed: the records before the checkpoints that this
    /// function refuses. It must be the run's function. Each record has its number and the class of its fault.
    pub fn skipped<F: StepFunction>(
        &self,
        alloc: Global,
        function: &F,
        records: &PackedList,
    ) -> Result<Vec<Note>, AllocError>
        ensures { IfOk result (λ skips. skips.items ≡ skipped_of (F.function function.now) records.now self.now.snapshot.rows.items) }
    {
        skipped_of(alloc, function, records, &self.snapshot.rows)
    }

    /// The text of the rows, from which a next run of the step of this name resumes.
    ///
    /// # Errors
    /// `Step` with the first row that runs on a lane, and `Memory`.
    pub fn saved_text(&self, alloc: Global, id: &Name) -> Result<String, RecordsStepError>
        ensures reads_back { IfOk result (λ text. tree_of (string_bytes text) ≡ Some (saved_tree (record { step = id.now; rows = self.now.snapshot.rows.items }))) }
        ensures refused { IfErr result (IsUnsaved self.now.snapshot.rows.items) }
    {
        let saved = Saved::of(alloc, id.as_str(), &self.snapshot)?;
        let text = saved_text(alloc, &saved)?;
        Ok(text)
    }
}
