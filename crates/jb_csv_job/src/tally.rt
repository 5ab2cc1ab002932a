//! What is counted from slice to slice.

ghost use Rattle.std.specs.Prelude.{◌≡◌, ◌⊎◌, false, IfErr, IfOk};
ghost use Rattle.jb_collect.specs.declared.calls.Status.TheVariants.{Completed, Failed};
ghost use Rattle.jb_csv_job.specs.declared.failure.CsvJobError.TheVariants.{TooMany};
ghost use Rattle.jb_csv_job.specs.Loop.{IsCounted, IsEndOf};

use crate::failure::CsvJobError;
use crate::run::JobEnd;
use jb_base::PackedList;
use jb_collect::Status;
use jb_slice_run::SliceEnd;

/// What is counted from slice to slice.
#[derive(Clone, Copy, Debug)]
pub(crate) struct Tally {
    /// How many records were read.
    pub records: u64,
    /// How many results were given to the sink, at least.
    pub results: u64,
    /// How many records of whole slices were skipped.
    pub skips: u64,
    /// How many slices ended.
    pub slices: u64,
    /// How many of them failed.
    pub failed: u64,
    /// A slice failed, or more records were skipped than the job's limit.
    pub is_failed: bool,
}

/// What becomes of a slice that ended.
#[derive(Clone, Copy, Debug, PartialEq, Eq)]
pub(crate) enum Seam {
    /// Its results are given to the sink.
    Gives,
    /// They aren't, and later slices are run.
    Keeps,
    /// The job ends.
    Ends,
}

/// How many results there are.
fn results_in(partition_results: &[PackedList]) -> u64 {
    let mut all: u64 = 0;
    for share in partition_results {
        all = all.saturating_add(share.len() as u64);
    }
    all
}

impl Tally {
    pub(crate) fn new() -> Tally
        ensures skips { result.skips ≡ 0 }
        ensures failed { result.is_failed ≡ false }
    {
        Tally {
            records: 0,
            results: 0,
            skips: 0,
            slices: 0,
            failed: 0,
            is_failed: false,
        }
    }

    /// Counts a slice that ended, of a job that skips at most so many records.
    pub(crate) fn add(&mut self, end: &SliceEnd, limit: Option<u64>) -> Result<Seam, CsvJobError>
        requires { (end.now.status ≡ Completed) ⊎ (end.now.status ≡ Failed) }
        ensures counted { IfOk result (IsCounted limit self.old self.new end.now) }
        ensures cause { IfErr result (λ e. e ≡ TooMany) }
    {
        self.slices = self.slices.saturating_add(1);
        if !matches!(end.status, Status::Completed) {
            self.failed = self.failed.saturating_add(1);
            self.is_failed = true;
            return Ok(Seam::Keeps);
        }
        let Some(skips) = self.skips.checked_add(end.skips.len() as u64) else {
            return Err(CsvJobError::TooMany);
        };
        self.skips = skips;
        if limit.is_some_and(|most| most < skips) {
            self.is_failed = true;
            return Ok(Seam::Ends);
        }
        if self.is_failed {
            return Ok(Seam::Keeps);
        }
        self.results = self.results.saturating_add(results_in(&end.results));
        Ok(Seam::Gives)
    }

    /// How the job ends.
    pub(crate) fn end(&self) -> JobEnd
        ensures { IsEndOf self.now result }
    {
        JobEnd {
            status: if self.is_failed { 1 } else { 0 },
            slices: self.slices,
            records: self.records,
            skips: self.skips,
            failed: self.failed,
        }
    }
}
