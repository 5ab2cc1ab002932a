//! The rules, the step and the header of a slice's job.

ghost use Rattle.std.specs.Prelude.{◌≡◌, ◌≤◌, ◌<◌, ◌+◌, ◌^◌, IfOk, MatchOption};
ghost use Rattle.jb_slices.specs.Job.{first_of, rules_of};
ghost use Rattle.jb_slice_run.specs.Held.{header_in, limits_in};
ghost use Rattle.jb_slice_run.specs.Jobs.{header_with, job_in};
ghost use Rattle.jb_slice_run.specs.Step.{IsStepOfSlice};

use crate::header::SliceHeader;
use crate::job::SliceJob;
use jb_base::{Name, Rules};
use jb_records::RecordsStep;
use std::alloc::{AllocError, Global};

impl<'a> SliceJob<'a> {
    /// The rules of its step.
    pub(crate) fn rules(&self) -> Rules
        ensures { result ≡ rules_of (job_in self.now) (limits_in self.now.limits) }
    {
        Rules {
            skippable: self.skippable,
            retryable: self.retryable,
            no_rollback: self.no_rollback,
            skip_limit: self.limits.skips,
            retry_limit: self.limits.retries,
        }
    }

    /// The step that runs a slice.
    pub(crate) fn step(&self, alloc: Global) -> Result<RecordsStep, AllocError>
        ensures { IfOk result (λ step. IsStepOfSlice (job_in self.now) (limits_in self.now.limits) self.now.threads step) }
    {
        let id = Name::new(String::from_str(alloc, self.name.as_str())?);
        Ok(RecordsStep {
            id,
            partitions: self.partitions,
            threads: self.threads,
            item_count: self.item_count,
            rules: self.rules(),
        })
    }

    /// The header of the slice with this number, this many items and this digest of them.
    pub(crate) fn header(&self, number: u64, items: u64, digest: [u8; 32]) -> SliceHeader<'a>
        ensures { header_in result ≡ header_with self.now number items digest }
    {
        SliceHeader {
            name: self.name.as_str(),
            slice_length: self.slice_length,
            partitions: self.partitions,
            item_count: self.item_count,
            classes: self.classes,
            skippable: self.skippable,
            retryable: self.retryable,
            no_rollback: self.no_rollback,
            limits: self.limits,
            stamp: self.stamp,
            number,
            items,
            digest,
        }
    }

    /// The number in the job of this slice's first item, if the slice has this many items. `None` if the number after its last item isn't below 2^64.
    pub(crate) fn first_item(&self, number: u64, items: usize) -> Option<u64>
        ensures { MatchOption result (2 ^ 64 ≤ first_of (job_in self.now) number + items) (λ first. (first ≡ first_of (job_in self.now) number) × (first + items < 2 ^ 64)) }
    {
        let Some(first) = number.checked_mul(self.slice_length) else {
            return None;
        };
        match first.checked_add(items as u64) {
            Some(_) => Some(first),
            None => None,
        }
    }
}
