//! What each slice of a call goes by.

ghost use Rattle.std.specs.Prelude.{◌≡◌, map, IfOk, string_bytes};
ghost use Rattle.jb_csv_job.specs.Slices.{IsSliceJobOf};

use crate::asked::Asked;
use crate::job::CsvJob;
use jb_base::Name;
use jb_ready::{Classes, FaultClass};
use jb_slice_run::{SliceJob, SliceLimits};
use std::alloc::{AllocError, Global};

/// What each slice of a call goes by.
#[derive(Clone, Copy)]
pub(crate) struct Work<'a, 'b> {
    pub job: &'a CsvJob<'b>,
    pub asked: &'a Asked,
    pub slice: SliceJob<'a>,
    pub ghost is_of: { IsSliceJobOf job.now asked.now slice },
}

/// The names of these classes.
pub(crate) fn names_of<'a>(
    alloc: Global,
    classes: &'a [FaultClass],
) -> Result<Vec<&'a str>, AllocError>
    ensures { IfOk result (λ names. map (λ name. name.now) names.items ≡ map (λ class. class.name.now) classes.now) }
{
    let mut names = Vec::with_capacity(alloc, classes.len())?;
    for class in classes {
        names.push(&*class.name)?;
    }
    Ok(names)
}

/// These texts.
pub(crate) fn texts_of<'a>(alloc: Global, strings: &'a [String]) -> Result<Vec<&'a str>, AllocError>
    ensures { IfOk result (λ texts. map (λ text. text.now) texts.items ≡ map string_bytes strings.now) }
{
    let mut texts = Vec::with_capacity(alloc, strings.len())?;
    for string in strings {
        texts.push(string.as_str())?;
    }
    Ok(texts)
}

/// The job's name.
pub(crate) fn name_of(alloc: Global, job: &CsvJob) -> Result<Name, AllocError>
    ensures { IfOk result (λ name. name ≡ job.now.name.now) }
{
    Ok(Name::new(String::from_str(alloc, job.name)?))
}

/// The work of a call, with the job's name, the names of its classes, and the stamps of `--keep-stamp`.
pub(crate) fn work_of<'a, 'b>(
    name: &'a Name,
    classes: &'a [&'a str],
    stamps: &'a [&'a str],
    job: &'a CsvJob<'b>,
    asked: &'a Asked,
) -> Work<'a, 'b>
    requires name { name.now ≡ job.now.name.now }
    requires classes { map (λ one. one.now) classes.now ≡ map (λ class. class.name.now) job.now.classes.now }
    requires stamps { map (λ stamp. stamp.now) stamps.now ≡ map string_bytes asked.now.stamps.items }
    ensures job { result.job.now ≡ job.now }
    ensures asked { result.asked.now ≡ asked.now }
{
    let slice = SliceJob {
        name,
        slice_length: job.slice_length,
        partitions: job.partitions,
        item_count: job.item_count,
        classes,
        skippable: Classes::skipped(job.classes).bits(),
        retryable: Classes::retried(job.classes).bits(),
        no_rollback: Classes::none().bits(),
        limits: SliceLimits {
            skips: job.skip_limit,
            job_skips: job.job_skip_limit,
            retries: job.retry_limit,
        },
        stamp: &*job.stamp,
        stamps,
        threads: asked.threads,
    };
    Work { job, asked, slice }
}
