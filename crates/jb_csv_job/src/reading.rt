//! The records of a slice.

ghost use Rattle.std.specs.Prelude.{◌≡◌, ℕ, List, IfErr, IfOk};
ghost use Rattle.jb_rows.specs.Fields.{Fields};
ghost use Rattle.jb_rows.specs.Texts.{AreRowsOf};
ghost use Rattle.jb_slices.specs.Function.{Function};
ghost use Rattle.jb_csv_job.specs.Causes.{IsRunError};
ghost use Rattle.jb_csv_job.specs.declared.failure.CsvJobError.TheVariants.{TooMany};
ghost use Rattle.jb_csv_job.specs.Loop.{IsSliceRead, StandsBefore, job_of};

use crate::failure::CsvJobError;
use crate::measured::Measures;
use crate::same_input::refuse_other_input;
use crate::work::Work;
use jb_rows::{Rows, RowsReader};
use jb_slices::is_last_slice;
use std::alloc::Global;
use std::io::Read;

/// So many records, and so many more.
fn sum_of(records: u64, more: u64) -> Result<u64, CsvJobError>
    ensures { IfErr result (λ e. e ≡ TooMany) }
{
    match records.checked_add(more) {
        Some(all) => Ok(all),
        None => Err(CsvJobError::TooMany),
    }
}

/// Reads the records of the next slice, in place of those in `rows`, and counts them. Says whether it is the last one. Another number of records than
/// `--records` has is refused, and none at all without it; and at the end of the input one of another length or digest, or whose last line may be
/// cut.
pub(crate) fn read_slice<R: Read + Measures>(
    alloc: Global,
    work: &Work,
    reader: &mut RowsReader<R>,
    rows: &mut Rows,
    so_far: &mut u64,
) -> Result<bool, CsvJobError>
    ensures read { (f : Function) (text : List ℕ) (records : List Fields) (number : ℕ) → AreRowsOf work.now.job.now.options text records
        → StandsBefore (job_of work.now f) R.remaining text records number reader.old
        → IfOk result (IsSliceRead (job_of work.now f) R.remaining text records number reader.new rows.new) }
    ensures cause { IfErr result (IsRunError work.now.asked.now) }
{
    let most = work.job.slice_length;
    reader.next_rows(rows, most as usize)?;
    let count = rows.len() as u64;
    let all = sum_of(*so_far, count)?;
    *so_far = all;
    let is_last = is_last_slice(count, most);
    work.asked.refuse_other_number(all, is_last)?;
    refuse_other_input(alloc, work.asked, &*reader)?;
    Ok(is_last)
}
