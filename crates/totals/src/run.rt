//! The job's run, and the totals that come of it.

ghost use Rattle.std.specs.Prelude.{◌≡◌, ◌⊎◌, ℕ, List, IfOk, IsTrue};
ghost use Rattle.sqlite_wal.specs.Recovery.{Image};
ghost use Rattle.jb_csv_job.specs.Skipped.{IfListed};
ghost use Rattle.jb_slices.specs.Slice.{Functions};
ghost use Rattle.totals.specs.Job.{AreAdded, AreSalesTakenUp, AreSkipsListed, AreTotalsOf, IsTotalsByRules, LeavesSales};

use crate::adding::Adding;
use crate::failure::TotalsError;
use jb_base::DEFAULT_RETRY_LIMIT;
use jb_csv_job::{
    Asked, CsvJob, CsvJobError, CsvSink, Host, JobEnd, Keeper, Measured, Stored, begin_list,
    end_list, run_slices,
};
use jb_rows::{Rows, RowsOptions, RowsReader};
use sales::{Amounts, CLASSES, Pricing};
use std::alloc::Global;
use std::io::{Read, Write};
use std::sync::Wait;
use std::thread::Threads;
use std::time::Clock;

/// What the job is called, and how it runs. Its stamp is that of the list of prices.
pub const JOB: CsvJob<'static> = CsvJob {
    name: "totals",
    input: "SALES",
    records: "sales",
    results: "payments",
    options: RowsOptions::LINES,
    slice_length: 100_000,
    partitions: 8,
    item_count: 100,
    classes: CLASSES,
    skip_limit: None,
    job_skip_limit: None,
    retry_limit: DEFAULT_RETRY_LIMIT,
    stamp: "",
};

/// Reads the sales slice by slice, runs each slice or takes it from its file, and adds up the results. Gives the end, with the exit status.
fn added<
    T: Threads + Wait + Clock + Eprint + Host + Copy + Send + Sync + 'static,
    H: Stored,
    K: Keeper,
    R: Read + Drop,
    S: Write + Drop,
>(
    rt: &T,
    alloc: Global,
    asked: &Asked,
    prices: Amounts,
    stamp: &str,
    from: R,
    list: Option<S>,
    keeper: &mut K,
) -> Result<(JobEnd, Adding, Option<S>), CsvJobError>
    ensures all { IsTrue (K.are_clean keeper.new) → (functions : Functions) → AreSalesTakenUp prices stamp.now asked.now functions (R.remaining from) H.log H.db
        → IfOk result (λ r. r.0.status ≡ 0 → AreAdded prices asked.now (R.remaining from) r.1) }
    ensures by_rules { IsTrue (K.are_clean keeper.new) → (functions : Functions) → AreSalesTakenUp prices stamp.now asked.now functions (R.remaining from) H.log H.db
        → IfOk result (λ r. IsTotalsByRules prices stamp.now asked.now (R.remaining from) r.0.status) }
    ensures status { IfOk result (λ r. (r.0.status ≡ 0) ⊎ (r.0.status ≡ 1)) }
    ensures listed { IsTrue (K.are_clean keeper.new) → (functions : Functions) → AreSalesTakenUp prices stamp.now asked.now functions (R.remaining from) H.log H.db
        → IfOk result (λ r. IfListed list r.2 (λ old new. AreSkipsListed prices stamp.now asked.now (R.remaining from) (S.contents old) (S.contents new) r.0.status r.0.skips)) }
    ensures left { IsTrue (K.are_clean keeper.new) → (functions : Functions) → AreSalesTakenUp prices stamp.now asked.now functions (R.remaining from) H.log H.db
        → (slice : ℕ) (items : List (List ℕ)) (image : Image) → K.may_leave keeper.new slice items image
        → K.may_leave keeper.old slice items image ⊎ LeavesSales prices stamp.now asked.now functions (R.remaining from) slice image }
{
    let mut job: CsvJob = JOB;
    job.stamp = stamp;
    let mut reader = RowsReader::new(alloc, &job.options, asked.measured(from))?;
    let mut adding = Adding::new(alloc);
    let pricing = Pricing { prices, alloc };
    let mut listing = begin_list(alloc, &job, asked, &reader, list)?;
    let end = run_slices::<Pricing, T, H, K, Measured<R>, Adding, CsvSink<S>>(
        rt,
        &job,
        asked,
        pricing,
        &mut reader,
        &mut adding,
        &mut listing,
        keeper,
    )?;
    let listed = end_list(alloc, asked, listing)?;
    Ok((end, adding, listed))
}

/// Runs the job, and gives its end, with the exit status, and the totals. With another status than 0, or for a part of the job, there are
/// none. With a list it writes there which sales were skipped.
pub fn totals<
    T: Threads + Wait + Clock + Eprint + Host + Copy + Send + Sync + 'static,
    H: Stored,
    K: Keeper,
    R: Read + Drop,
    S: Write + Drop,
>(
    rt: &T,
    alloc: Global,
    asked: &Asked,
    prices: Amounts,
    stamp: &str,
    from: R,
    list: Option<S>,
    keeper: &mut K,
) -> Result<(JobEnd, Rows, Option<S>), TotalsError>
    // With status 0 each total is the sum of what is paid for all sales that were read, each once, whatever earlier calls left in the files.
    ensures all { IsTrue (K.are_clean keeper.new) → (functions : Functions) → AreSalesTakenUp prices stamp.now asked.now functions (R.remaining from) H.log H.db
        → IfOk result (λ r. r.0.status ≡ 0 → AreTotalsOf prices asked.now (R.remaining from) r.1) }
    ensures by_rules { IsTrue (K.are_clean keeper.new) → (functions : Functions) → AreSalesTakenUp prices stamp.now asked.now functions (R.remaining from) H.log H.db
        → IfOk result (λ r. IsTotalsByRules prices stamp.now asked.now (R.remaining from) r.0.status) }
    ensures status { IfOk result (λ r. (r.0.status ≡ 0) ⊎ (r.0.status ≡ 1)) }

    // The list, if there is one, has a row for each sale that was skipped.
    ensures listed { IsTrue (K.are_clean keeper.new) → (functions : Functions) → AreSalesTakenUp prices stamp.now asked.now functions (R.remaining from) H.log H.db
        → IfOk result (λ r. IfListed list r.2 (λ old new. AreSkipsListed prices stamp.now asked.now (R.remaining from) (S.contents old) (S.contents new) r.0.status r.0.skips)) }

    // Whatever a crash leaves of the files of a slice is the job so far.
    ensures left { IsTrue (K.are_clean keeper.new) → (functions : Functions) → AreSalesTakenUp prices stamp.now asked.now functions (R.remaining from) H.log H.db
        → (slice : ℕ) (items : List (List ℕ)) (image : Image) → K.may_leave keeper.new slice items image
        → K.may_leave keeper.old slice items image ⊎ LeavesSales prices stamp.now asked.now functions (R.remaining from) slice image }
{
    let (end, adding, list) = added::<T, H, K, R, S>(
        rt, alloc, asked, prices, stamp, from, list, keeper,
    )?;
    if end.status != 0 {
        return Ok((end, Rows::new(alloc), list));
    }
    Ok((end, adding.rows()?, list))
}
