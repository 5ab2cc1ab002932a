//! The check of a partition plan.

ghost use Rattle.std.specs.Prelude.{◌≡◌, ◌≤◌, ◌<◌, ◌+◌, ◌↔◌, [], length, drop, IsTrue, IsOk, IfOk, IfErr};
ghost use Rattle.jb_base.specs.Limits.{max_records};
ghost use Rattle.jb_plan.specs.Plans.{IsRunnable, checked_plan};
ghost use Rattle.jb_plan.specs.Faults.{bound_errors, overlaps_with, overlap_errors, range_errors, plan_errors, IsFirst};
ghost use Rattle.jb_plan.specs.inside.Found.{FindsFirst};
ghost use Rattle.jb_plan.specs.Ranges.{do_overlap, AreDisjoint};

use crate::fault::PlanError;
use crate::plan::{Checked, PartitionPlan};
use jb_base::{MAX_PARTITIONS, MAX_THREADS_ASKED, Range};

/// Whether some record is in both ranges.
pub fn do_overlap(left: Range, right: Range) -> bool
    ensures { result ≡ do_overlap left right }
{
    left.lo.max(right.lo) < left.hi.min(right.hi)
}

/// Refuses the first range that is reversed or ends past the last record.
fn check_bounds(ranges: &[Range], records: u64) -> Result<(), PlanError>
    ensures { FindsFirst (bound_errors records 0 ranges.now) result }
{
    for i in 0..ranges.len() {
        if ranges[i].hi < ranges[i].lo {
            return Err(PlanError::Reversed(i));
        }
        if records < ranges[i].hi {
            return Err(PlanError::PastEnd(i));
        }
    }
    Ok(())
}

/// Refuses an empty list of ranges, and the first range that is reversed or ends past the last record. An empty range
/// is neither. This is the part of `checked` that looks at each range by itself.
pub fn ranges_in(ranges: &[Range], records: u64) -> Result<(), PlanError>
    ensures ok { IsOk result ↔ (range_errors records ranges.now ≡ []) }
    ensures err { IfErr result (λ error. IsFirst error (range_errors records ranges.now)) }
{
    if ranges.is_empty() {
        return Err(PlanError::NoPartition);
    }
    check_bounds(ranges, records)
}

/// Refuses the first range after the i-th that has a record in common with it.
fn check_apart(i: usize, range: Range, ranges: &[Range]) -> Result<(), PlanError>
    requires { i < length ranges.now }
    ensures { FindsFirst (overlaps_with i range (i + 1) (drop (i + 1) ranges.now)) result }
{
    for j in i + 1..ranges.len() {
        if do_overlap(range, ranges[j]) {
            return Err(PlanError::Overlap(i, j));
        }
    }
    Ok(())
}

/// Refuses the first pair of ranges that have a record in common.
fn check_all_apart(ranges: &[Range]) -> Result<(), PlanError>
    ensures { FindsFirst (overlap_errors 0 ranges.now) result }
{
    for i in 0..ranges.len() {
        check_apart(i, ranges[i], ranges)?;
    }
    Ok(())
}

/// Whether no record is in two of the ranges. An empty range has no record in common with any. Takes no memory.
pub fn are_disjoint(ranges: &[Range]) -> bool
    ensures { IsTrue result ↔ AreDisjoint ranges.now }
{
    check_all_apart(ranges).is_ok()
}

/// Checks a plan for a step of so many records.
///
/// These are the reasons to refuse it: no range, or more than 1,024; a range that is reversed or ends past the last
/// record; a record in two ranges; more than 4,096 threads. Of several faults the first in this order is answered, ranges
/// and pairs of ranges by their places. Takes no memory.
pub fn checked(plan: PartitionPlan, records: u64) -> Result<Checked, PlanError>
    requires { records ≤ max_records }
    ensures ok { IsOk result ↔ IsRunnable records plan }
    ensures value { IfOk result (λ plan_checked. plan_checked ≡ checked_plan plan) }
    ensures err { IfErr result (λ error. IsFirst error (plan_errors records plan)) }
{
    let ranges = plan.ranges.as_slice();
    if ranges.len() > MAX_PARTITIONS {
        return Err(PlanError::TooMany);
    }
    ranges_in(ranges, records)?;
    check_all_apart(ranges)?;
    if plan.threads > MAX_THREADS_ASKED {
        return Err(PlanError::Threads);
    }
    Ok(Checked::of(plan, records))
}
