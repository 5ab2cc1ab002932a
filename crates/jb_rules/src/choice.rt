//! What becomes of a fault.

ghost use Rattle.std.specs.Prelude.{◌≡◌};
ghost use Rattle.jb_rules.specs.Decide.{has_class, is_below, choice_of};

use jb_base::{ClassId, Rules};

/// What becomes of a fault.
#[derive(Clone, Copy, Debug, PartialEq, Eq)]
pub enum Choice {
    /// The item, or the write call, is left out.
    Skip,
    /// The chunk is rolled back and done again.
    Retry,
    /// The call that failed is repeated in place, and nothing is rolled back.
    Again,
    /// The partition fails.
    Fail,
}

fn has_class(classes: u64, class: ClassId) -> bool
    ensures { result ≡ has_class classes class }
{
    (classes >> class.number()) % 2 == 1
}

fn is_below(limit: Option<u64>, used: u64) -> bool
    ensures { result ≡ is_below limit used }
{
    match limit {
        None => true,
        Some(limit) => used < limit,
    }
}

/// Settles a fault of this class, after `skips` skipped faults and `retries` retries.
///
/// A fault that is both skippable and retryable is retried first. If the record is done again after a rollback, it is
/// skipped first (Jakarta Batch 2.1, "Retry and Skip the Same Exception"). If the class and the limits allow neither, the
/// partition fails. A retry for a class that is to roll nothing back repeats the call in place (Jakarta Batch 2.1,
/// "Preventing Rollback During Retry"). The limits hold for each partition by itself.
pub fn decide(rules: &Rules, class: ClassId, retrying: bool, skips: u64, retries: u64) -> Choice
    ensures { result ≡ choice_of rules.now class retrying skips retries }
{
    let skip_open = has_class(rules.skippable, class) && is_below(rules.skip_limit, skips);
    let retry_open = has_class(rules.retryable, class) && retries < rules.retry_limit;
    let retry = if has_class(rules.no_rollback, class) {
        Choice::Again
    } else {
        Choice::Retry
    };
    match (retrying, skip_open, retry_open) {
        (false, _, true) => retry,
        (_, true, _) => Choice::Skip,
        (_, false, true) => retry,
        (_, false, false) => Choice::Fail,
    }
}
