//! What the partitions of a step have in common.

ghost use Rattle.std.specs.Prelude.{◌≡◌, ◌≤◌};
ghost use Rattle.jb_base.specs.Limits.{max_retry_limit};
ghost use Rattle.jb_chunk.specs.TaskState.{HasItemCount};

use jb_base::{Rules, Text};
use jb_documents::StepFaults;
use jb_job::Step;

/// What the partitions of a step have in common: the rules of their chunks, and what their artifacts are made from.
#[derive(Drop)]
pub struct StepSettings {
    pub rules: Rules,
    /// How many records a chunk has, 1 to 1,000,000.
    pub item_count: u64,
    /// What each result begins with.
    pub prefix: Text,
    /// Items that begin with this are filtered.
    pub drop: Option<Text>,
    pub faults: StepFaults,
}

/// What the partitions of the step have in common.
pub fn settings_for(
    step: &Step,
    prefix: Text,
    drop: Option<Text>,
    faults: StepFaults,
) -> StepSettings
    ensures settings { result ≡ record { rules = step.now.rules; item_count = step.now.item_count; prefix = prefix; drop = drop; faults = faults } }
    ensures items { HasItemCount result.item_count }
    ensures retried { result.rules.retry_limit ≤ max_retry_limit }
{
    let rules = step.rules();
    // Unused, but it brings the type's invariant into the proof: how high the limit may be.
    let _limit = rules.retry_limit;
    StepSettings {
        rules,
        item_count: step.item_count(),
        prefix,
        drop,
        faults,
    }
}
