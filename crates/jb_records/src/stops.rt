//! By which record a partition fails.

ghost use Rattle.std.specs.Prelude.{◌≡◌, true, false, IfOk};
ghost use Rattle.jb_rules.specs.Decide.{choice_of};
ghost use Rattle.jb_rules.specs.declared.choice.Choice.TheVariants.{Fail, Skip};
ghost use Rattle.jb_records.specs.Following.{FollowsRules, IsStopOf};

use crate::refusals::refusal_of;
use crate::step_function::StepFunction;
use jb_artifacts::record_of;
use jb_base::{ClassId, PackedList, Rules};
use jb_ready::Note;
use jb_rows::RowBuilder;
use jb_rules::{Choice, Row, decide};
use jb_slices::choices_are_the_rules;
use std::alloc::{AllocError, Global};

/// Whether a refusal with this class passes after so many skips. It comes at each try, so no retry is left.
fn passes(rules: &Rules, class: ClassId, skips: u64) -> bool
    ensures skip { result ≡ true → choice_of rules.now class true skips rules.now.retry_limit ≡ Skip }
    ensures fail { result ≡ false → choice_of rules.now class true skips rules.now.retry_limit ≡ Fail }
{
    choices_are_the_rules();
    matches!(
        decide(rules, class, true, skips, rules.retry_limit),
        Choice::Skip
    )
}

/// The record by whose fault the partition of this row fails: the first one from its checkpoint on whose refusal the rules don't let pass
/// after the skips before it. None if all records of its range pass. It calls the function on the records up to that one.
pub fn stop_of<F: StepFunction>(
    alloc: Global,
    function: &F,
    rules: &Rules,
    records: &PackedList,
    row: &Row,
) -> Result<Option<Note>, AllocError>
    ensures { FollowsRules (F.function function.now) rules.now records.now row.now → IfOk result (IsStopOf (F.function function.now) rules.now records.now row.now) }
{
    choices_are_the_rules();
    let mut built = RowBuilder::new(alloc);
    let mut skips = row.counts.process_skip;
    let from = row.at.max(row.lo);
    let count = row.hi.saturating_sub(from);
    for index in 0..count {
        let number = from + index;
        if let Some(class) = refusal_of(function, record_of(records, 0, number), &mut built)? {
            if !passes(rules, class, skips) {
                return Ok(Some(Note { number, class }));
            }
            skips = skips.saturating_add(1);
        }
    }
    Ok(None)
}
