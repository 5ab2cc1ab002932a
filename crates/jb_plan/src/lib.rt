//! Partition plans, and the blocks of records that chunks are made of.
//!
//! - `blocks`: the chunks that are left of a range.
//! - `plan`: plans, and plans that were checked.
//! - `fault`: what can be wrong with a plan.
//! - `checking`: the check of a plan.
#![tactic(auto)]

mod blocks;
mod checking;
mod fault;
mod plan;

pub use blocks::{chunks_follow_one_another, chunks_left, next_chunk};
pub use checking::{are_disjoint, checked, do_overlap, ranges_in};
pub use fault::PlanError;
pub use plan::{Checked, PartitionPlan};
