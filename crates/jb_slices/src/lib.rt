//! A job by slices: what its checkpoints say, and what comes of them.
//!
//! - `slices`: whether a slice is the last one.
//! - `slice_laws`: one slice's checkpoints. `job_laws`: those of all slices.
//! - `other_laws`: raised limits, parts, and the rule of faults.
#![tactic(auto)]

mod job_laws;
mod other_laws;
mod slice_laws;
mod slices;

pub use job_laws::{jobs_follow_the_rules, jobs_have_results, one_slice_is_last, slices_are_apart};
pub use other_laws::{choices_are_the_rules, parts_cover, raised_limits_keep, some_are_there};
pub use slice_laws::{
    failures_are_named, headers_identify_slices, slices_follow, slices_follow_the_rules,
    slices_have_results,
};
pub use slices::is_last_slice;
