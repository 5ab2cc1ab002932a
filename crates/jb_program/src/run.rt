//! The run of a job.
//!
//! - `job`: the steps, one after another.
//! - `step`: a step over its threads, and `rounds`: its rounds, on their desk.
//! - `preparing`: what it begins with, by its partition plan.
//! - `settings`: what the partitions of a step have in common.
//! - `artifacts`: what each of them works with.
//! - `shared_reader`, `fault_plans`, `held`: what a partition's artifacts are made from.
//! - `reported`: the report of a step that was run.
//! - `laws`: what the crates below say of partitions.

mod artifacts;
mod fault_plans;
mod held;
mod job;
mod laws;
mod preparing;
mod report;
mod rounds;
mod settings;
mod shared_reader;
mod step;

pub use job::{restart_job, run_job};
