//! A step over records in memory, made of one function: threads, chunks, skips, retries, a stop and a restart.
//!
//! - `step_function`: what is done to each record. `first_tries`: a function whose first tries fail, for a simulation.
//! - `run`: the step in one call; `end`: how it ended; `job`: what the calls are made of.
//! - `records_run`: a run that stays in memory between its intervals; `interval`: one of these; `interval_end`: what stays in memory at its
//!   end; `new_results`: what is new in it.
//! - `step`: how it runs its records. `artifacts`: what its partitions work with, with `records_reader` and `records_processor`.
//!   `partition_results`: the results of each.
//! - `refusals`: whether a record is refused; `skips`: which records were skipped. `failures`: with which fault each failed partition
//!   failed; `stops`: by which record one fails.
//! - `laws`: what comes of it. `error`: why it has no end.
#![tactic(auto)]

mod artifacts;
mod end;
mod error;
mod failures;
mod first_tries;
mod interval;
mod interval_end;
mod job;
mod laws;
mod new_results;
mod partition_results;
mod records_processor;
mod records_reader;
mod records_run;
mod refusals;
mod run;
mod skips;
mod step;
mod step_function;
mod stops;

pub use end::RecordsEnd;
pub use error::RecordsStepError;
pub use failures::FailedPartition;
pub use first_tries::{FirstTries, Shaky};
pub use interval::Interval;
pub use laws::{results_go_on, rules_are_kept, skips_are_counted, steps_keep_results};
pub use records_run::{HasRunState, RecordsRun};
pub use run::{StoppedRun, run_records};
pub use step::RecordsStep;
pub use step_function::StepFunction;
pub use stops::stop_of;
