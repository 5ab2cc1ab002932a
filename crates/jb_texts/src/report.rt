//! The report of a run, as one JSON text.
//!
//! The text grows while the job runs, without the results: these stay as the writers held them. They are written at the end, between the
//! parts of the text.
//!
//! - `text`: bytes as a text.
//! - `heard`: what the analyzer heard.
//! - `parts`: a part of the text, and results after it.
//! - `outputs`: the results of a partition, written in blocks.
//! - `plans`: the plans of a step's rounds.
//! - `reducer`: the calls of a step's reducer.
//! - `steps`: the reports of the steps, one after another.
//! - `finished`: the whole text.

mod finished;
mod heard;
mod outputs;
mod parts;
mod plans;
mod reducer;
mod steps;
mod text;

pub use finished::ReportText;
pub use steps::StepsText;
