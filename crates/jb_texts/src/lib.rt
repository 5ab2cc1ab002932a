//! What the program writes: the report of a run, the lines of a plan, and what was found of a plan.
//!
//! - `status`: the status of a step or a job, and the exit status.
//! - `report`: the report of a run, which is written as JSON text while the job runs.
//! - `plan`: the heading and the lines of a plan of rounds.
//! - `judgement`: two lines on a plan and its certificate.
//! - `block`: text that is written in blocks.
//! - `whole`: writing a text, and what is written if the writer fails.
#![tactic(auto)]

mod block;
mod judgement;
mod plan;
mod report;
mod status;
mod whole;

pub use block::BLOCK_ROOM;
pub use judgement::Judgement;
pub use plan::write_plan;
pub use report::{ReportText, StepsText};
pub use status::{status_code, status_name};
pub use whole::{write_joined, write_whole};
