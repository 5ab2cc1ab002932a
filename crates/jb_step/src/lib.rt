//! A partitioned step over threads: its partitions move between threads at checkpoints, in rounds of least plans.
//!
//! - `preparing`: the plan of a step's partitions, their tasks, and the rows that it begins with: new ones or those of a stopped run.
//! - `step`: the step from its artifacts to its end; `pooled`: the same over one pool of workers for all its rounds.
//! - `rounds`: the plans, one after another, and their rounds. `callbacks`: the calls of the analyzer and the reducer.
//! - `saved`: the rows of a stopped step, their text, and reading it; `error`: why a step has no answer.
//! - `laws`, `worked`: what holds of every run of a step and of its restarts, and its definitions computed on whole steps.
#![tactic(auto)]

mod callbacks;
mod error;
mod laws;
mod pooled;
mod preparing;
mod rounds;
mod saved;
mod step;
mod worked;

pub use error::StepError;
pub use jb_cert::PlanNote;
pub use jb_saved::SavedPlace;
pub use laws::{
    headline, others_dont_count, overrides_start_fresh, partitions_run_alone, plans_can_be_run,
    restarts_go_on,
};
pub use pooled::run_pooled_step;
pub use preparing::prepare;
pub use preparing::prepared::Prepared;
pub use saved::{Saved, read_saved, saved_text, written_and_read};
pub use step::{StepEnd, run_step, run_step_by};
pub use worked::worked_rows;
