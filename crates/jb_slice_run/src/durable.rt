//! A slice of a job with its checkpoints in a file.
//!
//! - `slice`: a slice is run, or its end is collected. `resume_and_run`: it is resumed, and intervals are added. `resumed`: the run after the
//!   stored checkpoints. `intervals`: one interval after the other, each stored before the next begins. `loop_end`: why they ended. `end`: how the
//!   slice ended, with its faults.
//! - `process_runs`: any number of process runs that end in a crash, and a last one.
//! - `listener`: gets reports of how far the slice is. `seen`: a run in memory, as contracts see it.

mod end;
mod intervals;
mod listener;
mod loop_end;
mod process_runs;
mod resume_and_run;
mod resumed;
mod seen;
mod slice;

pub use end::SliceEnd;
pub use listener::{NoListener, Progress, ProgressListener};
pub use process_runs::{LastRun, Meaning, slice_through_crashes};
pub use slice::{collect_slice, run_slice};
