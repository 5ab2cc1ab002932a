//! One slice's run, and its checkpoints as bytes and in a file.
//!
//! - `header`: what a header says. `fault`: a fault. `partition_output`: what is new of a partition.
//! - `strings`: these as strings. `reading`: strings as these. `coding`: lists of strings as bytes. `decoding`: bytes as lists of strings.
//! - `text`: a header as a text for people, `members`: members of such a text. `writing`: checkpoints as bytes.
//! - `lists`: a header that was read, and why it is refused. `intervals`: the intervals after it.
//! - `job`, `job_parts`: what a run of a slice needs of its job. `digest`: that of its items. `resuming`: a slice's run after its checkpoints.
//!   `resumable_run`: where it is, and one interval more, with the `faults` that are new. `pace`: how many rounds an interval takes.
//! - `named`: the faults that a slice's checkpoints name, as they come. `first`: the first of a list, and the others.
//! - `error`: why a slice has no end, isn't resumed, or has no next checkpoint. `laws`: what follows from the form.
//! - `row_laws`: the rows of a slice's step as progresses of its partitions.
//! - `durable`: a slice's run with its checkpoints in a file.
#![tactic(auto)]

mod coding;
mod decoding;
mod digest;
mod durable;
mod error;
mod fault;
mod faults;
mod first;
mod header;
mod intervals;
mod job;
mod job_parts;
mod laws;
mod lists;
mod members;
mod named;
mod pace;
mod partition_output;
mod reading;
mod resumable_run;
mod resuming;
mod row_laws;
mod strings;
mod text;
mod writing;

pub use durable::{
    LastRun, Meaning, NoListener, Progress, ProgressListener, SliceEnd, collect_slice, run_slice,
    slice_through_crashes,
};
pub use error::{IdentityPart, SliceError};
pub use fault::{Fault, PartitionFaults};
pub use header::{SliceHeader, SliceLimits};
pub use intervals::read_slice;
pub use job::SliceJob;
pub use laws::bytes_identify_checkpoints;
pub use lists::{HeaderLists, refuse_lowered};
pub use named::{PartitionFailure, SliceFaults, faults_of_slice};
pub use pace::{ASecond, Pace, Rounds};
pub use partition_output::{HeldSlice, PartitionOutput};
pub use resumable_run::{ResumableRun, Stage};
pub use resuming::resume;
pub use row_laws::rows_are_progress;
pub use writing::{header_checkpoint, interval_checkpoint};
