//! A job over CSV, from the arguments of its command line to its exit status. Records are read slice by slice, and go through one function in a
//! step. A file for each slice stores its checkpoints. The results are written slice by slice. After a crash the same line resumes the job.
//!
//! - `job`: what a job is. `job_main`: all of a `main`. `run`: a job over two streams; `next`: one slice after the other.
//! - `words`, `command`, `line`, `values`, `asked`: the command line, and what it asks. `opening`: FOLDER is made.
//! - `measured`, `same_input`: the input's length and digest, and whether they are those that are asked for.
//! - `reading`: the records of a slice. `work`, `one_slice`: a slice over its file; `folder`, `path`: its path. `kinds`: files of another kind.
//! - `giving`, `sink`, `output`: results to their taker. `tally`: what is counted from slice to slice.
//! - `stored`, `keeper`: what files hold before and after, as contracts see it.
//! - `report`, `progress`, `meter`: lines on standard error. `skipped`: the list of skipped records.
//! - `history`: the folder's history. `stopping`: the file that stops a job.
//! - `exit`: the status; `failure`: why there is no answer, with `failure_status`, `failure_text`, `slice_text` and `reason`.
#![tactic(auto)]

mod asked;
mod command;
mod exit;
mod failure;
mod failure_status;
mod failure_text;
mod folder;
mod giving;
mod history;
mod host;
mod job;
mod job_main;
mod keeper;
mod kinds;
mod laws;
mod line;
mod measured;
mod meter;
mod next;
mod one_slice;
mod opening;
mod output;
mod path;
mod progress;
mod reading;
mod reason;
mod report;
mod run;
mod same_input;
mod sink;
mod skipped;
mod slice_text;
mod stopping;
mod stored;
mod tally;
mod values;
mod words;
mod work;

pub use asked::{Asked, OwnOption, Request, Task};
pub use exit::exit_code;
pub use failure::{CsvJobError, FolderFault, OutputFault, WordsFault};
pub use failure_text::CsvJobErrorText;
pub use folder::slice_path;
pub use host::Host;
pub use jb_ready::{Fate, FaultClass};
pub use job::{CsvJob, DEFAULT_SLICE_LENGTH};
pub use job_main::run_job;
pub use keeper::{Keeper, Watches};
pub use laws::crashes_are_resumed;
pub use measured::{Measure, Measured, Measures};
pub use opening::ready_folder;
pub use output::Output;
pub use path::SlicePath;
pub use run::{JobEnd, run_csv_job, run_slices};
pub use sink::{CsvSink, Sink};
pub use skipped::{begin_list, close_list, end_list, open_list};
pub use stored::Stored;
pub use words::asked_of;
