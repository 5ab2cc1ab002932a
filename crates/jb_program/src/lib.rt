//! The program over any arguments, any reader and any two writers: it runs a batch job, plans rounds of chunks or checks such
//! a plan, from a JSON document. `batchrun` hands it the process's own, through `jb_process`.
//!
//! - `words`: the command line, and what each subcommand does.
//! - `run`: the run of a job, its steps and their partitions.
//! - `streams`: the document's bytes, and why there is no answer.
//! - `program`: what the arguments ask, done, and the exit status.
#![tactic(auto)]

mod program;
mod run;
mod streams;
mod words;

pub use program::{answer_request, perform, request_of, status_of};
pub use streams::{ProgramError, unread};
pub use words::{Line, Request, Word};
