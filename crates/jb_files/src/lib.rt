//! The files and the standard streams of a program: which are closed, which paths name one file, and which are regular files.
//!
//! - `streams`: the standard streams that are closed. `node`: which file a path names. `own`: the files of a job over CSV, of which no two are
//!   one. `opening`: a regular file, open to be written, without a wait; and why a database isn't opened. `folders`: folders whose names outlive a
//!   power cut. `lasting`: failures that last.
#![tactic(auto)]

mod folders;
mod lasting;
mod node;
mod opening;
mod own;
mod streams;

pub use folders::{MakeFault, make_folder, synced_folder};
pub use lasting::lasts;
pub use node::{Node, node_at};
pub use opening::{FileFault, is_named, is_other, open_again, open_to_append};
pub use own::{SameFile, find_same_file};
pub use streams::{ClosedStreams, hold_closed_streams};
