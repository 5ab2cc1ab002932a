//! The checkpoints of a step's run in a SQLite file: after a crash at any moment, the old list or the new one.
//!
//! - `checkpoint`: what is stored for a checkpoint interval. `list_end`: where a list ends, and its links. `numbered`: the list of those found.
//! - `table_schema`: whether a database is one of checkpoints. `reading`, `listing`: its list. `opening`: that of a connection that was just opened.
//!   `statements`: one checkpoint more. `error`: why a call fails.
//! - `files`: the list of two files, or of those at a path.
//! - `recording_disk`: a disk that knows what it was. `stop`: the machine stops. `cut`: it may stop in an open.
//! - `laws`: what the chain of digests shows.
#![tactic(auto)]

mod checkpoint;
mod cut;
mod error;
mod files;
mod laws;
mod list_end;
mod listing;
mod numbered;
mod opening;
mod reading;
mod recording_disk;
mod statements;
mod stop;
mod table_schema;

pub use checkpoint::Checkpoint;
pub use cut::{open_own, open_recording};
pub use error::StoreError;
pub use files::{closed, connect, open, open_files};
pub use laws::chains_identify_lists;
pub use list_end::ListEnd;
pub use listing::list;
pub use opening::{begin, opened_leaves_its_list, takes};
pub use recording_disk::{DiskHistory, RecordingDisk};
pub use statements::append;
pub use stop::{ProcessRun, stop_recording};
