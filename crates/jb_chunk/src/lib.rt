//! One attempt at the next chunk of a partition, and a partition's attempts run alone.
//!
//! - `partition_task`: what a partition's task is to the crates above.
//! - `task`: a row with its rules and artifacts, `partition_artifacts`, and a chunk's results, `chunk_results`.
//! - `packed`: the calls of a chunk where records are lent and results packed; `boxed`: such artifacts in one box.
//! - `laws`: what holds of a task's attempts, wherever they lead.
//! - `outcome`: how an attempt ends.
//! - `alone`: a task's attempts, one after another.
//! - `block`: one chunk tried to its end.
//! - `gather`: its records, read and processed one by one; each has an entry of some kind, `entry`, and those that are
//!   skipped are counted, `tally`.
//! - `repeat`: its calls, repeated in place.
//! - `checkpoint`: reader and writer, opened again.
#![tactic(auto)]

mod alone;
mod block;
mod boxed;
mod checkpoint;
mod chunk_results;
mod entry;
mod gather;
mod laws;
mod outcome;
mod packed;
mod partition_artifacts;
mod partition_task;
mod repeat;
mod tally;
mod task;

pub use alone::{Alone, AloneEnd, run_alone};
pub use boxed::BoxedArtifacts;
pub use chunk_results::{ChunkResults, ItemResults};
pub use laws::{
    attempts_are_steps, repeats_need_a_class, runs_end_alike, runs_lead_to_an_end, tasks_go_on,
    tasks_stand_at_checkpoints, tasks_stay_ready,
};
pub use outcome::{Done, Outcome};
pub use partition_artifacts::PartitionArtifacts;
pub use partition_task::PartitionTask;
pub use task::Task;
