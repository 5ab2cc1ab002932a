//! What a worker is given.

use jb_chunk::Task;

/// A task on a lane.
#[derive(Drop)]
pub struct Work<T = Task> {
    /// The lane's number.
    pub lane: u32,
    /// The task whose next chunk is to be attempted.
    pub task: T,
}
