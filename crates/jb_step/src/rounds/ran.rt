//! What the rounds of a step have left so far.

use jb_base::ClassId;
use jb_cert::PlanNote;

/// What the rounds of a step have left so far.
#[derive(Drop)]
pub(crate) struct Ran<T> {
    /// The tasks, each in the place of its partition.
    pub held: Vec<Option<T>>,
    /// The plans that are over, the first one first; at the end all of them.
    pub notes: Vec<PlanNote>,
    /// The fault that the analyzer answered, if it did.
    pub fault: Option<ClassId>,
    /// How many rounds were run.
    pub rounds: u64,
    /// How many attempts were made.
    pub attempts: u64,
    /// The partition of the last round of one slot; the next one's is near it. 0 before the first such round.
    pub near: u32,
    /// Whether the rounds ended before the tasks.
    pub stopped: bool,
}
