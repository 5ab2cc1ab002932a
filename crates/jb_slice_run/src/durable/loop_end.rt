//! Why the intervals of a run ended.

/// Why the intervals ended.
#[derive(Clone, Copy)]
pub(crate) enum LoopEnd {
    /// The slice is whole.
    Whole,
    /// Each partition has ended, and one failed.
    Failed,
    /// The listener stopped them.
    Stopped,
    /// All the intervals that were asked for are done.
    Intervals,
}
