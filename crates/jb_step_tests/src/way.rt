//! The two ways in which the tests run rounds.

/// Where the threads of a round come from.
#[derive(Clone, Copy, Debug, PartialEq, Eq)]
pub(crate) enum Way {
    /// A thread is started for each of its works but one, and joined after it.
    NewThreads,
    /// The workers of a pool do them, which a step keeps between its rounds.
    KeptWorkers,
}

pub(crate) const BOTH_WAYS: [Way; 2] = [Way::NewThreads, Way::KeptWorkers];
