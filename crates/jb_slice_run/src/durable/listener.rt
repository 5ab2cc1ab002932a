//! Reports of how far a slice is.

use jb_rules::Row;

/// How far a slice is, as its last checkpoint says.
#[derive(Clone, Copy, Debug, PartialEq, Eq)]
pub struct Progress {
    /// How many items there are.
    pub records: u64,
    /// How many of them are done.
    pub done: u64,
    /// How many results are written.
    pub results: u64,
}

/// Gets a report after each checkpoint of an interval, once it is stored. A process run that resumes after such a checkpoint reports it before its
/// first interval.
pub trait ProgressListener {
    /// Whether the slice continues. If not, the run is stopped here, unless the slice is whole or has failed.
    fn on_progress(&mut self, progress: Progress) -> bool;
}

/// A listener that ignores the reports and never stops the slice.
#[derive(Clone, Copy, Debug, PartialEq, Eq)]
pub struct NoListener;

impl ProgressListener for NoListener {
    fn on_progress(&mut self, _progress: Progress) -> bool {
        true
    }
}

/// How far these partitions are.
pub(crate) fn progress_of(rows: &[Row], records: usize) -> Progress {
    let mut progress = Progress {
        records: records as u64,
        done: 0,
        results: 0,
    };
    for row in rows {
        progress.done = progress.done.saturating_add(row.at.saturating_sub(row.lo));
        progress.results = progress.results.saturating_add(row.written);
    }
    progress
}
