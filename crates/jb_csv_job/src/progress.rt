//! The progress of a job.

use crate::history::{Event, note};
use crate::host::Host;
use crate::meter::Meter;
use crate::stopping::is_stopped;
use jb_slice_run::{Progress, ProgressListener};
use std::fmt;
use std::io::IsTerminal;
use std::time::Clock;

/// How far a job is at a checkpoint of a slice.
#[derive(Clone, Copy)]
struct ProgressText<'a> {
    slice: u64,
    done: u64,
    results: u64,
    record_word: &'a str,
    result_word: &'a str,
}

impl<'a> fmt::Display for ProgressText<'a> {
    ghost use Rattle.std.specs.Prelude.{Some};
    ghost use Rattle.jb_csv_job.specs.Reports.{progress_text};

    ghost output = { λ text. Some (progress_text text.slice text.done text.results text.record_word.now text.result_word.now) };

    fn fmt<W: fmt::Write>(&self, f: &mut fmt::Formatter<W>) -> fmt::Result {
        let ProgressText {
            slice,
            done,
            results,
            record_word,
            result_word,
        } = *self;
        write!(
            f,
            "slice {slice}: {done} {record_word} done, {results} {result_word}"
        )
    }
}

/// Clears the line that is written over, if standard error is a terminal.
pub(crate) fn clear_line<T: Eprint + Host>(rt: &T) {
    if rt.host().stderr().is_terminal() {
        let _cleared = eprint!(rt; "\r\x1b[K");
    }
}

/// Reports on standard error, at each checkpoint of a slice, the records done and the results of all slices so far, the share that is done, and the
/// pace. On a terminal it is one line, which is written over, else a line for each checkpoint. It writes the checkpoint to the folder's history. The
/// slice continues until FOLDER/stop is there.
#[derive(Drop)]
pub(crate) struct StderrProgress<'a, T> {
    pub rt: T,
    /// FOLDER.
    pub folder: &'a str,
    /// What the records are called, and the results.
    pub records: &'a str,
    pub results: &'a str,
    /// The slice's number.
    pub slice: u64,
    /// How many records of earlier slices are done, and how many results they have.
    pub records_before: u64,
    pub results_before: u64,
    /// How many records of the slice were done at its last reported checkpoint.
    pub listener: Option<u64>,
    pub meter: &'a mut Meter,
}

impl<'a, T: Clock + Eprint + Host> ProgressListener for StderrProgress<'a, T> {
    fn on_progress(&mut self, progress: Progress) -> bool {
        let more = match self.listener {
            Some(before) => progress.done.saturating_sub(before),
            None => 0,
        };
        self.listener = Some(progress.done);
        let text = ProgressText {
            slice: self.slice,
            done: self.records_before.saturating_add(progress.done),
            results: self.results_before.saturating_add(progress.results),
            record_word: self.records,
            result_word: self.results,
        };
        let pace = self.meter.tell(&self.rt, text.done, more);
        clear_line(&self.rt);
        let _told = if self.rt.host().stderr().is_terminal() {
            eprint!(self.rt; "{text}{pace}")
        } else {
            eprintln!(self.rt; "{text}{pace}")
        };
        let event = Event::Checkpoint {
            slice: self.slice,
            records: text.done,
            results: text.results,
        };
        note(self.rt.host(), self.folder, &event);
        !is_stopped(self.rt.host(), self.folder)
    }
}
