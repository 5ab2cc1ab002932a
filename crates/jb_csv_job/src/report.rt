//! Which records were skipped, and which failed.

ghost use Rattle.std.specs.Prelude.{◌≡◌, ◌+◌};
ghost use Rattle.jb_csv_job.specs.Reports.{line_at, named_skips};

use crate::history::{Event, note, skips_by_class};
use crate::host::Host;
use crate::job::CsvJob;
use crate::meter::Meter;
use crate::progress::clear_line;
use jb_ready::{FaultClass, name_of};
use jb_slice_run::{Fault, PartitionFailure, SliceEnd};
use std::fmt;
use std::time::Clock;

/// How many skipped records are named.
const MOST_NAMED: u64 = 10;

/// A skipped record: its number, the first being 0, the line in which it begins, the first being 1, and the name of its class.
#[derive(Clone, Copy)]
struct SkipText<'a> {
    number: u64,
    line: u64,
    class: &'a str,
}

impl<'a> fmt::Display for SkipText<'a> {
    ghost use Rattle.std.specs.Prelude.{Some};
    ghost use Rattle.jb_csv_job.specs.Reports.{skip_text};

    ghost output = { λ text. Some (skip_text text.number text.line text.class.now) };

    fn fmt<W: fmt::Write>(&self, f: &mut fmt::Formatter<W>) -> fmt::Result {
        let SkipText {
            number,
            line,
            class,
        } = *self;
        write!(f, "record {number} (line {line}) is skipped: {class}")
    }
}

/// So many more are skipped.
#[derive(Clone, Copy)]
struct OthersText<'a> {
    others: u64,
    records: &'a str,
}

impl<'a> fmt::Display for OthersText<'a> {
    ghost use Rattle.std.specs.Prelude.{Some};
    ghost use Rattle.jb_csv_job.specs.Reports.{others_text};

    ghost output = { λ text. Some (others_text text.others text.records.now) };

    fn fmt<W: fmt::Write>(&self, f: &mut fmt::Formatter<W>) -> fmt::Result {
        write!(f, "{} more {} are skipped", self.others, self.records)
    }
}

/// The record by which a partition failed.
#[derive(Clone, Copy)]
struct FailText<'a> {
    slice: u64,
    partition: u32,
    number: u64,
    line: u64,
    class: &'a str,
}

impl<'a> fmt::Display for FailText<'a> {
    ghost use Rattle.std.specs.Prelude.{Some};
    ghost use Rattle.jb_csv_job.specs.Reports.{fail_text};

    ghost output = { λ text. Some (fail_text text.slice text.partition text.number text.line text.class.now) };

    fn fmt<W: fmt::Write>(&self, f: &mut fmt::Formatter<W>) -> fmt::Result {
        let FailText {
            slice,
            partition,
            number,
            line,
            class,
        } = *self;
        write!(
            f,
            "slice {slice}, partition {partition}: record {number} (line {line}) fails: {class}"
        )
    }
}

/// The line in which the record of this number begins, if `first` is the number of the first of these records; 0 if it isn't among them.
pub(crate) fn line_at(lines: &[u64], first: u64, number: u64) -> u64
    ensures { result ≡ line_at lines.now first number }
{
    let place = number.saturating_sub(first) as usize;
    lines.get(place).copied().unwrap_or(0)
}

/// Those of a slice's skipped records that are named, after so many skipped ones of earlier slices.
fn named_of(before: u64, skips: &[Fault]) -> &[Fault]
    ensures { result.now ≡ named_skips before skips.now }
{
    let room = MOST_NAMED.saturating_sub(before) as usize;
    if room < skips.len() {
        &skips[..room]
    } else {
        skips
    }
}

/// Reports on standard error which records were skipped, and which failed. The first ten skipped ones of the job are named, and the others
/// counted.
#[derive(Drop)]
pub(crate) struct Reporter {
    /// How many records were skipped so far.
    skips: u64,
    meter: Meter,
}

impl Reporter {
    /// Of a run that begins now.
    pub(crate) fn new<T: Clock>(rt: &T) -> Reporter {
        Reporter {
            skips: 0,
            meter: Meter::new(rt),
        }
    }

    /// The meter of the run, if so many records are read, perhaps all, and so many are said to be there.
    pub(crate) fn meter<T: Host>(
        &mut self,
        rt: &T,
        said: Option<u64>,
        read: u64,
        is_last: bool,
    ) -> &mut Meter {
        self.meter.read(rt, said, read, is_last);
        &mut self.meter
    }

    /// Reports the end of a slice, and writes it to the history of FOLDER. `lines` has the line of each of its records.
    pub(crate) fn report<T: Eprint + Host>(
        &mut self,
        rt: &T,
        job: &CsvJob,
        folder: &str,
        slice: u64,
        lines: &[u64],
        end: &SliceEnd,
    ) {
        note_slice(rt.host(), job, folder, slice, end);
        clear_line(rt);
        let first = slice.saturating_mul(job.slice_length);
        for fault in named_of(self.skips, &end.skips) {
            let text = SkipText {
                number: fault.number,
                line: line_at(lines, first, fault.number),
                class: name_of(job.classes, fault.class),
            };
            let _reported = eprintln!(rt; "{text}");
        }
        self.skips = self.skips.saturating_add(end.skips.len() as u64);
        for failure in &end.failures {
            report_failure(rt, job.classes, slice, first, lines, failure);
        }
    }

    /// Reports how many skipped records weren't named.
    pub(crate) fn finish<T: Eprint + Host>(&self, rt: &T, job: &CsvJob) {
        let others = self.skips.saturating_sub(MOST_NAMED);
        if others > 0 {
            clear_line(rt);
            let text = OthersText {
                others,
                records: job.records,
            };
            let _reported = eprintln!(rt; "{text}");
        }
    }
}

/// Reports that the last line of the input has no line end, if it has none.
pub(crate) fn report_open_end<T: Eprint + Host>(rt: &T, ends_open: bool) {
    if ends_open {
        clear_line(rt);
        let _reported = eprintln!(rt;
            "the last line of the input has no line end; --bytes and --sha256 refuse an input that was cut"
        );
    }
}

/// Writes the end of a slice to the history of FOLDER.
fn note_slice(host: &HostRuntime, job: &CsvJob, folder: &str, slice: u64, end: &SliceEnd) {
    if let Ok(skips) = skips_by_class(host.alloc(), job.classes, &end.skips) {
        let event = Event::Slice {
            slice,
            skips: skips.as_slice(),
            failed: end.failures.len() as u64,
        };
        note(host, folder, &event);
    }
}

/// Reports the record by which a partition failed.
fn report_failure<T: Eprint>(
    rt: &T,
    classes: &[FaultClass],
    slice: u64,
    first: u64,
    lines: &[u64],
    failure: &PartitionFailure,
) {
    let text = FailText {
        slice,
        partition: failure.partition,
        number: failure.fault.number,
        line: line_at(lines, first, failure.fault.number),
        class: name_of(classes, failure.fault.class),
    };
    let _reported = eprintln!(rt; "{text}");
}
