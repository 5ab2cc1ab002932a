//! How fast a job is, and how much longer it takes.

use crate::host::Host;
use jb_rows::numbers::number_of;
use std::time::{Clock, Duration, Instant};
use std::{fmt, fs};

/// What is known of a job's pace: the share that is done, the records a second, and the seconds that have passed and that are left.
#[derive(Clone, Copy)]
pub(crate) struct PaceText {
    share: Option<u64>,
    rate: Option<u64>,
    elapsed: Option<u64>,
    left: Option<u64>,
}

/// A number with a comma before it and a word after it, if there is one.
#[derive(Clone, Copy)]
struct PartText<'a> {
    number: Option<u64>,
    word: &'a str,
}

impl<'a> fmt::Display for PartText<'a> {
    ghost use Rattle.std.specs.Prelude.{Some};
    ghost use Rattle.jb_csv_job.specs.Reports.{part_text};

    ghost output = { λ text. Some (part_text text.number text.word.now) };

    fn fmt<W: fmt::Write>(&self, f: &mut fmt::Formatter<W>) -> fmt::Result {
        match self.number {
            Some(number) => write!(f, ", {number}{}", self.word),
            None => f.write_str(""),
        }
    }
}

impl fmt::Display for PaceText {
    ghost use Rattle.std.specs.Prelude.{Some};
    ghost use Rattle.jb_csv_job.specs.Reports.{pace_text};

    ghost output = { λ text. Some (pace_text text.share text.rate text.elapsed text.left) };

    fn fmt<W: fmt::Write>(&self, f: &mut fmt::Formatter<W>) -> fmt::Result {
        let share = PartText {
            number: self.share,
            word: "%",
        };
        let rate = PartText {
            number: self.rate,
            word: " a second",
        };
        let elapsed = PartText {
            number: self.elapsed,
            word: " s elapsed",
        };
        let left = PartText {
            number: self.left,
            word: " s left",
        };
        write!(f, "{share}{rate}{elapsed}{left}")
    }
}

/// How many bytes of standard input are read, and how many it has, if it is a file and the system says so.
fn input_of(host: &HostRuntime) -> Option<(u64, u64)> {
    let found = fs::metadata(host, "/dev/stdin").ok()?;
    if !found.is_file() {
        return None;
    }
    let text = fs::read_to_string(host, "/proc/self/fdinfo/0").ok()?;
    let (position, _) = text.as_str().split_once('\n')?;
    let read = number_of(position.strip_prefix("pos:\t")?.as_bytes())?;
    Some((read, found.len()))
}

/// About how many records the input has, if so many are in the first `read` of its `length` bytes.
fn records_by_bytes(records: u64, read: u64, length: u64) -> Option<u64> {
    let parts = read
        .min(length)
        .saturating_mul(1_000_000)
        .checked_div(length)?;
    records.saturating_mul(1_000_000).checked_div(parts)
}

fn millis(time: Duration) -> u64 {
    time.as_secs()
        .saturating_mul(1000)
        .saturating_add(time.subsec_millis() as u64)
}

/// How fast a job is.
#[derive(Clone, Copy, Debug)]
pub(crate) struct Meter {
    /// When the run began. None if the clock can't be read.
    begun: Option<Instant>,
    /// Since when it counts the records that it does itself.
    working: Option<Instant>,
    /// How many it did since then.
    ran: u64,
    /// How many records the input has, or about as many, if that is known.
    total: Option<u64>,
}

impl Meter {
    pub(crate) fn new<C: Clock>(clock: &C) -> Meter {
        Meter {
            begun: Instant::now(clock).ok(),
            working: None,
            ran: 0,
            total: None,
        }
    }

    /// So many records are read, perhaps all, and so many are said to be there.
    pub(crate) fn read<T: Host>(&mut self, rt: &T, said: Option<u64>, read: u64, is_last: bool) {
        if is_last {
            self.total = Some(read);
        } else if said.is_some() {
            self.total = said;
        } else if let Some((at, length)) = input_of(rt.host()) {
            self.total = records_by_bytes(read, at, length);
        }
    }

    /// So many records are done, `more` of them since the last checkpoint.
    pub(crate) fn tell<C: Clock>(&mut self, clock: &C, done: u64, more: u64) -> PaceText {
        let now = Instant::now(clock).ok();
        if self.working.is_none() {
            self.working = now;
        }
        self.ran = self.ran.saturating_add(more);
        let rate = match (now, self.working) {
            (Some(now), Some(since)) => self
                .ran
                .saturating_mul(1000)
                .checked_div(millis(now.duration_since(since))),
            _ => None,
        };
        let rate = match rate {
            Some(0) => None,
            known => known,
        };
        let elapsed = match (now, self.begun) {
            (Some(now), Some(begun)) => Some(now.duration_since(begun).as_secs()),
            _ => None,
        };
        PaceText {
            share: share_of(done, self.total),
            rate,
            elapsed,
            left: left_of(done, self.total, rate),
        }
    }
}

/// How many of a hundred are done.
fn share_of(done: u64, total: Option<u64>) -> Option<u64> {
    let total = total?;
    done.min(total).saturating_mul(100).checked_div(total)
}

/// How many seconds the others take.
fn left_of(done: u64, total: Option<u64>, rate: Option<u64>) -> Option<u64> {
    total?.saturating_sub(done).checked_div(rate?)
}
