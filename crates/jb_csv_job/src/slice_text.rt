//! What is reported of a slice whose file or run is refused.

ghost use Rattle.std.specs.Prelude.{◌≡◌};
ghost use Rattle.jb_csv_job.specs.SliceTexts.{part_what, store_name};

use crate::path::SlicePath;
use jb_records::RecordsStepError;
use jb_slice_file::StoreError;
use jb_slice_run::{IdentityPart, SliceError};
use jb_step::StepError;
use sqlite::Error as SqlError;
use std::fmt;

const NO_MEMORY: &str =
    "out of memory. Type the same line again when there is more, or with fewer threads.";

fn store_name(error: &StoreError) -> &'static str
    ensures { result.now ≡ store_name error.now }
{
    match error {
        StoreError::Foreign => "Foreign",
        StoreError::Version => "Version",
        StoreError::Gap => "Gap",
        StoreError::Altered(_) | StoreError::Damaged => "Damaged",
        StoreError::Busy => "Busy",
        StoreError::CannotOpen => "CannotOpen",
        StoreError::Full => "Full",
        StoreError::Disk => "Disk",
        StoreError::Shut => "Shut",
        StoreError::TooLong => "TooLong",
        StoreError::Taken => "Taken",
        StoreError::TooMany => "TooMany",
        StoreError::Memory => "Memory",
        StoreError::Sql(SqlError::Utf8Error(_)) => "Damaged",
        StoreError::Sql(_) => "Sql",
    }
}

/// What is wrong with a slice's file, and what to do.
#[derive(Clone, Copy)]
struct StoreWhat<'a>(&'a StoreError);

impl<'a> fmt::Display for StoreWhat<'a> {
    ghost use Rattle.std.specs.Prelude.{Some};
    ghost use Rattle.jb_csv_job.specs.SliceTexts.{store_what};

    ghost output = { λ what. Some (store_what what.0.now) };

    fn fmt<W: fmt::Write>(&self, f: &mut fmt::Formatter<W>) -> fmt::Result {
        f.write_str(match self.0 {
            StoreError::Foreign =>
                "the file is another program's: it has no table of checkpoints. Name another FOLDER.",
            StoreError::Version =>
                "the checkpoints are in another form, of another version. Finish the job with that version, or name another FOLDER.",
            StoreError::Gap =>
                "a checkpoint is missing. Restore the file and its log from a copy, or delete both: the slice then runs again.",
            StoreError::Altered(number) => return write!(
                f,
                "checkpoint {number} was changed. Restore the file and its log from a copy, or delete both: the slice then runs again."
            ),
            StoreError::Damaged =>
                "the file is no database, or a damaged one. Restore the file and its log from a copy, or delete both: the slice then runs again.",
            StoreError::Busy =>
                "another process has the file open. Type the same line again when it has ended.",
            StoreError::CannotOpen =>
                "the file can't be opened to be read and written. Look at the room on the disk, and type the same line again.",
            StoreError::Full => "the disk is full. Make room, and type the same line again.",
            StoreError::Disk =>
                "the disk failed. Type the same line again, or restore the file and its log from a copy.",
            StoreError::Shut =>
                "the disk failed earlier, and the file was shut. Type the same line again.",
            StoreError::TooLong =>
                "a checkpoint is longer than a row may be. Ask the author of the job for shorter slices.",
            StoreError::Taken =>
                "another process wrote the same checkpoint. Type the same line again.",
            StoreError::TooMany =>
                "there are 4,294,967,295 checkpoints. Delete the file and its log: the slice then runs again.",
            StoreError::Memory => NO_MEMORY,
            // Only the text of a checkpoint is read as UTF-8.
            StoreError::Sql(SqlError::Utf8Error(_)) =>
                "a checkpoint can't be read. Restore the file and its log from a copy, or delete both: the slice then runs again.",
            StoreError::Sql(_) => "SQLite refused a statement.",
        })
    }
}

/// Why the file of a slice isn't taken.
#[derive(Clone, Copy)]
pub(crate) struct StoreText<'b, 'c> {
    pub at: SlicePath<'b>,
    pub error: &'c StoreError,
}

impl<'b, 'c> fmt::Display for StoreText<'b, 'c> {
    ghost use Rattle.jb_csv_job.specs.SliceTexts.{store_text};

    ghost output = { λ text. store_text text.at.folder.now text.at.slice text.error.now };

    fn fmt<W: fmt::Write>(&self, f: &mut fmt::Formatter<W>) -> fmt::Result {
        let at = self.at;
        match self.error {
            StoreError::Sql(error) if !matches!(error, SqlError::Utf8Error(_)) => {
                write!(
                    f,
                    "Sql: slice {}, {at}: SQLite refused a statement: {error}",
                    at.slice
                )
            }
            error => write!(
                f,
                "{}: slice {}, {at}: {}",
                store_name(error),
                at.slice,
                StoreWhat(error)
            ),
        }
    }
}

fn part_what(part: &IdentityPart) -> &'static str
    ensures { result.now ≡ part_what part.now }
{
    match part {
        IdentityPart::Name => "another name",
        IdentityPart::SliceLength => "another slice length",
        IdentityPart::Partitions => "another number of partitions",
        IdentityPart::ItemCount => "another item count",
        IdentityPart::Classes => "other classes of faults",
    }
}

/// Why the step of a slice has no end.
#[derive(Clone, Copy)]
struct StepText<'a, 'b, 'c> {
    at: SlicePath<'b>,
    records: &'a str,
    error: &'c RecordsStepError,
}

impl<'a, 'b, 'c> fmt::Display for StepText<'a, 'b, 'c> {
    ghost use Rattle.jb_csv_job.specs.SliceTexts.{step_text};

    ghost output = { λ text. step_text text.at.folder.now text.records.now text.at.slice text.error.now };

    fn fmt<W: fmt::Write>(&self, f: &mut fmt::Formatter<W>) -> fmt::Result {
        let (at, slice) = (self.at, self.at.slice);
        match self.error {
            RecordsStepError::Records => write!(
                f,
                "TooMany: slice {slice}, {at}: a slice has more than 10,000,000 {}. Ask the author of the job for shorter slices.",
                self.records
            ),
            RecordsStepError::Results => write!(
                f,
                "Damaged: slice {slice}, {at}: a checkpoint has other results than it counts. Restore the file and its log from a copy, or delete both: the slice then runs again."
            ),
            RecordsStepError::SkippedTry => write!(
                f,
                "SkippedTry: slice {slice}, {at}: a first try fails with a class that is skipped. Ask the author of the job."
            ),
            RecordsStepError::Step(StepError::Workers) => write!(
                f,
                "Workers: slice {slice}, {at}: a thread can't be started. Type the same line again later, or with fewer threads."
            ),
            RecordsStepError::Step(StepError::Memory) | RecordsStepError::Memory => write!(
                f,
                "Memory: slice {slice}, {at}: {NO_MEMORY}"
            ),
            RecordsStepError::Step(error) => write!(
                f,
                "Step: slice {slice}, {at}: the step can't be run: {error}"
            ),
        }
    }
}

/// Of which other job the checkpoints are, and what to do.
#[derive(Clone, Copy)]
struct OtherJobWhat<'c> {
    part: &'c IdentityPart,
}

impl<'c> fmt::Display for OtherJobWhat<'c> {
    ghost use Rattle.std.specs.Prelude.{Some};
    ghost use Rattle.jb_csv_job.specs.SliceTexts.{other_job_what};

    ghost output = { λ what. Some (other_job_what what.part.now) };

    fn fmt<W: fmt::Write>(&self, f: &mut fmt::Formatter<W>) -> fmt::Result {
        write!(
            f,
            "the checkpoints are of a job with {}. Name another FOLDER, or finish that job with its own program.",
            part_what(self.part)
        )
    }
}

/// Why the run of a slice has no end.
#[derive(Clone, Copy)]
pub(crate) struct RunText<'a, 'b, 'c> {
    pub at: SlicePath<'b>,
    pub records: &'a str,
    pub error: &'c SliceError,
}

impl<'a, 'b, 'c> fmt::Display for RunText<'a, 'b, 'c> {
    ghost use Rattle.jb_csv_job.specs.SliceTexts.{run_text};

    ghost output = { λ text. run_text text.at.folder.now text.records.now text.at.slice text.error.now };

    fn fmt<W: fmt::Write>(&self, f: &mut fmt::Formatter<W>) -> fmt::Result {
        let (at, records, slice) = (self.at, self.records, self.at.slice);
        match self.error {
            SliceError::Store(error) => write!(f, "{}", StoreText { at, error }),
            SliceError::Step(error) => write!(f, "{}", StepText { at, records, error }),
            SliceError::OtherJob(part) => {
                write!(
                    f,
                    "OtherJob: slice {slice}, {at}: {}",
                    OtherJobWhat { part }
                )
            }
            SliceError::OtherSlice => write!(
                f,
                "OtherSlice: slice {slice}, {at}: the checkpoints are of another slice. Give each file its own name again."
            ),
            SliceError::OtherItems => write!(
                f,
                "OtherRecords: slice {slice}, {at}: the checkpoints are of other {records}. Type the same line with the input that the slice began with, or name another FOLDER."
            ),
            SliceError::OtherStamp => write!(
                f,
                "OtherStamp: slice {slice}, {at}: the checkpoints are of a function with another stamp. If its results are still right, add --keep-stamp with that stamp. Else name another FOLDER."
            ),
            SliceError::LoweredLimit => write!(
                f,
                "LoweredLimit: slice {slice}, {at}: a limit is lower than when the slice ran. Raise it again, or name another FOLDER."
            ),
            SliceError::Damaged => write!(
                f,
                "Damaged: slice {slice}, {at}: a checkpoint can't be read. Restore the file and its log from a copy, or delete both: the slice then runs again."
            ),
            SliceError::TooLong => write!(
                f,
                "TooLong: slice {slice}, {at}: a checkpoint has more than 4,294,967,295 bytes or texts. Ask the author of the job for shorter slices."
            ),
            SliceError::NoNumbers => write!(
                f,
                "TooMany: slice {slice}, {at}: there are too many {records}: their numbers end at 18,446,744,073,709,551,615."
            ),
            SliceError::TooMany => write!(
                f,
                "{}",
                StoreText {
                    at,
                    error: &StoreError::TooMany
                }
            ),
            SliceError::Stopped => write!(
                f,
                "Stopped: slice {slice}, {at}: {}/stop is there. What was done is stored. Remove it, and type the same line again.",
                at.folder
            ),
            SliceError::Memory => write!(f, "Memory: slice {slice}, {at}: {NO_MEMORY}"),
        }
    }
}
