//! What a job reports if it has no answer.

use crate::failure::{CsvJobError, FolderFault, OutputFault, WordsFault};
use crate::path::SlicePath;
use crate::slice_text::{RunText, StoreText};
use jb_rows::RowsError;
use std::fmt;

/// What is wrong with the arguments of the command line.
#[derive(Clone, Copy)]
struct WordsText<'a, 'c> {
    input: &'a str,
    fault: &'c WordsFault,
}

impl<'a, 'c> fmt::Display for WordsText<'a, 'c> {
    ghost use Rattle.std.specs.Prelude.{Some};
    ghost use Rattle.jb_csv_job.specs.Failures.{words_text};

    ghost output = { λ text. Some (words_text text.input.now text.fault.now) };

    fn fmt<W: fmt::Write>(&self, f: &mut fmt::Formatter<W>) -> fmt::Result {
        let input = self.input;
        match self.fault {
            WordsFault::Threads(value) => write!(
                f,
                "Words: --threads {value}: type a number from 1 to 64."
            ),
            WordsFault::Records(value) => write!(
                f,
                "Words: --records {value}: type a number below 18,446,744,073,709,551,616."
            ),
            WordsFault::Bytes(value) => write!(
                f,
                "Words: --bytes {value}: type a number below 18,446,744,073,709,551,616."
            ),
            WordsFault::Sha256(value) => write!(
                f,
                "Words: --sha256 {value}: type 64 hexadecimal digits, as sha256sum prints them."
            ),
            WordsFault::Part(value) => write!(
                f,
                "Words: --part {value}: type K/N, where K is one of the numbers 0 to N - 1, as 0/4."
            ),
            WordsFault::PartAndCollect => f.write_str(
                "Words: --part runs slices, and --collect runs none. Type one of them.",
            ),
            WordsFault::PartAndOutput => f.write_str(
                "Words: --part writes no results. Type it without --output, and collect the results by --collect.",
            ),
            WordsFault::NoFolder => f.write_str("Words: FOLDER is missing."),
            WordsFault::NoText => f.write_str("Words: a word is no text in UTF-8."),
            WordsFault::Wrong(text) => write!(f, "Words: {text}"),
            WordsFault::SameFile { path, other } => write!(
                f,
                "SameFile: {path} is {other}. Beside each PATH is PATH.part. Name another one."
            ),
            WordsFault::ClosedInput => write!(
                f,
                "Stream: standard input is closed. Type the same line with < {input}."
            ),
            WordsFault::ClosedOutput => f.write_str(
                "Stream: standard output is closed. Type the same line with --output PATH, or without >&-.",
            ),
        }
    }
}

/// Why FOLDER isn't taken.
#[derive(Clone, Copy)]
struct FolderText<'b, 'c> {
    folder: &'b str,
    fault: &'c FolderFault,
}

impl<'b, 'c> fmt::Display for FolderText<'b, 'c> {
    ghost use Rattle.jb_csv_job.specs.Failures.{folder_text};

    ghost output = { λ text. folder_text text.folder.now text.fault.now };

    fn fmt<W: fmt::Write>(&self, f: &mut fmt::Formatter<W>) -> fmt::Result {
        let folder = self.folder;
        match self.fault {
            FolderFault::NotAFolder => write!(
                f,
                "NotAFolder: {folder} is no folder. Name another FOLDER: it is made if it isn't there."
            ),
            FolderFault::History => write!(
                f,
                "NotAFile: {folder}/history.jsonl is no regular file. Remove it, or name another FOLDER."
            ),
            FolderFault::CannotMake(error) => write!(
                f,
                "NoFolder: the folder {folder} can't be made: {error}. Mend this, or name another FOLDER."
            ),
            FolderFault::NotAllowed(error) => write!(
                f,
                "NotAllowed: the folder {folder} can't be made: {error}. Give leave to make it, or name another FOLDER."
            ),
            FolderFault::NotSynced(error) => write!(
                f,
                "NotSynced: the name of the folder {folder} can't be synced: {error}. Nothing was run. Mend this, or name another FOLDER."
            ),
        }
    }
}

/// Why the file of the results, or that of the list of skipped records, isn't written.
#[derive(Clone, Copy)]
struct OutputText<'a> {
    path: &'a str,
    why: &'a OutputFault,
}

impl<'a> fmt::Display for OutputText<'a> {
    ghost use Rattle.jb_csv_job.specs.Failures.{output_text};

    ghost output = { λ text. output_text text.path.now text.why.now };

    fn fmt<W: fmt::Write>(&self, f: &mut fmt::Formatter<W>) -> fmt::Result {
        let path = self.path;
        match self.why {
            OutputFault::NotAFile => write!(
                f,
                "NotAFile: {path} is no regular file. Name another one, or leave its option out."
            ),
            OutputFault::Busy => write!(
                f,
                "Busy: another process is writing {path}. Type the same line again when it has ended."
            ),
            OutputFault::Changed => write!(
                f,
                "Changed: {path}.part was changed by another process. Type the same line again when it has ended."
            ),
            OutputFault::NotAllowed(error) => write!(
                f,
                "NotAllowed: {path} can't be written: {error}. Give leave to write it, or name another PATH."
            ),
            OutputFault::CannotSync(error) => write!(
                f,
                "NotSynced: the folder of {path} can't be synced: {error}. Nothing was run. Mend this, or name another PATH."
            ),
            OutputFault::NotSynced(error) => write!(
                f,
                "NotSynced: {path} is whole, but its folder can't be synced: {error}. Type the same line again, or sync the folder."
            ),
            OutputFault::CannotWrite(error) => write!(
                f,
                "CannotWrite: {path} can't be written: {error}. Mend this, and type the same line again."
            ),
        }
    }
}

/// Why the records aren't read, or the results not written.
#[derive(Clone, Copy)]
struct RowsText<'a>(&'a RowsError);

impl<'a> fmt::Display for RowsText<'a> {
    ghost use Rattle.jb_csv_job.specs.Failures.{rows_text};

    ghost output = { λ text. rows_text text.0.now };

    fn fmt<W: fmt::Write>(&self, f: &mut fmt::Formatter<W>) -> fmt::Result {
        match self.0 {
            RowsError::TooLong { number } => write!(
                f,
                "TooLong: record {number} is too long. Correct it: often a quote isn't closed."
            ),
            RowsError::LongHeader => f.write_str(
                "TooLong: the header row is too long. Correct it: often a quote isn't closed.",
            ),
            RowsError::Stream(error) => write!(
                f,
                "Stream: a stream failed: {error}. Type the same line again."
            ),
            RowsError::Memory => f.write_str(
                "Memory: out of memory. Type the same line again when there is more.",
            ),
        }
    }
}

/// The input has another number of records than `--records` says.
#[derive(Clone, Copy)]
struct RecordsText<'a> {
    records: &'a str,
    asked: u64,
    read: u64,
    is_end: bool,
}

impl<'a> fmt::Display for RecordsText<'a> {
    ghost use Rattle.std.specs.Prelude.{Some};
    ghost use Rattle.jb_csv_job.specs.Failures.{records_text};

    ghost output = { λ text. Some (records_text text.records.now text.asked text.read text.is_end) };

    fn fmt<W: fmt::Write>(&self, f: &mut fmt::Formatter<W>) -> fmt::Result {
        let (asked, read, records) = (self.asked, self.read, self.records);
        if self.is_end {
            write!(
                f,
                "OtherNumber: the input has {read} {records}, and --records says {asked}. The last slice isn't run. Type the same line with the right input."
            )
        } else {
            write!(
                f,
                "OtherNumber: the input has {read} {records} at least, and --records says {asked}. Type the same line with the right input."
            )
        }
    }
}

/// Why a job has no answer, as it is reported: a text that begins with the name of the refusal.
#[derive(Clone, Copy)]
pub struct CsvJobErrorText<'a, 'b, 'c> {
    /// The names of the job's input and records, as `CsvJob` has them.
    pub input: &'a str,
    pub records: &'a str,
    /// FOLDER. It is empty as long as the arguments of the command line aren't read.
    pub folder: &'b str,
    pub failure: &'c CsvJobError,
}

impl<'a, 'b, 'c> fmt::Display for CsvJobErrorText<'a, 'b, 'c> {
    ghost use Rattle.jb_csv_job.specs.Failures.{job_failure_text};

    ghost output = { λ text. job_failure_text text.input.now text.records.now text.folder.now text.failure.now };

    fn fmt<W: fmt::Write>(&self, f: &mut fmt::Formatter<W>) -> fmt::Result {
        let CsvJobErrorText {
            input,
            records,
            folder,
            failure,
        } = *self;
        match failure {
            CsvJobError::Words(fault) => write!(f, "{}", WordsText { input, fault }),
            CsvJobError::Folder(fault) => write!(f, "{}", FolderText { folder, fault }),
            CsvJobError::NotAFile { slice } => write!(
                f,
                "NotAFile: slice {slice}, {}: the file or its log is no regular file. Remove it, or name another FOLDER.",
                SlicePath {
                    folder,
                    slice: *slice
                }
            ),
            CsvJobError::NotAllowed { slice, error } => write!(
                f,
                "NotAllowed: slice {slice}, {}: the file can't be opened to be read, written and locked: {error}. Give leave to use it, its log and FOLDER, or name another FOLDER.",
                SlicePath {
                    folder,
                    slice: *slice
                }
            ),
            CsvJobError::File { slice, error } => write!(
                f,
                "{}",
                StoreText {
                    at: SlicePath {
                        folder,
                        slice: *slice
                    },
                    error
                }
            ),
            CsvJobError::Slice { slice, error } => write!(
                f,
                "{}",
                RunText {
                    at: SlicePath {
                        folder,
                        slice: *slice
                    },
                    records,
                    error
                }
            ),
            CsvJobError::NotWhole { slice } => write!(
                f,
                "NotWhole: slice {slice}, {}: the slice isn't whole, and --collect runs nothing. Type the line that runs it, and then this one again.",
                SlicePath {
                    folder,
                    slice: *slice
                }
            ),
            CsvJobError::Records {
                asked,
                read,
                is_end,
            } => write!(
                f,
                "{}",
                RecordsText {
                    records,
                    asked: *asked,
                    read: *read,
                    is_end: *is_end
                }
            ),
            CsvJobError::NoRecords => write!(
                f,
                "NoRecords: the input has no {records}. Type the same line with the right input, or with --records 0."
            ),
            CsvJobError::OtherLength { asked, read } => write!(
                f,
                "OtherLength: the input has {read} bytes, and --bytes says {asked}. The last slice isn't run. Type the same line with the right input."
            ),
            CsvJobError::OtherDigest { asked, read } => write!(
                f,
                "OtherDigest: the SHA-256 digest of the input is {read}, and --sha256 says {asked}. The last slice isn't run. Type the same line with the right input."
            ),
            CsvJobError::NoLineEnd => f.write_str(
                "NoLineEnd: the last line of the input has no line end, so it may be cut. The last slice isn't run. Type the same line with the whole input. If it is whole, add --bytes or --sha256.",
            ),
            CsvJobError::Rows(error) => write!(f, "{}", RowsText(error)),
            CsvJobError::Output { path, why } => write!(
                f,
                "{}",
                OutputText {
                    path: path.as_str(),
                    why
                }
            ),
            CsvJobError::TooMany => write!(
                f,
                "TooMany: there are too many {records}: their numbers end at 18,446,744,073,709,551,615."
            ),
            CsvJobError::Memory => f.write_str(
                "Memory: out of memory. Type the same line again when there is more.",
            ),
        }
    }
}
