//! Why there is no answer.

ghost use Rattle.std.specs.Prelude.{◌≡◌};
ghost use Rattle.jb_csv_job.specs.SystemFaults.{folder_fault};
ghost use Rattle.jb_csv_job.specs.declared.failure.CsvJobError.TheVariants.{Memory, Rows};

use jb_files::{MakeFault, lasts};
use jb_rows::RowsError;
use jb_slice_file::StoreError;
use jb_slice_run::SliceError;
use std::alloc::{AllocError, AllocFailed};
use std::io;
use thiserror::Error;

/// What is wrong with the arguments of the command line, or with the streams that it gives.
#[derive(Debug, Drop)]
pub enum WordsFault {
    /// The value of `--threads` is no number from 1 to 64.
    Threads(String),
    /// The value of `--records` is no number below 2^64.
    Records(String),
    /// The value of `--bytes` is no number below 2^64.
    Bytes(String),
    /// The value of `--sha256` isn't 64 hexadecimal digits.
    Sha256(String),
    /// The value of `--part` isn't K/N with K below N.
    Part(String),
    /// There are `--part` and `--collect`.
    PartAndCollect,
    /// There are `--part` and `--output`: a part writes no results.
    PartAndOutput,
    /// FOLDER is missing.
    NoFolder,
    /// An argument is no text in UTF-8.
    NoText,
    /// `clap` refuses them: its own text.
    Wrong(String),
    /// They name one file where the job needs two: what the other one is.
    SameFile { path: String, other: String },
    /// Standard input is closed.
    ClosedInput,
    /// Standard output is closed, and something is to be written there.
    ClosedOutput,
}

/// Why FOLDER isn't taken.
#[derive(Debug, Drop)]
pub enum FolderFault {
    /// There is something else of that name.
    NotAFolder,
    /// Its history is no regular file.
    History,
    /// It can't be made, or looked at. This may pass.
    CannotMake(io::Error),
    /// The same, and it lasts.
    NotAllowed(io::Error),
    /// Its name can't be synced, so a power cut might take the folder away. Nothing is run.
    NotSynced(io::Error),
}

impl From<MakeFault> for FolderFault {
    ghost from_gives = { λ fault own. own ≡ folder_fault fault };

    fn from(fault: MakeFault) -> FolderFault {
        match fault {
            MakeFault::NotAFolder => FolderFault::NotAFolder,
            MakeFault::System(error) => {
                if lasts(&error) {
                    FolderFault::NotAllowed(error)
                } else {
                    FolderFault::CannotMake(error)
                }
            }
            MakeFault::NotSynced(error) => FolderFault::NotSynced(error),
        }
    }
}

/// Why the file of the results, or that of the list of skipped records, isn't written.
#[derive(Debug, Drop)]
pub enum OutputFault {
    /// There is something of that name that is no regular file.
    NotAFile,
    /// Another process is writing it.
    Busy,
    /// Another process changed PATH.part while it was written.
    Changed,
    /// A call of the system failed. This may pass.
    CannotWrite(io::Error),
    /// The same, and it lasts.
    NotAllowed(io::Error),
    /// Its folder can't be synced, so a power cut might take its name away. Nothing is run.
    CannotSync(io::Error),
    /// It is whole and has its name. But the folder can't be synced any more, so a power cut may take the name away.
    NotSynced(io::Error),
}

/// Why there is no answer. What the files of the slices hold stays, so a later call resumes the job.
#[derive(Debug, Drop, Error)]
pub enum CsvJobError {
    /// The arguments of the command line ask for nothing.
    #[error("the words of the command line ask for nothing")]
    Words(WordsFault),
    /// FOLDER isn't taken.
    #[error("the folder isn't taken")]
    Folder(FolderFault),
    /// The file of a slice, or its log, is no regular file.
    #[error("the file of slice {slice} is no regular file")]
    NotAFile { slice: u64 },
    /// The system doesn't let the file of a slice be read, written or locked, and this lasts.
    #[error("slice {slice}: {error}")]
    NotAllowed { slice: u64, error: io::Error },
    /// The file of a slice isn't opened.
    #[error("slice {slice}: {error}")]
    File { slice: u64, error: StoreError },
    /// The run of a slice has no end.
    #[error("slice {slice}: {error}")]
    Slice { slice: u64, error: SliceError },
    /// A slice is to be collected, and isn't whole.
    #[error("slice {slice} isn't whole")]
    NotWhole { slice: u64 },
    /// The input has another number of records than `--records` says. So many are read of it, up to its end or not.
    #[error("the input has another number of records")]
    Records { asked: u64, read: u64, is_end: bool },
    /// The input has no record, and `--records 0` doesn't say so.
    #[error("the input has no records")]
    NoRecords,
    /// The input has another number of bytes than `--bytes` says.
    #[error("the input has another number of bytes")]
    OtherLength { asked: u64, read: u64 },
    /// The input has another SHA-256 digest than `--sha256` says. Both are hexadecimal digits.
    #[error("the input has another digest")]
    OtherDigest { asked: String, read: String },
    /// The last line of the input has no line end, and `--records` alone says that it is whole.
    #[error("the last line of the input has no line end")]
    NoLineEnd,
    /// The records aren't read, or the results not written.
    #[error("{0}")]
    Rows(RowsError),
    /// The file of the results, or that of the list of skipped records, isn't written.
    #[error("the output {path} isn't written")]
    Output { path: String, why: OutputFault },
    /// There are more than 2^64 - 1 records or slices.
    #[error("there are too many records")]
    TooMany,
    /// There was no memory.
    #[error("out of memory")]
    Memory,
}

impl From<AllocError> for CsvJobError {
    ghost from_gives = { λ _ failure. failure ≡ Memory };

    fn from(_: AllocError) -> CsvJobError {
        CsvJobError::Memory
    }
}

impl<T: Drop> From<AllocFailed<T>> for CsvJobError {
    ghost from_gives = { λ _ failure. failure ≡ Memory };

    fn from(_: AllocFailed<T>) -> CsvJobError {
        CsvJobError::Memory
    }
}

impl From<RowsError> for CsvJobError {
    ghost from_gives = { λ error failure. failure ≡ Rows error };

    fn from(error: RowsError) -> CsvJobError {
        CsvJobError::Rows(error)
    }
}
