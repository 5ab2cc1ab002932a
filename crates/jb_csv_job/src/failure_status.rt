//! The exit status if a job has no answer.

ghost use Rattle.std.specs.Prelude.{◌≡◌};
ghost use Rattle.jb_csv_job.specs.Statuses.{failure_status, rows_status, run_status, step_status, store_status, system_status};

use crate::failure::{CsvJobError, FolderFault, OutputFault};
use jb_files::lasts;
use jb_records::RecordsStepError;
use jb_rows::RowsError;
use jb_slice_file::StoreError;
use jb_slice_run::SliceError;
use jb_step::StepError;
use std::io;

/// The same line won't help.
const REFUSED: u8 = 3;

/// The same line resumes the job once FOLDER/stop is removed.
const STOPPED: u8 = 2;

/// The same line may help later.
const LATER: u8 = 4;

/// The arguments of the command line are wrong.
const WRONG_WORDS: u8 = 5;

fn store_status(error: &StoreError) -> u8
    ensures { result ≡ store_status error.now }
{
    match error {
        StoreError::Busy
        | StoreError::CannotOpen
        | StoreError::Full
        | StoreError::Disk
        | StoreError::Shut
        | StoreError::Taken
        | StoreError::Memory => LATER,
        _ => REFUSED,
    }
}

fn step_status(error: &RecordsStepError) -> u8
    ensures { result ≡ step_status error.now }
{
    match error {
        RecordsStepError::Step(StepError::Workers | StepError::Memory) | RecordsStepError::Memory =>
            LATER,
        _ => REFUSED,
    }
}

fn run_status(error: &SliceError) -> u8
    ensures { result ≡ run_status error.now }
{
    match error {
        SliceError::Store(error) => store_status(error),
        SliceError::Step(error) => step_status(error),
        SliceError::Stopped => STOPPED,
        SliceError::Memory => LATER,
        _ => REFUSED,
    }
}

fn rows_status(error: &RowsError) -> u8
    ensures { result ≡ rows_status error.now }
{
    match error {
        RowsError::Stream(_) | RowsError::Memory => LATER,
        _ => REFUSED,
    }
}

/// Of a call of the system that failed.
fn system_status(error: &io::Error) -> u8
    ensures { result ≡ system_status error.now }
{
    if lasts(error) { REFUSED } else { LATER }
}

/// The exit status of a job that has no answer: 2, 3, 4 or 5.
pub(crate) fn failure_status(failure: &CsvJobError) -> u8
    ensures { result ≡ failure_status failure.now }
{
    match failure {
        CsvJobError::Words(_) => WRONG_WORDS,
        CsvJobError::Folder(
            FolderFault::NotAFolder | FolderFault::History | FolderFault::NotAllowed(_),
        )
        | CsvJobError::NotAFile { .. }
        | CsvJobError::NotAllowed { .. }
        | CsvJobError::NotWhole { .. }
        | CsvJobError::Records { .. }
        | CsvJobError::NoRecords
        | CsvJobError::OtherLength { .. }
        | CsvJobError::OtherDigest { .. }
        | CsvJobError::NoLineEnd
        | CsvJobError::Output {
            why: OutputFault::NotAFile | OutputFault::NotAllowed(_),
            ..
        }
        | CsvJobError::TooMany => REFUSED,
        CsvJobError::Folder(FolderFault::NotSynced(error))
        | CsvJobError::Output {
            why: OutputFault::CannotSync(error),
            ..
        } => system_status(error),
        CsvJobError::Folder(FolderFault::CannotMake(_))
        | CsvJobError::Output { .. }
        | CsvJobError::Memory => { LATER }
        CsvJobError::File { error, .. } => store_status(error),
        CsvJobError::Slice { error, .. } => run_status(error),
        CsvJobError::Rows(error) => rows_status(error),
    }
}
