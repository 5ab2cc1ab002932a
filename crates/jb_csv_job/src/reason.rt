//! Why the system doesn't open a slice's file.

ghost use Rattle.jb_csv_job.specs.SystemFaults.{IsFileFailure};

use crate::failure::CsvJobError;
use crate::host::Host;
use crate::path::SlicePath;
use jb_files::{lasts, open_again};
use jb_slice_file::StoreError;

/// Why there is no answer if a slice's file isn't opened. If it can't be, the system is asked again: what it says may last.
pub(crate) fn file_failure(
    host: &HostRuntime,
    path: &str,
    slice: u64,
    error: StoreError,
) -> CsvJobError
    ensures { IsFileFailure slice error result }
{
    if let StoreError::CannotOpen = error {
        if let Err(why) = open_again(host, path) {
            if lasts(&why) {
                return CsvJobError::NotAllowed { slice, error: why };
            }
        }
    }
    CsvJobError::File { slice, error }
}

/// Reports on standard error why the system doesn't open a slice's file, if it says so.
pub(crate) fn report_reason<T: Eprint + Host>(rt: &T, folder: &str, slice: u64) {
    let host = rt.host();
    let Ok(path) = SlicePath { folder, slice }.to_string(host.alloc()) else {
        return;
    };
    if let Err(error) = open_again(host, path.as_str()) {
        let _told = eprintln!(rt; "{path}: {error}");
    }
}
