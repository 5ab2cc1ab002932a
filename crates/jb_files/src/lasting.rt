//! Failures that last.

ghost use Rattle.std.specs.Prelude.{◌≡◌};
ghost use Rattle.jb_files.specs.Lasting.{lasts, is_lasting_kind, is_without_locks};

use std::io;
use std::io::ErrorKind;

/// ENOLCK of Linux.
const NO_LOCKS: i32 = 37;

fn is_lasting_kind(kind: ErrorKind) -> bool
    ensures { result ≡ is_lasting_kind kind }
{
    match kind {
        ErrorKind::PermissionDenied
        | ErrorKind::ReadOnlyFilesystem
        | ErrorKind::Unsupported
        | ErrorKind::InvalidInput
        | ErrorKind::NotADirectory
        | ErrorKind::IsADirectory
        | ErrorKind::FilesystemLoop
        | ErrorKind::InvalidFilename => true,
        _ => false,
    }
}

fn is_without_locks(code: Option<i32>) -> bool
    ensures { result ≡ is_without_locks code }
{
    match code {
        Some(code) => code == NO_LOCKS,
        None => false,
    }
}

/// Whether a failure of the system lasts: there is no leave, the file system can't be written or has no such call, or the path can't be that of such
/// a file. Others may pass, as a full disk does.
pub fn lasts(error: &io::Error) -> bool
    ensures { result ≡ lasts error.now }
{
    is_lasting_kind(error.kind()) || is_without_locks(error.raw_os_error())
}
