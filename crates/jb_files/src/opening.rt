//! A regular file, open to be written, without a wait.

use crate::folders::folder_of;
use crate::node::Node;
use std::fs::{File, OpenOptions, TryLockError};
use std::io::ErrorKind;
use std::os::unix::fs::MetadataExt;
use std::{fs, io};

/// Why a file isn't opened.
#[derive(Debug, Drop)]
pub enum FileFault {
    /// There is something of that name that is no regular file: a folder, a device, a pipe, a link.
    NotAFile,
    /// Another process took it away, or put another one in its place, meanwhile.
    Changing,
    /// A call of the system failed.
    System(io::Error),
}

impl From<io::Error> for FileFault {
    fn from(error: io::Error) -> FileFault {
        FileFault::System(error)
    }
}

/// Whether there is something at this path that is no regular file. A link is followed.
pub fn is_other(host: &HostRuntime, path: &str) -> bool {
    match fs::metadata(host, path) {
        Ok(found) => !found.is_file(),
        Err(_) => false,
    }
}

/// Whether the name itself is that of a regular file, of a link or of something else; None if there is nothing.
fn is_file_itself(host: &HostRuntime, path: &str) -> Option<bool> {
    match fs::symlink_metadata(host, path) {
        Ok(found) => Some(found.is_file()),
        Err(_) => None,
    }
}

/// Whether this name is that of an open file, and no link to it.
pub fn is_named(host: &HostRuntime, path: &str, file: &File) -> io::Result<bool> {
    let named = match fs::symlink_metadata(host, path) {
        Ok(found) => found,
        Err(error) if error.kind() == ErrorKind::NotFound => return Ok(false),
        Err(error) => return Err(error),
    };
    Ok(Node::of(&named) == Node::of(&file.metadata()?))
}

/// How a file is opened. An open to read and write waits for no other end of a pipe.
fn options(is_new: bool) -> OpenOptions {
    let mut options = OpenOptions::new();
    options.read(true).append(true).create_new(is_new);
    options
}

/// The file of that name, or a new one. A new one isn't made at the end of a link.
fn opened(host: &HostRuntime, path: &str) -> io::Result<File> {
    match options(false).open(host, path) {
        Err(error) if error.kind() == ErrorKind::NotFound => {}
        opened => return opened,
    }
    match options(true).open(host, path) {
        // Another process made it meanwhile.
        Err(error) if error.kind() == ErrorKind::AlreadyExists => options(false).open(host, path),
        made => made,
    }
}

/// Why an open failed.
fn fault_of(host: &HostRuntime, path: &str, error: io::Error) -> FileFault {
    match is_file_itself(host, path) {
        Some(false) => FileFault::NotAFile,
        _ => FileFault::System(error),
    }
}

/// The regular file of that name, which is made if it isn't there, open to append to it. It is never a link, and the open doesn't wait.
///
/// # Errors
/// Those of `FileFault`.
pub fn open_to_append(host: &HostRuntime, path: &str) -> Result<File, FileFault> {
    let file = match opened(host, path) {
        Ok(file) => file,
        Err(error) => return Err(fault_of(host, path, error)),
    };
    if !file.metadata()?.is_file() || is_file_itself(host, path) == Some(false) {
        return Err(FileFault::NotAFile);
    }
    if !is_named(host, path, &file)? {
        return Err(FileFault::Changing);
    }
    Ok(file)
}

/// A call that the system doesn't have for such a file.
fn unsupported() -> io::Error {
    ErrorKind::Unsupported.into()
}

/// Locks a file, and lets it go. If another process has it locked, it can be locked.
fn lock_once(file: &File) -> io::Result<()> {
    match file.try_lock() {
        Ok(()) | Err(TryLockError::WouldBlock) => Ok(()),
        Err(TryLockError::Error(error)) => Err(error),
    }
}

/// Makes a file of another name beside the one at this path, locks it, and removes it.
fn make_beside(host: &HostRuntime, path: &str) -> io::Result<()> {
    let Ok(beside) = format!(in host.alloc(); "{path}.try") else {
        return Ok(());
    };
    let file = match File::create_new(host, beside.as_str()) {
        Ok(file) => file,
        // Another process tries the same.
        Err(error) if error.kind() == ErrorKind::AlreadyExists => return Ok(()),
        Err(error) => return Err(error),
    };
    let locked = lock_once(&file);
    fs::remove_file(host, beside.as_str())?;
    locked
}

/// Opens a regular file of one name to read, write and lock it; if it isn't there, whether one can be made.
fn open_once(host: &HostRuntime, path: &str) -> io::Result<()> {
    let file = match File::options().read(true).write(true).open(host, path) {
        Ok(file) => file,
        Err(error) if error.kind() == ErrorKind::NotFound => {
            return match is_file_itself(host, path) {
                Some(_) => Err(unsupported()),
                None => make_beside(host, path),
            };
        }
        Err(error) => return Err(error),
    };
    if file.metadata()?.nlink() != 1 {
        return Err(unsupported());
    }
    lock_once(&file)
}

/// Whether SQLite left a journal beside the file at this path.
fn has_journal(host: &HostRuntime, path: &str) -> bool {
    let Ok(journal) = format!(in host.alloc(); "{path}-journal") else {
        return false;
    };
    match fs::symlink_metadata(host, journal.as_str()) {
        Ok(found) => !found.is_file() || found.len() > 0,
        Err(_) => false,
    }
}

/// Does what the open of a database did, which failed without a reason, on the file at this path, its log and their folder, and changes nothing. What
/// fails still is the reason.
pub fn open_again(host: &HostRuntime, path: &str) -> io::Result<()> {
    let _folder = File::open(host, folder_of(path))?;
    open_once(host, path)?;
    if has_journal(host, path) {
        return Err(unsupported());
    }
    let Ok(log) = format!(in host.alloc(); "{path}-wal") else {
        return Ok(());
    };
    match is_file_itself(host, log.as_str()) {
        Some(false) => Err(unsupported()),
        _ => open_once(host, log.as_str()),
    }
}
