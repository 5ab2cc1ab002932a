//! Where the results are written, and the list of skipped records.

ghost use Rattle.std.specs.Prelude.{◌≡◌};
ghost use Rattle.jb_csv_job.specs.SystemFaults.{output_fault};

use crate::failure::{CsvJobError, OutputFault};
use jb_files::{FileFault, is_named, is_other, lasts, open_to_append, synced_folder};
use std::fs::{File, TryLockError};
use std::io::{ErrorKind, Stdout, Write};
use std::{fs, io};

impl From<io::Error> for OutputFault {
    ghost from_gives = { λ error fault. fault ≡ output_fault error };

    fn from(error: io::Error) -> OutputFault {
        if lasts(&error) {
            OutputFault::NotAllowed(error)
        } else {
            OutputFault::CannotWrite(error)
        }
    }
}

/// A file that gets its name once it is whole.
#[derive(Drop)]
struct PartFile {
    file: File,
    /// The folder of both names.
    folder: File,
    /// The name that it gets, and the one that it has: PATH and PATH.part.
    path: String,
    part: String,
    /// How many bytes were written to it.
    length: u64,
}

#[derive(Drop)]
enum Target {
    Standard(Stdout),
    File(PartFile),
}

/// Where the results are written: standard output, or PATH.part, which becomes PATH once the job is COMPLETED. The list of skipped records is such a
/// file too, which becomes PATH once the job is COMPLETED or FAILED.
#[derive(Drop)]
pub struct Output {
    to: Target,
}

/// PATH.part, open and empty. No other process that writes it so has it open. What is written comes to its end, so its length is another one if it
/// is cut meanwhile.
fn opened(host: &HostRuntime, part: &str) -> Result<File, OutputFault> {
    let file = match open_to_append(host, part) {
        Ok(file) => file,
        Err(FileFault::NotAFile) => return Err(OutputFault::NotAFile),
        Err(FileFault::Changing) => return Err(OutputFault::Busy),
        Err(FileFault::System(error)) => return Err(OutputFault::from(error)),
    };
    match file.try_lock() {
        Ok(()) => {}
        Err(TryLockError::WouldBlock) => return Err(OutputFault::Busy),
        Err(TryLockError::Error(error)) => return Err(OutputFault::from(error)),
    }
    // Another process may have renamed it before it was locked.
    if !is_named(host, part, &file)? {
        return Err(OutputFault::Busy);
    }
    file.set_len(0)?;
    Ok(file)
}

/// The folder of PATH, open and synced. What can't be synced now couldn't be synced after the rename either.
fn folder_at(host: &HostRuntime, path: &str) -> Result<File, OutputFault> {
    if is_other(host, path) {
        return Err(OutputFault::NotAFile);
    }
    match synced_folder(host, path) {
        Ok(folder) => Ok(folder),
        Err(error) if error.kind() == ErrorKind::NotFound => Err(OutputFault::CannotWrite(error)),
        Err(error) => Err(OutputFault::CannotSync(error)),
    }
}

impl PartFile {
    fn open(host: &HostRuntime, path: &str) -> Result<PartFile, CsvJobError> {
        let alloc = host.alloc();
        let part = format!(in alloc; "{path}.part")?;
        let path = path.to_string(alloc)?;
        let folder = match folder_at(host, path.as_str()) {
            Ok(folder) => folder,
            Err(why) => return Err(CsvJobError::Output { path, why }),
        };
        match opened(host, part.as_str()) {
            Ok(file) => Ok(PartFile {
                file,
                folder,
                path,
                part,
                length: 0,
            }),
            Err(OutputFault::NotAFile) => Err(CsvJobError::Output {
                path: part,
                why: OutputFault::NotAFile,
            }),
            Err(why) => Err(CsvJobError::Output { path, why }),
        }
    }

    /// Whether PATH.part is this file, with all that was written to it.
    fn is_whole(&self, host: &HostRuntime) -> io::Result<bool> {
        let is_long = self.file.metadata()?.len() == self.length;
        Ok(is_long && is_named(host, self.part.as_str(), &self.file)?)
    }

    /// Syncs it, renames it to PATH, and syncs the folder.
    fn put_in_place(&self, host: &HostRuntime) -> Result<(), OutputFault> {
        self.file.sync_all()?;
        if !self.is_whole(host)? {
            return Err(OutputFault::Changed);
        }
        fs::rename(host, self.part.as_str(), self.path.as_str())?;
        match self.folder.sync_all() {
            Ok(()) => Ok(()),
            Err(error) => Err(OutputFault::NotSynced(error)),
        }
    }
}

impl Output {
    /// Standard output, or PATH.part, which is made, and emptied if it is there. The folder is synced before.
    ///
    /// # Errors
    /// `Output`: PATH or PATH.part is no regular file; another process writes it so; it can't be written; or its folder can't be synced. `Memory`.
    pub fn open(host: &HostRuntime, path: Option<&str>) -> Result<Output, CsvJobError> {
        let to = match path {
            None => Target::Standard(host.stdout()),
            Some(path) => Target::File(PartFile::open(host, path)?),
        };
        Ok(Output { to })
    }

    /// PATH.part becomes PATH, if it is completed: it is synced, and then renamed. Else it stays PATH.part, and a next call begins it
    /// again.
    ///
    /// # Errors
    /// `Output`: another process changed PATH.part; or it can't be synced or renamed. With `NotSynced` PATH is whole.
    pub fn close(self, host: &HostRuntime, is_completed: bool) -> Result<(), CsvJobError> {
        match self.to {
            Target::File(file) if is_completed => match file.put_in_place(host) {
                Ok(()) => Ok(()),
                Err(why) => Err(CsvJobError::Output {
                    path: file.path,
                    why,
                }),
            },
            _ => Ok(()),
        }
    }
}

impl Write for Output {
    fn write(&mut self, buf: &[u8]) -> io::Result<usize> {
        match &mut self.to {
            Target::Standard(to) => to.write(buf),
            Target::File(to) => {
                let count = to.file.write(buf)?;
                to.length = to.length.saturating_add(count as u64);
                Ok(count)
            }
        }
    }

    fn flush(&mut self) -> io::Result<()> {
        match &mut self.to {
            Target::Standard(to) => to.flush(),
            Target::File(to) => to.file.flush(),
        }
    }
}
