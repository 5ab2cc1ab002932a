//! Files in memory, and what they hold. The calls have no clauses, so that the proof of a test doesn't carry what the libraries' show.

use jb_slice_file::{Checkpoint, ListEnd, StoreError, append, begin};
use sqlite::{Alter, Connection, FileStore, Files, Options};
use sqlite_disk::{Crash, Disk, Fuse, Memory};
use std::alloc::{AllocError, Global};

/// A file and its log, which are new.
pub(crate) fn new_files(alloc: Global) -> Files<Memory> {
    Files {
        log: Memory::new(alloc),
        db: Memory::new(alloc),
    }
}

/// The same files, which fail after some calls: the log after the first number of calls, the file after the second. A crash ends that.
pub(crate) fn failing<D: Crash>(files: Files<D>, calls: [u64; 2]) -> Files<Fuse<D>> {
    Files {
        log: Fuse::new(files.log, calls[0]),
        db: Fuse::new(files.db, calls[1]),
    }
}

/// The machine stops and starts again.
pub(crate) fn crashed<D: Crash>(mut files: Files<D>) -> Files<D> {
    files.log.crash();
    files.db.crash();
    files
}

/// The files come back if they can't be opened, or if one of them may not be used.
pub(crate) fn opened<D: Disk + Drop>(
    alloc: Global,
    files: Files<D>,
) -> Result<Connection<FileStore<D>>, (StoreError, Files<D>)> {
    if !files.may_be_used() {
        return Err((StoreError::Shut, files));
    }
    match Connection::open_files(alloc, files, Options::new(7)) {
        Ok(conn) => Ok(conn),
        Err((error, left)) => Err((StoreError::from(error), left.into_files())),
    }
}

/// The list of a connection that was just opened, and where it ends.
pub(crate) fn begun<S: Alter>(
    alloc: Global,
    conn: &mut Connection<S>,
) -> Result<(Vec<Checkpoint>, ListEnd), StoreError> {
    begin(alloc, conn)
}

/// Adds a checkpoint at the end of a list.
pub(crate) fn added<S: Alter>(
    conn: &mut Connection<S>,
    end: &mut ListEnd,
    saved: &str,
    results: &[u8],
) -> Result<(), StoreError> {
    append(conn, end, saved, results)
}

/// Each checkpoint as its text, a colon and its bytes.
pub(crate) fn text_of(alloc: Global, all: &[Checkpoint]) -> Result<String, AllocError> {
    let mut text = String::new(alloc);
    for each in all {
        text.push_str(format!(in alloc; "{}:{:?} ", each.saved, each.results)?.as_str())?;
    }
    Ok(text)
}
