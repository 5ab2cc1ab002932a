//! Folders whose names outlive a power cut.

use std::fs::File;
use std::io::ErrorKind;
use std::path::Path;
use std::{fs, io};

/// Why a folder isn't made.
#[derive(Debug, Drop)]
pub enum MakeFault {
    /// There is something else of that name.
    NotAFolder,
    /// It can't be made, or looked at.
    System(io::Error),
    /// The folder above it, or above one that was made for it, can't be opened or synced.
    NotSynced(io::Error),
}

/// The folder of a path.
pub(crate) fn folder_of<'a>(path: &'a str) -> &'a str {
    match Path::new(path).parent() {
        Some(folder) if !folder.as_str().is_empty() => folder.as_str(),
        None if path.starts_with('/') => "/",
        _ => ".",
    }
}

/// The folder of a path, open and synced. Names in it that are changed later outlive a power cut once it is synced again.
pub fn synced_folder(host: &HostRuntime, path: &str) -> io::Result<File> {
    let folder = File::open(host, folder_of(path))?;
    folder.sync_all()?;
    Ok(folder)
}

/// Whether there is a folder at this path; false if there is nothing.
fn is_folder(host: &HostRuntime, path: &str) -> Result<bool, MakeFault> {
    match fs::metadata(host, path) {
        Ok(found) if found.is_dir() => Ok(true),
        Ok(_) => Err(MakeFault::NotAFolder),
        Err(error) if error.kind() == ErrorKind::NotFound => Ok(false),
        Err(error) => Err(MakeFault::System(error)),
    }
}

/// Syncs the name of a folder that is there, if the folder above it can be opened. A run that made it had that open.
fn settle(host: &HostRuntime, path: &str) -> io::Result<()> {
    match File::open(host, folder_of(path)) {
        Ok(above) => above.sync_all(),
        Err(_) => Ok(()),
    }
}

/// Makes a folder, and syncs its name. The folder above it is there: if an earlier run made that and was killed, its name wasn't synced.
fn make_one(host: &HostRuntime, path: &str) -> Result<(), MakeFault> {
    let above = match File::open(host, folder_of(path)) {
        Ok(above) => above,
        Err(error) => return Err(MakeFault::NotSynced(error)),
    };
    if let Err(error) = settle(host, folder_of(path)) {
        return Err(MakeFault::NotSynced(error));
    }
    match fs::create_dir(host, path) {
        Ok(()) => {}
        // Another process made it meanwhile.
        Err(error) if error.kind() == ErrorKind::AlreadyExists => {
            if !is_folder(host, path)? {
                return Err(MakeFault::System(error));
            }
        }
        Err(error) => return Err(MakeFault::System(error)),
    }
    match above.sync_all() {
        Ok(()) => Ok(()),
        Err(error) => Err(MakeFault::NotSynced(error)),
    }
}

/// Where a slash is at `end`, makes the folder before it, if it isn't there.
fn make_above(host: &HostRuntime, path: &str, end: usize) -> Result<(), MakeFault> {
    match path.split_at_checked(end) {
        Some((above, rest)) if rest.starts_with('/') && !is_folder(host, above)? => {
            make_one(host, above)
        }
        _ => Ok(()),
    }
}

/// Makes the folder at this path and those above it, as far as they aren't there, and whether it was made. The name of each new one is synced before
/// the next one is made. So is the name of a folder that is there: a run that made it may have been killed before it was synced.
///
/// # Errors
/// Those of `MakeFault`.
pub fn make_folder(host: &HostRuntime, path: &str) -> Result<bool, MakeFault> {
    if is_folder(host, path)? {
        return match synced_folder(host, path) {
            Ok(_above) => Ok(false),
            Err(error) => Err(MakeFault::NotSynced(error)),
        };
    }
    for end in 1..path.len() {
        make_above(host, path, end)?;
    }
    make_one(host, path)?;
    Ok(true)
}
