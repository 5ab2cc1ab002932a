//! The folder of the slices' files, and the paths of a job's other files.

use crate::asked::Asked;
use crate::failure::{CsvJobError, FolderFault, WordsFault};
use crate::history::{Event, is_no_history, note};
use crate::work::texts_of;
use jb_files::{SameFile, find_same_file, make_folder};
use std::alloc::Global;

/// Adds PATH and PATH.part, if there is a path.
fn add_path(alloc: Global, paths: &mut Vec<String>, path: Option<&str>) -> Result<(), CsvJobError> {
    if let Some(path) = path {
        paths.push(path.to_string(alloc)?)?;
        paths.push(format!(in alloc; "{path}.part")?)?;
    }
    Ok(())
}

/// Refuses a file that is to be written if it is another one of the job's files, or its input.
fn refuse_same_file(host: &HostRuntime, asked: &Asked) -> Result<(), CsvJobError> {
    let alloc = host.alloc();
    let mut paths = Vec::new(alloc);
    add_path(alloc, &mut paths, asked.output.as_deref())?;
    add_path(alloc, &mut paths, asked.skipped.as_deref())?;
    let paths = texts_of(alloc, paths.as_slice())?;
    match find_same_file(host, asked.folder.as_str(), paths.as_slice())? {
        Some(SameFile { path, other }) => {
            Err(CsvJobError::Words(WordsFault::SameFile { path, other }))
        }
        None => Ok(()),
    }
}

/// Makes FOLDER, if it isn't there, and syncs its name. Its history says that a run begins. No two files of the job are one.
///
/// # Errors
/// - `Folder`: something else has that name or that of its history, or the folder can't be made or looked at, or its name can't be synced.
/// - `Words`: PATH, PATH.part, a file of FOLDER and the input are not all different files. `Memory`.
pub fn ready_folder(host: &HostRuntime, asked: &Asked) -> Result<(), CsvJobError> {
    refuse_same_file(host, asked)?;
    let folder = asked.folder.as_str();
    match make_folder(host, folder) {
        Ok(false) => {}
        // Only now it is known which paths lead into it.
        Ok(true) => refuse_same_file(host, asked)?,
        Err(fault) => return Err(CsvJobError::Folder(FolderFault::from(fault))),
    }
    if is_no_history(host, folder) {
        return Err(CsvJobError::Folder(FolderFault::History));
    }
    note(host, folder, &Event::Begin);
    Ok(())
}
