//! The files of slices.

ghost use Rattle.std.specs.Prelude.{◌≡◌, IfOk, string_bytes};
ghost use Rattle.jb_csv_job.specs.Paths.{slice_path as path_of};

use crate::path::SlicePath;
use std::alloc::{AllocError, Global};
use std::fs;
use std::string::ToString;

/// The path of a slice's file: FOLDER/slice-000057.db, with six digits at least.
pub fn slice_path(alloc: Global, folder: &str, slice: u64) -> Result<String, AllocError>
    ensures { IfOk result (λ path. string_bytes path ≡ path_of folder.now slice) }
{
    SlicePath { folder, slice }.to_string(alloc)
}

/// Whether there is no file at this path. If the system can't say, an open will say what is wrong with it.
pub(crate) fn is_missing(rt: &HostRuntime, path: &str) -> bool {
    matches!(fs::exists(rt, path), Ok(false))
}
