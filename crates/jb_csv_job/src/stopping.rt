//! The file that stops a job.

use std::fs;

/// Whether FOLDER/stop is there. The kit hears no signal, so this file says that a job stops: before its next slice, or after its next checkpoint.
/// If the system can't say, it isn't there.
pub(crate) fn is_stopped(host: &HostRuntime, folder: &str) -> bool {
    match format!(in host.alloc(); "{folder}/stop") {
        Ok(path) => matches!(fs::exists(host, path.as_str()), Ok(true)),
        Err(_) => false,
    }
}
