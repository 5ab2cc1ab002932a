//! The history of a folder's runs.

use jb_files::{FileFault, open_to_append};
use jb_ready::FaultClass;
use jb_slice_run::Fault;
use std::alloc::{AllocError, Global};
use std::fmt;
use std::io::Write;
use std::time::Clock;

/// What a line of FOLDER/history.jsonl says.
#[derive(Clone, Copy)]
pub(crate) enum Event<'a> {
    /// A run begins.
    Begin,
    /// A checkpoint of a slice is stored. So many records of all slices so far are done, and have so many results.
    Checkpoint {
        slice: u64,
        records: u64,
        results: u64,
    },
    /// A slice is whole, or it failed. Of each class so many of its records were skipped, and so many of its partitions failed.
    Slice {
        slice: u64,
        skips: &'a [u64],
        failed: u64,
    },
    /// A run ends, with this exit status.
    End {
        status: u8,
    },
}

/// Numbers with commas between them.
#[derive(Clone, Copy)]
struct Numbers<'a>(&'a [u64]);

impl<'a> fmt::Display for Numbers<'a> {
    fn fmt<W: fmt::Write>(&self, f: &mut fmt::Formatter<W>) -> fmt::Result {
        let mut comma = "";
        for number in self.0 {
            write!(f, "{comma}{number}")?;
            comma = ",";
        }
        Ok(())
    }
}

impl<'a> fmt::Display for Event<'a> {
    fn fmt<W: fmt::Write>(&self, f: &mut fmt::Formatter<W>) -> fmt::Result {
        match *self {
            Event::Begin => f.write_str("\"what\":\"begin\""),
            Event::Checkpoint {
                slice,
                records,
                results,
            } => write!(
                f,
                "\"what\":\"checkpoint\",\"slice\":{slice},\"records\":{records},\"results\":{results}"
            ),
            Event::Slice {
                slice,
                skips,
                failed,
            } => write!(
                f,
                "\"what\":\"slice\",\"slice\":{slice},\"skipped\":[{}],\"failed\":{failed}",
                Numbers(skips)
            ),
            Event::End { status } => write!(f, "\"what\":\"end\",\"status\":{status}"),
        }
    }
}

/// How many of these faults are of each class.
pub(crate) fn skips_by_class(
    alloc: Global,
    classes: &[FaultClass],
    skips: &[Fault],
) -> Result<Vec<u64>, AllocError> {
    let mut counts: Vec<u64> = Vec::new(alloc);
    for _ in classes {
        counts.push(0)?;
    }
    for fault in skips {
        if let Some(count) = counts.get_mut(fault.class.number() as usize) {
            *count = count.saturating_add(1);
        }
    }
    Ok(counts)
}

fn history_path(alloc: Global, folder: &str) -> Result<String, AllocError> {
    format!(in alloc; "{folder}/history.jsonl")
}

/// Whether something has the name of FOLDER's history and is no regular file.
pub(crate) fn is_no_history(host: &HostRuntime, folder: &str) -> bool {
    match history_path(host.alloc(), folder) {
        Ok(path) => matches!(
            open_to_append(host, path.as_str()),
            Err(FileFault::NotAFile)
        ),
        Err(_) => false,
    }
}

/// Appends a line to FOLDER/history.jsonl, by one write: the seconds since 1970, and the event. Runs that write at once don't mix their lines. If
/// it can't be written, nothing else changes.
pub(crate) fn note(host: &HostRuntime, folder: &str, event: &Event<'_>) {
    let alloc = host.alloc();
    let Ok(now) = host.since_1970() else {
        return;
    };
    let Ok(path) = history_path(alloc, folder) else {
        return;
    };
    let Ok(line) = format!(in alloc; "{{\"clock\":{},{event}}}\n", now.as_secs()) else {
        return;
    };
    let Ok(file) = open_to_append(host, path.as_str()) else {
        return;
    };
    let mut file = file;
    let _noted = file.write(line.as_bytes());
}
