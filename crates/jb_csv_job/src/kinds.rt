//! Files of another kind, which are recognized before they are opened.

use crate::folder::is_missing;
use jb_files::is_other;
use jb_slice_file::StoreError;
use std::alloc::AllocError;
use std::fs::File;
use std::io::Read;

/// How each database of SQLite begins.
const DATABASE: &[u8] = b"SQLite format 3\0";

/// Where its first page has the number of its tables and indexes, in two bytes.
const COUNT_AT: usize = 103;

/// What the first page of a slice's database has, since its one table is that of the checkpoints.
const TABLE: &[u8] = b"CREATE TABLE checkpoint ";

/// How long a page is at most.
const LONGEST_PAGE: u64 = 65_536;

/// Whether a slice's file or its log is a folder, a device or a pipe. An open of a pipe may wait for ever.
pub(crate) fn is_no_file(host: &HostRuntime, path: &str) -> Result<bool, AllocError> {
    let log = format!(in host.alloc(); "{path}-wal")?;
    Ok(is_other(host, path) || is_other(host, log.as_str()))
}

/// The first bytes of a file, as many as its first page may have. None if they can't be read.
fn first_bytes(host: &HostRuntime, path: &str) -> Option<Vec<u8>> {
    let file = File::open(host, path).ok()?;
    let mut bytes: Vec<u8> = Vec::new(host.alloc());
    file.take(LONGEST_PAGE).read_to_end(&mut bytes).ok()?;
    Some(bytes)
}

/// Whether the first page of a database says that it has a table.
fn has_table(page: &[u8]) -> bool {
    match (page.get(COUNT_AT), page.get(COUNT_AT + 1)) {
        (Some(high), Some(low)) => *high != 0 || *low != 0,
        _ => false,
    }
}

/// Why a file isn't opened: it is no database, or one of another program, without a table of checkpoints. An open would leave a log beside it. If a
/// file has a log, is empty or can't be read, nothing is said here: its open says what is wrong.
pub(crate) fn other_kind(host: &HostRuntime, path: &str) -> Option<StoreError> {
    let log = format!(in host.alloc(); "{path}-wal").ok()?;
    if !is_missing(host, log.as_str()) {
        return None;
    }
    let bytes = first_bytes(host, path)?;
    let page = bytes.as_slice();
    if page.is_empty() {
        None
    } else if !page.starts_with(DATABASE) {
        Some(StoreError::Damaged)
    } else if has_table(page) && !page.windows(TABLE.len()).any(|part| part == TABLE) {
        Some(StoreError::Foreign)
    } else {
        None
    }
}
