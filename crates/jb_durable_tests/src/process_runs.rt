//! Process runs over files, and what they say at their ends.
//!
//! It is slow to prove a function that passes a connection over files to a call over any store. So what a process run does is over any store,
//! and only `ended` has its connection.

ghost use Rattle.std.specs.Thread.{IsSync};

use crate::files::{opened, text_of};
use jb_slice_file::{StoreError, closed, list};
use sqlite::{Alter, Connection, FileStore, Files};
use sqlite_disk::Disk;
use std::alloc::{AllocError, Global};
use std::sync::Wait;
use std::test::*;
use std::thread::Threads;

/// What a process does with its connection.
pub(crate) trait ProcessRun {
    /// What it says at its end.
    fn live<R: Threads + Wait + Sync, S: Alter>(
        &mut self,
        rt: &R,
        alloc: Global,
        conn: &mut Connection<S>,
    ) -> Result<String, AllocError>
        requires { IsSync R.row };
}

/// It says which checkpoints there are.
#[derive(Drop)]
pub(crate) struct Listing;

impl ProcessRun for Listing {
    fn live<R: Threads + Wait + Sync, S: Alter>(
        &mut self,
        _rt: &R,
        alloc: Global,
        conn: &mut Connection<S>,
    ) -> Result<String, AllocError> {
        listed(alloc, conn)
    }
}

/// A process run over a connection, and its end: the files, and what it says.
pub(crate) fn ended<R: Threads + Wait + Sync, D: Disk + Drop, L: ProcessRun>(
    rt: &R,
    alloc: Global,
    mut conn: Connection<FileStore<D>>,
    process_run: &mut L,
) -> (Files<D>, Result<String, AllocError>) {
    let said = process_run.live(rt, alloc, &mut conn);
    (closed(conn), said)
}

/// A process run over files. If they can't be opened, it says why.
pub(crate) fn resume_and_run<R: Threads + Wait + Sync, D: Disk + Drop, L: ProcessRun>(
    rt: &R,
    alloc: Global,
    files: Files<D>,
    process_run: &mut L,
) -> (Files<D>, Result<String, AllocError>) {
    match opened(alloc, files) {
        Ok(conn) => ended(rt, alloc, conn, process_run),
        Err((error, files)) => (files, named(alloc, error)),
    }
}

/// The name of a refusal.
pub(crate) fn named(alloc: Global, error: StoreError) -> Result<String, AllocError> {
    format!(in alloc; "{error:?}")
}

/// The checkpoints that a connection shows, or the name of a refusal.
pub(crate) fn listed<S: Alter>(
    alloc: Global,
    conn: &mut Connection<S>,
) -> Result<String, AllocError> {
    match list(alloc, conn) {
        Ok((all, _)) => text_of(alloc, &all),
        Err(error) => named(alloc, error),
    }
}
