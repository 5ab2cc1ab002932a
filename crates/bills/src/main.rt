//! A job with a custom reader, processor and writer: usage in, bills out, in a step over four threads.
//!
//! `bills` reads lines `NAME,UNITS` on standard input, and writes lines `NAME,CENTS` on standard output. A record that has no bill is
//! skipped, and standard error gives its number.
//!
//! - `bill`: what is charged. `reader`, `processor`, `writer`: the artifacts. `step`: the step that they work in.
#![tactic(auto)]

ghost use Rattle.std.specs.Prelude.{◌≤◌, length, IfOk, IfSome};
ghost use Rattle.jb_base.specs.Limits.{max_records};

mod bill;
mod processor;
mod reader;
mod step;
mod writer;

use jb_base::{MAX_RECORDS, PackedList};
use jb_collect::Status;
use jb_files::hold_closed_streams;
use jb_rows::{Rows, RowsError, RowsOptions, RowsReader, RowsWriter};
use jb_stack::{AnyAnswer, limits_of, run_apart};
use std::alloc::Global;
use std::io::{self, Read, Write};
use std::process::ExitCode;
use std::sync::Wait;
use std::thread::Threads;
use step::{BillArtifacts, run};

/// The usage on a stream, each record packed, if it has no more records than a step may have.
fn usage_in<R: Read + Drop>(alloc: Global, from: R) -> Result<Option<PackedList>, RowsError>
    ensures { IfOk result (λ usage. IfSome usage (λ records. length records ≤ max_records)) }
{
    let mut reader = RowsReader::new(alloc, &RowsOptions::CSV, from)?;
    let mut usage = Rows::new(alloc);
    reader.next_rows(&mut usage, MAX_RECORDS as usize + 1)?;
    if usage.len() as u64 > MAX_RECORDS {
        return Ok(None);
    }
    Ok(Some(usage.into_list()))
}

/// Writes the bills of all partitions.
fn write_bills<W: Write + Drop>(
    alloc: Global,
    all: &[(u32, BillArtifacts)],
    to: W,
) -> Result<W, RowsError> {
    let mut writer = RowsWriter::new(alloc, &RowsOptions::CSV, to);
    for (_, artifacts) in all {
        writer.write_packed(&artifacts.writer.bills)?;
    }
    writer.finish()
}

/// Says which records a partition skipped.
fn tell_skips(host: &HostRuntime, artifacts: &BillArtifacts) -> io::Result<()> {
    for note in artifacts.reader.notes.kept() {
        eprintln!(host; "record {} is skipped", note.number)?;
    }
    Ok(())
}

/// The job over the standard streams.
fn answer<R: Threads + Wait + Sync>(rt: &R, host: &HostRuntime) -> io::Result<ExitCode> {
    let alloc = host.alloc();
    let usage = match usage_in(alloc, host.stdin()) {
        Ok(Some(usage)) => usage,
        Ok(None) => {
            eprintln!(host; "more than {MAX_RECORDS} records")?;
            return Ok(ExitCode::from(3));
        }
        Err(error) => {
            eprintln!(host; "{error}")?;
            return Ok(ExitCode::from(3));
        }
    };
    let end = match run(rt, alloc, usage) {
        Ok(end) => end,
        Err(error) => {
            eprintln!(host; "{error}")?;
            return Ok(ExitCode::from(3));
        }
    };
    for (_, artifacts) in &end.artifacts {
        tell_skips(host, artifacts)?;
    }
    if let Err(error) = write_bills(alloc, &end.artifacts, host.stdout()) {
        eprintln!(host; "{error}")?;
        return Ok(ExitCode::from(3));
    }
    Ok(ExitCode::from(if end.status == Status::Completed {
        0
    } else {
        1
    }))
}

fn main(rt: HostRuntime) -> io::Result<ExitCode> {
    hold_closed_streams(&rt);
    let work = move || answer(&rt, &rt);
    match run_apart(&rt, &limits_of(&rt), AnyAnswer, work) {
        Some(answer) => answer,
        None => {
            eprintln!(rt; "out of memory")?;
            Ok(ExitCode::from(4))
        }
    }
}
