//! Runs a batch job, plans rounds of chunks or checks such a plan, from a JSON document on standard input: the process's arguments
//! and streams are handed to `jb_process`, on a stack of its own.
//!
//! - `apart`: the run over its streams. `unstarted`: what is reported if nothing can be run.
#![tactic(auto)]

use jb_files::hold_closed_streams;
use jb_stack::limits_of;
use jb_streams::{Recorded, Recording};
use std::env;
use std::process::ExitCode;

mod apart;
#[cfg(test)]
mod tests;
mod unstarted;

use apart::{Streams, perform_apart};
use unstarted::{report_closed, report_none};

fn main(rt: HostRuntime) -> ExitCode {
    if hold_closed_streams(&rt).output {
        return ExitCode::from(report_closed(&mut rt.stderr()));
    }
    let streams = Streams {
        reader: Recorded::new(rt.stdin()),
        writer: Recording::new(rt.stdout()),
        fault_writer: Recording::new(rt.stderr()),
    };
    let status = match perform_apart(&rt, rt.alloc(), &limits_of(&rt), env::args(&rt), streams) {
        Some(done) => done.status,
        None => report_none(&mut rt.stderr()),
    };
    ExitCode::from(status)
}
