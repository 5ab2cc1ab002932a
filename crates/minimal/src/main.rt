//! The smallest job: the lines of standard input in capitals, without the blank ones, by four threads. It stops after one round and
//! resumes.
#![tactic(auto)]

ghost use Rattle.std.specs.Prelude.{◌≡◌};
ghost use Rattle.minimal.specs.Capitals.{blank_class, capitals};

use jb_base::{ClassId, DEFAULT_RETRY_LIMIT, Name, PackedList, Rules};
use jb_collect::Status;
use jb_files::hold_closed_streams;
use jb_ready::{Classes, lines};
use jb_records::{RecordsEnd, RecordsStep, RecordsStepError, StoppedRun, run_records};
use jb_rows::{Outcome, Row, RowBuilder, RowFunction, Rows};
use jb_stack::{AnyAnswer, limits_of, run_apart};
use std::alloc::{AllocError, Global};
use std::io::{self, Read, Write};
use std::process::ExitCode;
use std::sync::Wait;
use std::thread::Threads;

/// The class of the fault of a blank line.
fn blank() -> ClassId
    ensures { result ≡ blank_class }
{
    ClassId::new(0)
}

/// A blank line is skipped. No try fails, so nothing is retried.
fn rules() -> Rules {
    Rules {
        skippable: Classes::of(&[blank()]).bits(),
        retryable: Classes::none().bits(),
        no_rollback: Classes::none().bits(),
        skip_limit: None,
        retry_limit: DEFAULT_RETRY_LIMIT,
    }
}

/// A line in capitals. A blank one is refused.
#[derive(Drop)]
struct Capitals {
    alloc: Global,
}

impl RowFunction for Capitals {
    ghost answer = { λ _. capitals };

    fn process(&self, line: &Row, built: &mut RowBuilder) -> Result<Outcome, AllocError> {
        match line.get(0) {
            Some(text) if !text.is_empty() => {
                let text = text.to_ascii_uppercase(self.alloc)?;
                built.push(text.as_slice())?;
                Ok(Outcome::Given)
            }
            _ => Ok(Outcome::Refused(blank())),
        }
    }
}

/// The lines of a text, each a record of one field.
fn lines_of(alloc: Global, text: &[u8]) -> Result<Rows, AllocError> {
    let lines = lines::records_of(alloc, text)?;
    let mut rows = Rows::new(alloc);
    let mut row = RowBuilder::new(alloc);
    for index in 0..lines.len() {
        row.clear();
        row.push(lines.at(index))?;
        rows.push(&row)?;
    }
    Ok(rows)
}

/// Runs the step for one round, and resumes from what it saved, as another process could from two files.
fn run<R: Threads + Wait + Sync>(
    rt: &R,
    alloc: Global,
    lines: &PackedList,
) -> Result<RecordsEnd, RecordsStepError> {
    let step = RecordsStep {
        id: Name::new(String::from_str(alloc, "capitals")?),
        partitions: 8,
        threads: 4,
        item_count: 2,
        rules: rules(),
    };
    let stopped = run_records(rt, alloc, &step, Capitals { alloc }, lines, None, Some(1))?;
    if stopped.status != Status::Stopped {
        return Ok(stopped);
    }
    let saved = stopped.saved_text(alloc, &step.id)?;
    let results = stopped.all_results(alloc)?;
    let earlier = StoppedRun {
        saved: saved.as_bytes(),
        results: &results,
    };
    run_records(
        rt,
        alloc,
        &step,
        Capitals { alloc },
        lines,
        Some(earlier),
        None,
    )
}

/// The job over the standard streams.
fn answer<R: Threads + Wait + Sync>(rt: &R, host: &HostRuntime) -> io::Result<ExitCode> {
    let alloc = host.alloc();
    let mut text = Vec::new(alloc);
    host.stdin().read_to_end(&mut text)?;
    let rows = lines_of(alloc, &text)?;
    let lines = rows.as_list();
    let end = match run(rt, alloc, lines) {
        Ok(end) => end,
        Err(error) => {
            eprintln!(host; "{error}")?;
            return Ok(ExitCode::from(3));
        }
    };
    for skip in &end.skipped(alloc, &Capitals { alloc }, lines)? {
        eprintln!(host;
            "line {} is skipped, by class {}",
            skip.number,
            skip.class.number()
        )?;
    }
    for failure in &end.failures {
        if let Some(fault) = failure.fault {
            eprintln!(host;
                "partition {} failed at line {}, by class {}",
                failure.partition,
                fault.number,
                fault.class.number()
            )?;
        }
    }
    let results = end.all_results(alloc)?;
    let mut out = host.stdout();
    for index in 0..results.len() {
        if let Some(line) = Row::of(results.at(index)).get(0) {
            out.write_all(line)?;
            out.write_all(b"\n")?;
        }
    }
    Ok(ExitCode::from(if end.status == Status::Completed {
        0
    } else {
        1
    }))
}

fn main(rt: HostRuntime) -> io::Result<ExitCode> {
    hold_closed_streams(&rt);
    let work = move || answer(&rt, &rt);
    match run_apart(&rt, &limits_of(&rt), AnyAnswer, work) {
        Some(answer) => answer,
        None => {
            eprintln!(rt; "out of memory")?;
            Ok(ExitCode::from(4))
        }
    }
}
