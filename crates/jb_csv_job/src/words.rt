//! The arguments of the command line.

ghost use Rattle.std.specs.Prelude.{◌≡◌, ◌≤◌, map, option_map, IfErr, IfOk};
ghost use Rattle.jb_base.specs.Limits.{max_threads};
ghost use Rattle.jb_csv_job.specs.CommandLine.{AreRefused};
ghost use Rattle.jb_csv_job.specs.Parsing.{IsAnswer};

use crate::asked::{Asked, OwnOption, Request, Task};
use crate::command::{About, command};
use crate::failure::{CsvJobError, WordsFault};
use crate::host::Host;
use crate::job::CsvJob;
use crate::line::asked_in;
use crate::work::texts_of;
use clap::error::ErrorKind;
use jb_files::{ClosedStreams, hold_closed_streams};
use jb_rows::RowsError;
use std::alloc::{AllocError, Global};
use std::env::Args;
use std::{env, io};

/// How many threads run, if `--threads` doesn't say. More of them take no less time for a function of a few microseconds.
const DEFAULT_THREADS: u32 = 1;

/// What the arguments ask for.
#[derive(Drop)]
pub(crate) enum Parsed {
    Job(Asked),
    /// The help or the version, to be printed.
    Text(clap::Error),
}

fn own_name<'a>(own: Option<OwnOption<'a>>) -> Option<&'a str>
    ensures { option_map (λ o. o.now) result ≡ option_map (λ o. o.name.now) own.entry }
{
    match own {
        Some(own) => Some(own.name),
        None => None,
    }
}

/// What the arguments ask for, by `clap`.
pub(crate) fn parse_words<'a>(
    alloc: Global,
    about: &About<'a>,
    own: Option<OwnOption<'a>>,
    default: u32,
    words: &'a [&'a str],
) -> Result<Parsed, CsvJobError>
    requires some { 1 ≤ default }
    requires few { default ≤ max_threads }
    ensures asks { IfOk result (IsAnswer about.now.name.now (option_map (λ o. o.name.now) own.entry) (map (λ w. w.now) words.now)) }
    ensures refused { IfErr result (AreRefused about.now.name.now (option_map (λ o. o.name.now) own.entry) (map (λ w. w.now) words.now)) }
{
    let command = command(alloc, about, own)?;
    match command.try_get_matches_from(words) {
        Ok(matches) => {
            let own = own_name(own);
            match asked_in(alloc, &matches, own, default) {
                Ok(asked) => Ok(Parsed::Job(asked)),
                Err(failure) => Err(failure),
            }
        }
        Err(fault) => match fault.kind() {
            ErrorKind::OutOfMemory => Err(CsvJobError::Memory),
            ErrorKind::DisplayHelp | ErrorKind::DisplayVersion => Ok(Parsed::Text(fault)),
            _ => Err(CsvJobError::Words(WordsFault::Wrong(text_of(alloc, &fault)?))),
        },
    }
}

/// What `clap` says of a mistake, without `error: ` before it and line ends after it.
fn text_of(alloc: Global, fault: &clap::Error) -> Result<String, AllocError> {
    let text = fault.to_string(alloc)?;
    let text = text.as_str();
    let text = text.strip_prefix("error: ").unwrap_or(text);
    text.trim_end().to_string(alloc)
}

/// The arguments after the program's name.
fn words_of(alloc: Global, args: io::Result<Args>) -> Result<Vec<String>, CsvJobError> {
    match args {
        Ok(args) => Ok(args.skip(1).collect(alloc)?),
        Err(error) if error.kind() == io::ErrorKind::OutOfMemory => Err(CsvJobError::Memory),
        Err(_) => Err(CsvJobError::Words(WordsFault::NoText)),
    }
}

/// The program's own option, in owned texts.
#[derive(Drop)]
struct OwnTexts {
    name: String,
    value: String,
    help: String,
}

fn own_texts(alloc: Global, own: Option<&OwnOption>) -> Result<Option<OwnTexts>, AllocError> {
    let Some(own) = own else {
        return Ok(None);
    };
    Ok(Some(OwnTexts {
        name: own.name.to_string(alloc)?,
        value: own.value.to_string(alloc)?,
        help: own.help.to_string(alloc)?,
    }))
}

fn own_option(own: &Option<OwnTexts>) -> Option<OwnOption<'_>> {
    match own {
        Some(own) => Some(OwnOption {
            name: own.name.as_str(),
            value: own.value.as_str(),
            help: own.help.as_str(),
        }),
        None => None,
    }
}

/// What the arguments of the process ask for, before the help or the version is printed.
fn asked_by<T: Host>(rt: &T, job: &CsvJob, own: Option<&OwnOption>) -> Result<Parsed, CsvJobError> {
    let host = rt.host();
    let alloc = host.alloc();
    let args = words_of(alloc, env::args(host))?;
    let words = texts_of(alloc, &args)?;
    let name = job.name.to_string(alloc)?;
    let version = format!(in alloc; "0.1.0, stamp {}", job.stamp)?;
    let about = format!(in alloc;
        "Reads {} in CSV on standard input, and writes {} in CSV.\n\nWhatever ends a run, the same line resumes it from its last checkpoint.",
        job.records, job.results
    )?;
    let usage = format!(in alloc; "{} [OPTIONS] FOLDER < {}", job.name, job.input)?;
    let own = own_texts(alloc, own)?;
    let about = About {
        name: name.as_str(),
        version: version.as_str(),
        about: about.as_str(),
        usage: usage.as_str(),
    };
    parse_words(alloc, &about, own_option(&own), DEFAULT_THREADS, &words)
}

/// Whether results are written on standard output.
fn needs_output(asked: &Asked) -> bool {
    asked.output.is_none() && !matches!(asked.task, Task::Part { .. })
}

/// Refuses a stream that is needed and closed.
fn refuse_closed(closed: ClosedStreams, parsed: &Parsed) -> Result<(), CsvJobError> {
    let (needs_input, needs_output) = match parsed {
        Parsed::Job(asked) => (true, needs_output(asked)),
        Parsed::Text(_) => (false, true),
    };
    if closed.input && needs_input {
        return Err(CsvJobError::Words(WordsFault::ClosedInput));
    }
    if closed.output && needs_output {
        return Err(CsvJobError::Words(WordsFault::ClosedOutput));
    }
    Ok(())
}

/// What the arguments of the process ask for. Help and version are printed on standard output. Call it before anything is opened: first it holds
/// the descriptors of the standard streams that are closed, so that no file gets one of them.
///
/// # Errors
/// `Words`: they ask for nothing, or need a stream that is closed. `Rows` with `Stream`: standard output failed. `Memory`.
pub fn asked_of<T: Host>(
    rt: &T,
    job: &CsvJob,
    own: Option<&OwnOption>,
) -> Result<Request, CsvJobError> {
    let closed = hold_closed_streams(rt.host());
    let parsed = asked_by(rt, job, own)?;
    refuse_closed(closed, &parsed)?;
    match parsed {
        Parsed::Job(asked) => Ok(Request::Job(asked)),
        Parsed::Text(text) => match text.print(rt.host()) {
            Ok(()) => Ok(Request::Said),
            Err(error) => Err(CsvJobError::Rows(RowsError::Stream(error))),
        },
    }
}
