//! The command line of a job, for `clap`.

ghost use Rattle.std.specs.Prelude.{◌≡◌, codes, option_map, IfOk};
ghost use Rattle.clap.specs.Words.{app_of, with_rule};
ghost use Rattle.jb_csv_job.specs.CommandLine.{flag_rule, folder_rule, job_app, many_rule, option_rule, own_rule, program as program_app, with_own};

use crate::asked::OwnOption;
use clap::{Arg, ArgAction, Command};
use std::alloc::{AllocError, Global};

/// What the exit statuses say.
const STATUSES: &str = "Exit status:
  0  COMPLETED: the results of all records are written
  1  FAILED: correct the cause, and type the same line again
  2  stopped, by the file FOLDER/stop: remove it, and type the same line again
  3  refused: another job, other records, another input, a changed file or no permission; the same line won't help
  4  no memory, no thread, no room, a busy file or a failed stream: type the same line again later
  5  the words are wrong, or a stream is closed";

/// What the program says of itself, beside its options.
#[derive(Clone, Copy)]
pub(crate) struct About<'a> {
    pub name: &'a str,
    pub version: &'a str,
    pub about: &'a str,
    pub usage: &'a str,
}

/// The program with no option.
fn program<'a>(alloc: Global, about: &About<'a>) -> Command<'a>
    ensures { app_of result ≡ program_app about.now.name.now }
{
    Command::new(alloc, about.name)
        .no_binary_name(true)
        .version(about.version)
        .about(about.about)
        .override_usage(about.usage)
        .after_help(STATUSES)
}

/// The program with an option more, which has a value.
fn with_option<'a>(
    alloc: Global,
    program: Command<'a>,
    name: &'a str,
    value: &'a str,
    help: &'a str,
) -> Result<Command<'a>, AllocError>
    ensures { IfOk result (λ c. app_of c ≡ with_rule (app_of program.entry) (option_rule name.entry.now)) }
{
    let option = Arg::new(alloc, name)
        .long(name)
        .action(ArgAction::Set)
        .value_name(value)
        .help(help);
    program.arg(option)
}

/// The program with `--collect`.
fn with_collect<'a>(alloc: Global, program: Command<'a>) -> Result<Command<'a>, AllocError>
    ensures { IfOk result (λ c. app_of c ≡ with_rule (app_of program.entry) (flag_rule (codes "collect"))) }
{
    let collect = Arg::new(alloc, "collect")
        .long("collect")
        .action(ArgAction::SetTrue)
        .help("Run nothing, and write the results of all slices. Each must be whole");
    program.arg(collect)
}

/// The program with an option more, which has a value, and may come several times.
fn with_many<'a>(
    alloc: Global,
    program: Command<'a>,
    name: &'a str,
    value: &'a str,
    help: &'a str,
) -> Result<Command<'a>, AllocError>
    ensures { IfOk result (λ c. app_of c ≡ with_rule (app_of program.entry) (many_rule name.entry.now)) }
{
    let option = Arg::new(alloc, name)
        .long(name)
        .action(ArgAction::Append)
        .value_name(value)
        .help(help);
    program.arg(option)
}

/// The program with its own option, if it has one.
fn with_own<'a>(
    alloc: Global,
    program: Command<'a>,
    own: Option<OwnOption<'a>>,
) -> Result<Command<'a>, AllocError>
    ensures { IfOk result (λ c. app_of c ≡ with_own (app_of program.entry) (option_map (λ o. o.name.now) own.entry)) }
{
    let Some(own) = own else {
        return Ok(program);
    };
    let option = Arg::new(alloc, own.name)
        .long(own.name)
        .action(ArgAction::Set)
        .value_name(own.value)
        .required(true)
        .help(own.help);
    program.arg(option)
}

/// The program with FOLDER.
fn with_folder<'a>(alloc: Global, program: Command<'a>) -> Result<Command<'a>, AllocError>
    ensures { IfOk result (λ c. app_of c ≡ with_rule (app_of program.entry) folder_rule) }
{
    let folder = Arg::new(alloc, "FOLDER").required(true).help(
        "The folder with the files of the slices. It is made if it isn't there",
    );
    program.arg(folder)
}

/// The command line of a job.
pub(crate) fn command<'a>(
    alloc: Global,
    about: &About<'a>,
    own: Option<OwnOption<'a>>,
) -> Result<Command<'a>, AllocError>
    ensures { IfOk result (λ c. app_of c ≡ job_app about.now.name.now (option_map (λ o. o.name.now) own.entry)) }
{
    let command = program(alloc, about);
    let command = with_option(
        alloc,
        command,
        "threads",
        "N",
        "How many threads run, 1 to 64 [default: 1]",
    )?;
    let command = with_option(
        alloc,
        command,
        "part",
        "K/N",
        "Run the slices K, K + N, K + 2 N and so on, and write no results",
    )?;
    let command = with_collect(alloc, command)?;
    let command = with_many(
        alloc,
        command,
        "keep-stamp",
        "S",
        "Keep slices that were run by a function with this stamp. It may be given several times",
    )?;
    let command = with_option(
        alloc,
        command,
        "output",
        "PATH",
        "Write the results to PATH.part, and rename it to PATH once the job is COMPLETED",
    )?;
    let command = with_option(
        alloc,
        command,
        "skipped",
        "PATH",
        "Write the skipped records, and those by which partitions failed, to PATH.part, and rename it to PATH at the end",
    )?;
    let command = with_option(
        alloc,
        command,
        "records",
        "N",
        "Refuse an input with another number of records: at its end at the latest, before the last slice is run",
    )?;
    let command = with_option(
        alloc,
        command,
        "bytes",
        "N",
        "Refuse an input with another number of bytes, before the last slice is run",
    )?;
    let command = with_option(
        alloc,
        command,
        "sha256",
        "DIGEST",
        "Refuse an input with another SHA-256 digest, 64 hexadecimal digits, before the last slice is run",
    )?;
    let command = with_own(alloc, command, own)?;
    with_folder(alloc, command)
}
