//! The program over any arguments, any reader and any two writers.

ghost use Rattle.std.specs.Prelude.{◌≡◌, ◌<◌, ◌≤◌, IfErr, IfOk, OnErr, OnOk};
ghost use Rattle.std.specs.Io.KnownBytes.{Keeps};
ghost use Rattle.jb_program.specs.declared.words.request.Request.{Request};
ghost use Rattle.jb_program.specs.Answer.{IsAnswer};
ghost use Rattle.jb_program.specs.Failures.{HasFailed, HasNoAnswer, HasNoRequest, IsAsked, IsFailureReported};
ghost use Rattle.jb_program.specs.ProcessWords.{process_words};
ghost use Rattle.jb_program.specs.Statuses.{failure_code};

use crate::streams::{ProgramError, write_failure};
use crate::words::{
    Request, Word, arguments, line_of, restart, run, run_check, run_plan, words_after_name,
    write_help, write_version,
};
use std::alloc::Global;
use std::env::Args;
use std::io;
use std::io::{Read, Write};
use std::sync::Wait;
use std::thread::Threads;

/// What the process's arguments ask for.
pub fn request_of(alloc: Global, args: io::Result<Args>) -> Result<Request, ProgramError>
    ensures asked { IfOk result (IsAsked (process_words args)) }
    ensures refused { IfErr result (HasNoRequest (process_words args)) }
{
    let args = arguments(alloc, args)?;
    let words = words_after_name(alloc, &args)?;
    let request = line_of(alloc, &words)?;
    Ok(request)
}

/// Does what was asked. Only a subcommand with a document reads.
pub fn answer_request<T: Threads + Wait + Sync, R: Read, W: Write>(
    rt: &T,
    alloc: Global,
    request: Request,
    reader: &mut R,
    writer: &mut W,
) -> Result<u8, ProgramError>
    ensures answered { IfOk result (IsAnswer request (R.remaining reader.old) (W.contents writer.old) (W.contents writer.new)) }
    ensures status { IfOk result (λ status. status < 3) }
    ensures failed { IfErr result (HasNoAnswer request (R.remaining reader.old) (W.contents writer.old) (W.contents writer.new)) }
{
    match request {
        Request::Help(topic) => write_help(topic, writer),
        Request::Version => write_version(writer),
        Request::Perform(line) => match line.word {
            Word::Run => run(rt, alloc, line.rounds, reader, writer),
            Word::Restart => restart(rt, alloc, line.rounds, reader, writer),
            Word::Plan => run_plan(alloc, reader, writer),
            Word::Check => run_check(alloc, reader, writer),
        },
    }
}

/// Does what the process's arguments ask.
fn answer<T: Threads + Wait + Sync, R: Read, W: Write>(
    rt: &T,
    alloc: Global,
    args: io::Result<Args>,
    reader: &mut R,
    writer: &mut W,
) -> Result<u8, ProgramError>
    ensures answered { IfOk result (λ status. (request : Request) × IsAsked (process_words args) request × IsAnswer request (R.remaining reader.old) (W.contents writer.old) (W.contents writer.new) status) }
    ensures status { IfOk result (λ status. status < 3) }
    ensures failed { IfErr result (HasFailed (process_words args) (R.remaining reader.old) (W.contents writer.old) (W.contents writer.new)) }
{
    let request = request_of(alloc, args)?;
    answer_request(rt, alloc, request, reader, writer)
}

/// The exit status of a failure that was to be reported: its own, if its text was written; else a stream has failed.
fn exit_code_of(failure: &ProgramError, written: io::Result<()>) -> u8
    ensures whole { OnOk written (result ≡ failure_code failure.now) }
    ensures cut { OnErr written (result ≡ failure_code ProgramError.Stream) }
{
    match written {
        Ok(()) => failure.status(),
        Err(_) => ProgramError::Stream.status(),
    }
}

/// The exit status of an answer, or of a failure, which is written to the fault writer.
pub fn status_of<F: Write>(answer: Result<u8, ProgramError>, fault_writer: &mut F) -> u8
    ensures answered { IfOk answer (λ status. result ≡ status) }
    ensures quiet { OnOk answer (Keeps (F.contents fault_writer.old) (F.contents fault_writer.new)) }
    ensures failed { IfErr answer (λ failure. IsFailureReported failure (F.contents fault_writer.old) (F.contents fault_writer.new) result) }
{
    match answer {
        Ok(status) => status,
        Err(failure) => {
            let written = write_failure(&failure, fault_writer);
            exit_code_of(&failure, written)
        }
    }
}

/// Does what the process's arguments ask, and gives the exit status. What is wrong is written to the fault writer.
///
/// - 0, 1 and 2: an answer, which the writer then holds.
/// - 3: the document, a step's partition plan or its saved rows are refused, by its first fault.
/// - 4: there is no memory or no worker, the repository isn't the step's own, or a stream fails.
/// - 5: the arguments ask for nothing.
///
/// A report is of runs of which the headline of `jb_step` holds (`IsReportedStep.headline`). Each plan in it had exactly the chunks not
/// yet committed, in the fewest rounds of all valid plans, with its certificate. A step that isn't stopped has left each partition
/// where it ends alone.
pub fn perform<T: Threads + Wait + Sync, R: Read, W: Write, F: Write>(
    rt: &T,
    alloc: Global,
    args: io::Result<Args>,
    reader: &mut R,
    writer: &mut W,
    fault_writer: &mut F,
) -> u8
    ensures answered { result < 3 → (request : Request) × IsAsked (process_words args) request × IsAnswer request (R.remaining reader.old) (W.contents writer.old) (W.contents writer.new) result }
    ensures status { result ≤ 5 }
    ensures quiet { result < 3 → Keeps (F.contents fault_writer.old) (F.contents fault_writer.new) }
    ensures failed { 3 ≤ result → (failure : ProgramError) × HasFailed (process_words args) (R.remaining reader.old) (W.contents writer.old) (W.contents writer.new) failure × IsFailureReported failure (F.contents fault_writer.old) (F.contents fault_writer.new) result }
{
    let answer = answer(rt, alloc, args, reader, writer);
    status_of(answer, fault_writer)
}
