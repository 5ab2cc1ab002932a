//! The program over any arguments, a reader that remembers what it gave, and any two writers.

ghost use Rattle.std.specs.Prelude.{◌≡◌, ◌⊎◌, ◌<◌, ◌≤◌, IfErr, IfOk};
ghost use Rattle.std.specs.Io.KnownBytes.{Keeps};
ghost use Rattle.jb_program.specs.declared.streams.error.ProgramError.{ProgramError};
ghost use Rattle.jb_program.specs.declared.words.request.Line.{Line};
ghost use Rattle.jb_program.specs.declared.words.request.Request.TheVariants.{Perform};
ghost use Rattle.jb_program.specs.Failures.{IsAsked, IsFailureReported};
ghost use Rattle.jb_program.specs.ProcessWords.{process_words};
ghost use Rattle.jb_process.specs.Recorded.{IsAnswered, IsInputOf, IsUnanswered};
ghost use Rattle.jb_streams.specs.Recorded.{IsUnread};

use jb_program::{ProgramError, Request, answer_request, request_of, status_of, unread};
use jb_streams::{Recorded, Whole, read_whole};
use std::alloc::Global;
use std::env::Args;
use std::io;
use std::io::{Read, Write};
use std::sync::Wait;
use std::thread::Threads;

/// The document of a request: all that the reader gives until its end. For help and for the version nothing is read.
fn document_of<R: Read>(
    alloc: Global,
    request: Request,
    reader: &mut Recorded<R>,
) -> Result<Whole, ProgramError>
    ensures read { IfOk result (IsInputOf request reader.old reader.new) }
    ensures unread { ((line : Line) → request ≡ Perform line → ⊥) → IsUnread reader.old reader.new }
    ensures why { IfErr result (λ e. (e ≡ ProgramError.Memory) ⊎ (e ≡ ProgramError.Stream)) }
{
    match request {
        Request::Help(_) | Request::Version => Ok(Whole::none(alloc)),
        Request::Perform(_) => match read_whole(alloc, reader) {
            Ok(document) => Ok(document),
            Err(error) => Err(unread(&error)),
        },
    }
}

/// Does what the process's arguments ask.
fn answer<T: Threads + Wait + Sync, R: Read, W: Write>(
    rt: &T,
    alloc: Global,
    args: io::Result<Args>,
    reader: &mut Recorded<R>,
    writer: &mut W,
) -> Result<u8, ProgramError>
    ensures answered { IfOk result (IsAnswered (process_words args) reader.old reader.new (W.contents writer.old) (W.contents writer.new)) }
    ensures status { IfOk result (λ status. status < 3) }
    ensures failed { IfErr result (IsUnanswered (process_words args) reader.old reader.new (W.contents writer.old) (W.contents writer.new)) }
    ensures unread { ((line : Line) → IsAsked (process_words args) (Perform line) → ⊥) → IsUnread reader.old reader.new }
{
    let request = request_of(alloc, args)?;
    let mut document = document_of(alloc, request, reader)?;
    answer_request(rt, alloc, request, &mut document, writer)
}

/// Does what `jb_program::perform` does, and remembers what was read. If the arguments ask for a document, it is read to its end first.
/// Else nothing is read.
///
/// - 0, 1 and 2: the writer holds the answer to what was read, whole.
/// - 3: what was read is refused, and nothing was written.
/// - 4: if a stream failed, the writer holds the front of the answer to what was read, or nothing; else it holds nothing.
/// - 5: the arguments ask for nothing. Nothing was read or written.
pub fn perform_recorded<T: Threads + Wait + Sync, R: Read, W: Write, F: Write>(
    rt: &T,
    alloc: Global,
    args: io::Result<Args>,
    reader: &mut Recorded<R>,
    writer: &mut W,
    fault_writer: &mut F,
) -> u8
    ensures answered { result < 3 → IsAnswered (process_words args) reader.old reader.new (W.contents writer.old) (W.contents writer.new) result }
    ensures status { result ≤ 5 }
    ensures quiet { result < 3 → Keeps (F.contents fault_writer.old) (F.contents fault_writer.new) }
    ensures failed { 3 ≤ result → (failure : ProgramError) × IsUnanswered (process_words args) reader.old reader.new (W.contents writer.old) (W.contents writer.new) failure × IsFailureReported failure (F.contents fault_writer.old) (F.contents fault_writer.new) result }
    ensures unread { ((line : Line) → IsAsked (process_words args) (Perform line) → ⊥) → IsUnread reader.old reader.new }
{
    let answer = answer(rt, alloc, args, reader, writer);
    status_of(answer, fault_writer)
}
