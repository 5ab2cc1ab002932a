//! The program over its three streams, on a stack of its own.

ghost use Rattle.std.specs.Prelude.{◌≡◌, ◌<◌, ◌≤◌, false, IfNone, IfSome, Some};
ghost use denote.Param.Send.{IsSync};
ghost use Rattle.jb_streams.specs.Recorded.{IsUnread};
ghost use Rattle.jb_streams.specs.Recording.{taken_of};
ghost use Rattle.jb_program.specs.declared.streams.error.ProgramError.{ProgramError};
ghost use Rattle.jb_program.specs.declared.words.request.Line.{Line};
ghost use Rattle.jb_program.specs.declared.words.request.Request.TheVariants.{Perform};
ghost use Rattle.jb_program.specs.Failures.{IsAsked, IsFailureReported};
ghost use Rattle.jb_program.specs.ProcessWords.{process_words};
ghost use Rattle.jb_process.specs.Recorded.{IsAnswered, IsUnanswered};
ghost use Rattle.jb_stack.specs.Room.{has_room};
ghost use Rattle.batchrun.specs.Performed.{IsPerformed};

use jb_process::perform_recorded;
use jb_stack::{Limits, run_apart};
use jb_streams::{Recorded, Recording};
use std::alloc::Global;
use std::env::Args;
use std::io;
use std::io::{Stderr, Stdin, Stdout};
use std::snapshot::Snapshot;
use std::sync::Wait;
use std::thread::{Promise, Threads};

/// The standard streams, each by an adaptor that remembers what passed.
#[derive(Drop)]
pub struct Streams {
    pub reader: Recorded<Stdin>,
    pub writer: Recording<Stdout>,
    pub fault_writer: Recording<Stderr>,
}

/// The exit status, and the streams as the run leaves them.
#[derive(Drop)]
pub struct Performed {
    pub status: u8,
    pub streams: Streams,
}

/// What a run promises, of these arguments and streams.
#[derive(Drop)]
struct Performs {
    args: Snapshot<io::Result<Args>>,
    streams: Snapshot<Streams>,
}

impl Promise<Performed> for Performs {
    ghost kept_by = { λ p done. IsPerformed (process_words p.args.value) p.streams.value done.streams done.status };
}

/// `perform_recorded` over the standard streams.
fn perform<T: Threads + Wait + Sync>(
    rt: &T,
    alloc: Global,
    args: io::Result<Args>,
    streams: Streams,
) -> Performed
    ensures { IsPerformed (process_words args) streams result.streams result.status }
{
    let mut streams = streams;
    let status = perform_recorded(
        rt,
        alloc,
        args,
        &mut streams.reader,
        &mut streams.writer,
        &mut streams.fault_writer,
    );
    Performed { status, streams }
}

/// The same, on a stack of its own. It is None if no such stack can be had, and `main`'s isn't known to have room. Then nothing is run.
pub fn perform_apart<T: Threads + Wait + Copy + Send + Sync + 'static>(
    rt: &T,
    alloc: Global,
    limits: &Limits,
    args: io::Result<Args>,
    streams: Streams,
) -> Option<Performed>
    ensures answered { IfSome result (λ done. done.status < 3 → IsAnswered (process_words args) streams.reader done.streams.reader (Some (taken_of streams.writer)) (Some (taken_of done.streams.writer)) done.status) }
    ensures status { IfSome result (λ done. done.status ≤ 5) }
    ensures quiet { IfSome result (λ done. done.status < 3 → taken_of done.streams.fault_writer ≡ taken_of streams.fault_writer) }
    ensures failed { IfSome result (λ done. 3 ≤ done.status → (failure : ProgramError) × IsUnanswered (process_words args) streams.reader done.streams.reader (Some (taken_of streams.writer)) (Some (taken_of done.streams.writer)) failure × IsFailureReported failure (Some (taken_of streams.fault_writer)) (Some (taken_of done.streams.fault_writer)) done.status) }
    ensures unread { IfSome result (λ done. ((line : Line) → IsAsked (process_words args) (Perform line) → ⊥) → IsUnread streams.reader done.streams.reader) }
    ensures refused { IfNone result (has_room limits.now.stack limits.now.space ≡ false) }
{
    let promise = Performs {
        args: Snapshot::of(&args),
        streams: Snapshot::of(&streams),
    };
    let rt = *rt;
    let thread_rt = rt;
    let work = move || -> Performed
        requires { IsSync T.row }
        ensures { IsPerformed (process_words args) streams result.streams result.status }
    { perform(&thread_rt, alloc, args, streams) };
    run_apart(&rt, limits, promise, work)
}
