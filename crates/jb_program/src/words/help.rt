//! What the program says of itself.

ghost use Rattle.std.specs.Prelude.{◌≡◌, IfErr, IfOk};
ghost use Rattle.std.specs.Io.KnownBytes.{Appends};
ghost use Rattle.jb_texts.specs.Front.{AppendsFront};
ghost use Rattle.jb_program.specs.Help.{help_text, version_text};

use crate::streams::ProgramError;
use crate::words::request::Word;
use jb_texts::write_whole;
use std::io::Write;

/// The program's version, as it is printed.
pub const VERSION: &str = "batchrun 0.1.0\n";

/// What the program is for, its subcommands, and what each status means.
const PROGRAM: &str = "usage: batchrun WORD < DOCUMENT
       batchrun help [WORD]

Reads one JSON document on standard input, to its end, and prints the answer on
standard output. WORD says what is done with it:

  run      runs the document's job and prints a report
  restart  goes on with a job that was stopped or failed, and prints a report
  plan     prints a plan of the fewest rounds for partitions of so many chunks
  check    prints whether a plan is lawful, and whether its certificate holds

`help WORD` and `WORD --help` tell what a word reads and prints; `--version`
prints the version. `run --rounds 0` is a dry run: the document is checked, and
no record is processed. tools/check-document lists all faults of a document.

The exit status says how it went:

  0  The job is completed, or the plan is printed, or the plan that was checked
     is lawful and its certificate holds.
  1  The job failed, or the plan that was checked isn't lawful or its
     certificate doesn't hold.
  2  The job was stopped before its end.
  3  The document, a step's partition plan or its saved rows are refused, and
     standard error names the first fault.
  4  There was no memory or no worker, or a step's repository wasn't its own or
     refused an event, or a stream failed: standard error says which.
  5  The words ask for nothing, and standard error names the first wrong one.

docs/FORMATS.md says what stands in documents and answers, and for each refusal
its usual cause. examples/ has documents to begin with.
";

/// What `run` reads and prints.
const RUN: &str = "usage: batchrun run [--rounds N] < DOCUMENT

Runs a job: its steps in turn, up to the first that isn't completed. It reads a
job record, and for each step what it works on:

  {\"job\": {\"id\": text, \"exception-classes\": [text, ..],
           \"step\": [{\"id\": text, \"chunk\": {..}, \"partition\": {..}}, ..]},
   \"data\": [{\"records\": [text, ..], \"prefix\": text, \"drop\": text,
             \"faults\": {..}}, ..]}

It prints a report, one line of JSON, with the job's status and, for each step
that ran, what its analyzer heard, each partition's outputs, its plans, the
calls of its reducer, its saved rows, and its status:

  {\"job\": id, \"status\": status,
   \"steps\": [{\"heard\": [..], \"outputs\": [..], \"plans\": [..], \"reducer\": [..],
              \"saved\": {..}, \"status\": status, \"step\": id}, ..]}

With --rounds each step stops after N rounds, 0 to 1000000000; 0 is a dry run:
the document and the first step's partition plan are checked, and no record is
processed. The exit status is 0 where the job is completed, 1 where it failed
and 2 where it was stopped; `batchrun restart` goes on from there.
docs/FORMATS.md has every key with its range. A document to begin with is
examples/three-records.json; examples/billing.json has faults, skips and
retries.
";

/// What `restart` reads and prints.
const RESTART: &str = "usage: batchrun restart [--rounds N] < DOCUMENT

Goes on with a job that was stopped or failed, at the step whose rows were
saved. It reads a document of `run`, which says besides what that step left: the
outputs and the saved rows of the step in the report before:

  {\"job\": {..}, \"data\": [..],
   \"resume\": {\"outputs\": [[text, ..], ..], \"saved\": {..}}}

Steps before that one aren't run and aren't in the report; finished partitions
aren't run again, and a failed one goes on from its last chunk that was
committed. It prints a report as `run` does, and --rounds and the exit status
say the same. docs/FORMATS.md has every key with its range.
";

/// What `plan` reads and prints.
const PLAN: &str = "usage: batchrun plan < DOCUMENT

Plans the chunks of partitions over threads, in the fewest rounds that there can
be. It reads the number of chunks of each partition, and that of the threads:

  {\"counts\": [number, ..], \"threads\": number}

It prints `rounds N CERTIFICATE`, and then a line for each round: for each lane,
of which there is one a thread, a partition and the number of its chunk, or `-`
where it is idle:

  rounds 2 Longest(0)
  0: 0.0 1.0
  1: 0.1 -

The certificate says why fewer rounds won't do: `Nothing`, since no chunk is
left; `Longest(p)`, since partition p alone has as many chunks; `FullLoad`,
since the threads can't do all chunks in fewer. The exit status is 0.
docs/FORMATS.md has the ranges of the numbers.
";

/// What `check` reads and prints.
const CHECK: &str = "usage: batchrun check < DOCUMENT

Checks a plan of rounds and its certificate, whoever made them. It reads what
`plan` reads, the rounds, and the certificate, which is \"Nothing\", \"FullLoad\" or
the number p for Longest(p):

  {\"counts\": [number, ..], \"threads\": number,
   \"rounds\": [[[lane, partition, chunk], ..], ..], \"certificate\": certificate}

It prints two lines: `plan lawful`, or `plan` and the plan's first fault; then
`certificate yes` or `certificate no`. The exit status is 0 where the plan is
lawful and its certificate holds: then no lawful plan has fewer rounds. Else it
is 1. docs/FORMATS.md has the faults by their names.
";

/// Writes a text. The exit status is 0.
fn write_text<W: Write>(text: &str, writer: &mut W) -> Result<u8, ProgramError>
    ensures ok { IfOk result (λ status. (status ≡ 0) × Appends (W.contents writer.old) (W.contents writer.new) text.now) }
    ensures err { IfErr result (λ e. (e ≡ ProgramError.Stream) × AppendsFront (W.contents writer.old) (W.contents writer.new) text.now) }
{
    write_whole(text.as_bytes(), writer)?;
    Ok(0)
}

/// Writes the help of the program, or of a word. The exit status is 0.
#[tactic(auto, unfolding(crate::specs::Help::program_help, crate::specs::Help::run_help, crate::specs::Help::restart_help, crate::specs::Help::plan_help, crate::specs::Help::check_help))]
pub fn write_help<W: Write>(topic: Option<Word>, writer: &mut W) -> Result<u8, ProgramError>
    ensures ok { IfOk result (λ status. (status ≡ 0) × Appends (W.contents writer.old) (W.contents writer.new) (help_text topic)) }
    ensures err { IfErr result (λ e. (e ≡ ProgramError.Stream) × AppendsFront (W.contents writer.old) (W.contents writer.new) (help_text topic)) }
{
    match topic {
        None => write_text(PROGRAM, writer),
        Some(Word::Run) => write_text(RUN, writer),
        Some(Word::Restart) => write_text(RESTART, writer),
        Some(Word::Plan) => write_text(PLAN, writer),
        Some(Word::Check) => write_text(CHECK, writer),
    }
}

/// Writes the program's version. The exit status is 0.
#[tactic(auto, unfolding(crate::specs::Help::version_text))]
pub fn write_version<W: Write>(writer: &mut W) -> Result<u8, ProgramError>
    ensures ok { IfOk result (λ status. (status ≡ 0) × Appends (W.contents writer.old) (W.contents writer.new) version_text) }
    ensures err { IfErr result (λ e. (e ≡ ProgramError.Stream) × AppendsFront (W.contents writer.old) (W.contents writer.new) version_text) }
{
    write_text(VERSION, writer)
}
