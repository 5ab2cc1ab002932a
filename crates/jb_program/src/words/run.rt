//! The word `run`: a job is run, and its report is written.

ghost use Rattle.std.specs.Prelude.{◌≡◌, ◌≢◌, ◌⊎◌, IfErr, IfOk, IfSome, OnErr};
ghost use Rattle.std.specs.Io.KnownBytes.{Appends, Keeps};
ghost use Rattle.jb_job.specs.declared.error.JobError.{JobError};
ghost use Rattle.jb_plan.specs.declared.fault.PlanError.{PlanError};
ghost use Rattle.jb_saved.specs.declared.place.SavedPlace.{SavedPlace};
ghost use Rattle.jb_documents.specs.RunDocument.{IsRefusedDocument};
ghost use Rattle.jb_texts.specs.Front.{AppendsFront};
ghost use Rattle.jb_texts.specs.Statuses.{status_code};
ghost use Rattle.jb_program.specs.Refusals.{Explains, RunningJob};
ghost use Rattle.jb_program.specs.RunWord.{IsRefusedPlan, IsReported, IsRunFront};

use crate::run::run_job;
use crate::streams::{ProgramError, read_all};
use jb_collect::Status;
use jb_documents::read_document;
use jb_texts::{ReportText, status_code};
use std::alloc::Global;
use std::io::{Read, Write};
use std::sync::Wait;
use std::thread::Threads;

/// Writes the report whole, and gives the exit status. Where the writer fails, it holds the front of the report.
pub fn write_report<W: Write>(
    status: Status,
    report: ReportText,
    writer: &mut W,
) -> Result<u8, ProgramError>
    ensures ok { IfOk result (λ code. (code ≡ status_code status) × Appends (W.contents writer.old) (W.contents writer.new) report) }
    ensures err { IfErr result (λ e. (e ≡ ProgramError.Stream) × AppendsFront (W.contents writer.old) (W.contents writer.new) report) }
{
    report.write_to(writer)?;
    Ok(status_code(status))
}

/// Reads a document of `run`, runs its job, each step in no more rounds than the limit, and writes the report. The exit status is
/// 0 where the job is completed, 1 where it failed, and 2 where it was stopped before its end.
///
/// Where the reader or the writer fails, the writer may hold the front of the report; where anything else is wrong, it holds
/// nothing more.
#[tactic(auto, using(crate::proofs::Refusals::refusals))]
pub fn run<T: Threads + Wait + Sync, R: Read, W: Write>(
    rt: &T,
    alloc: Global,
    round_limit: Option<u64>,
    reader: &mut R,
    writer: &mut W,
) -> Result<u8, ProgramError>
    ensures ok { IfOk result (IsReported round_limit (R.remaining reader.old) (W.contents writer.old) (W.contents writer.new)) }
    ensures refused { IfErr result (λ e. (fault : JobError) → e ≡ ProgramError.Document fault → IfSome (R.remaining reader.old) (IsRefusedDocument fault)) }
    ensures unplanned { IfErr result (λ e. (fault : PlanError) → e ≡ ProgramError.Plan fault → IfSome (R.remaining reader.old) (IsRefusedPlan round_limit fault)) }
    ensures unsaved { IfErr result (λ e. (place : SavedPlace) → e ≢ ProgramError.Saved place) }
    ensures failures { IfErr result (Explains RunningJob) }
    ensures silent { IfErr result (λ e. e ≢ ProgramError.Stream → Keeps (W.contents writer.old) (W.contents writer.new)) }
    ensures cut { OnErr result (Keeps (W.contents writer.old) (W.contents writer.new) ⊎ IsRunFront round_limit (R.remaining reader.old) (W.contents writer.old) (W.contents writer.new)) }
{
    let bytes = read_all(alloc, reader)?;
    let document = read_document(alloc, bytes)?;
    let (status, report) = run_job(rt, alloc, document, round_limit)?;
    write_report(status, report, writer)
}
