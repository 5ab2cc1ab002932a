//! The subcommand `restart`: a job resumes from what the run before left, and its report is written.

ghost use Rattle.std.specs.Prelude.{◌≡◌, ◌≢◌, ◌⊎◌, IfErr, IfOk, IfSome, OnErr};
ghost use Rattle.std.specs.Io.KnownBytes.{Keeps};
ghost use Rattle.jb_job.specs.declared.error.JobError.{JobError};
ghost use Rattle.jb_plan.specs.declared.fault.PlanError.{PlanError};
ghost use Rattle.jb_saved.specs.declared.place.SavedPlace.{SavedPlace};
ghost use Rattle.jb_documents.specs.RestartDocument.{IsRefusedRestart};
ghost use Rattle.jb_documents.specs.declared.restart.fault.RestartFault.TheVariants as restart_fault;
ghost use Rattle.jb_program.specs.Refusals.{Explains, RunningJob};
ghost use Rattle.jb_program.specs.RestartWord.{IsRefusedRestartStep, IsRefusedSaved, IsRestarted, IsRestartFront};

use crate::run::restart_job;
use crate::streams::{ProgramError, read_all};
use crate::words::run::write_report;
use jb_documents::read_restart;
use std::alloc::Global;
use std::io::{Read, Write};
use std::sync::Wait;
use std::thread::Threads;

/// Reads a document of `restart`, resumes its job at the step whose rows were saved, each step in no more rounds than the
/// limit, and writes the report. The exit status is 0 if the job is completed, 1 if it failed, and 2 if it was stopped
/// before its end.
///
/// Where the reader or the writer fails, the writer may hold the front of the report; where anything else is wrong, it holds
/// nothing more.
#[tactic(auto, using(crate::proofs::Refusals::refusals))]
pub fn restart<T: Threads + Wait + Sync, R: Read, W: Write>(
    rt: &T,
    alloc: Global,
    round_limit: Option<u64>,
    reader: &mut R,
    writer: &mut W,
) -> Result<u8, ProgramError>
    ensures ok { IfOk result (IsRestarted round_limit (R.remaining reader.old) (W.contents writer.old) (W.contents writer.new)) }
    ensures refused { IfErr result (λ e. (fault : JobError) → e ≡ ProgramError.Document fault → IfSome (R.remaining reader.old) (IsRefusedRestart (restart_fault.Document fault))) }
    ensures unplanned { IfErr result (λ e. (fault : PlanError) → e ≡ ProgramError.Plan fault → IfSome (R.remaining reader.old) (IsRefusedRestartStep round_limit (ProgramError.Plan fault))) }
    ensures unsaved { IfErr result (λ e. (place : SavedPlace) → e ≡ ProgramError.Saved place → IfSome (R.remaining reader.old) (IsRefusedSaved round_limit place)) }
    ensures failures { IfErr result (Explains RunningJob) }
    ensures silent { IfErr result (λ e. e ≢ ProgramError.Stream → Keeps (W.contents writer.old) (W.contents writer.new)) }
    ensures cut { OnErr result (Keeps (W.contents writer.old) (W.contents writer.new) ⊎ IsRestartFront round_limit (R.remaining reader.old) (W.contents writer.old) (W.contents writer.new)) }
{
    let bytes = read_all(alloc, reader)?;
    let document = read_restart(alloc, bytes)?;
    let (status, report) = restart_job(rt, alloc, document, round_limit)?;
    write_report(status, report, writer)
}
