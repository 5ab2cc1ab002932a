//! The steps of a job, one after another.

ghost use Rattle.std.specs.Prelude.{◌≡◌, ◌-◌, ◌⊎◌, ◌++◌, drop, flat_map, length, slice_get, List, None, Some, IfErr, IfOk, IfSome};
ghost use Rattle.std.specs.List.{zip};
ghost use Rattle.jb_texts.specs.Report.{Report, StepReport, report_text};
ghost use Rattle.jb_texts.specs.ReportTokens.{step_tokens};
ghost use Rattle.jb_program.specs.Refusals.{Explains, RunningRounds};
ghost use Rattle.jb_program.specs.JobRun.{AreStepReports, IsJobReport, IsRefusedAtStep, IsRestartRefused, IsRestartRun, earlier, status_in};
ghost use Rattle.jb_program.specs.StepRun.{AreHeld};

use crate::run::step::run_job_step;
use crate::streams::ProgramError;
use jb_collect::Status;
use jb_documents::{Document, RestartDocument, Resume, StepData};
use jb_job::Step;
use jb_texts::{ReportText, StepsText};
use std::alloc::Global;
use std::sync::Wait;
use std::thread::Threads;

/// Runs the steps, up to the first that isn't completed, and writes their reports. The first resumes from what the run before
/// left, if there was one. The status is that of the last step that ran.
fn run_steps<T: Threads + Wait + Sync>(
    rt: &T,
    alloc: Global,
    steps: &[Step],
    mut supplies: Vec<StepData>,
    round_limit: Option<u64>,
    resume: Option<Resume>,
    text: &mut StepsText,
) -> Result<Status, ProgramError>
    requires held { IfSome resume AreHeld }
    ensures ran { IfOk result (λ status. (reports : List StepReport) × AreStepReports (zip steps.now supplies.items) round_limit resume reports
        × (status ≡ status_in (slice_get reports (length reports - 1))) × (text.new ≡ text.old ++ flat_map step_tokens reports)) }
    ensures why { IfErr result (λ e. Explains RunningRounds e ⊎ IsRefusedAtStep (zip steps.now supplies.items) round_limit resume e) }
{
    let Some((step, steps)) = steps.split_first() else {
        return Ok(Status::Completed);
    };
    if supplies.is_empty() {
        return Ok(Status::Completed);
    }
    let supply = supplies.remove(0);
    match run_job_step(rt, alloc, step, supply, round_limit, resume, text)? {
        Status::Completed => run_steps(rt, alloc, steps, supplies, round_limit, None, text),
        status => Ok(status),
    }
}

/// Runs the steps from the one whose rows were saved. That step resumes from them.
fn run_later_steps<T: Threads + Wait + Sync>(
    rt: &T,
    alloc: Global,
    steps: &[Step],
    mut supplies: Vec<StepData>,
    round_limit: Option<u64>,
    resume: Resume,
    text: &mut StepsText,
) -> Result<Status, ProgramError>
    requires held { AreHeld resume }
    ensures ran { IfOk result (λ status. (reports : List StepReport)
        × AreStepReports (drop (earlier resume.saved.step steps.now) (zip steps.now supplies.items)) round_limit (Some resume) reports
        × (status ≡ status_in (slice_get reports (length reports - 1))) × (text.new ≡ text.old ++ flat_map step_tokens reports)) }
    ensures why { IfErr result (λ e. Explains RunningRounds e
        ⊎ IsRefusedAtStep (drop (earlier resume.saved.step steps.now) (zip steps.now supplies.items)) round_limit (Some resume) e) }
{
    let Some((step, rest)) = steps.split_first() else {
        return Ok(Status::Completed);
    };
    if supplies.is_empty() {
        return Ok(Status::Completed);
    }
    if step.id() == resume.saved.step_id() {
        return run_steps(rt, alloc, steps, supplies, round_limit, Some(resume), text);
    }
    supplies.remove(0);
    run_later_steps(rt, alloc, rest, supplies, round_limit, resume, text)
}

/// Runs the document's job, each step in no more rounds than the limit, and gives the job's status and its report. It fails without
/// memory or a worker, if a repository isn't the step's own, or by the first refusal of a step that comes to its turn.
pub fn run_job<T: Threads + Wait + Sync>(
    rt: &T,
    alloc: Global,
    document: Document,
    round_limit: Option<u64>,
) -> Result<(Status, ReportText), ProgramError>
    ensures ran { IfOk result (λ ran. (report : Report) × IsJobReport document round_limit report × (ran.0 ≡ report.status) × (ran.1 ≡ report_text report)) }
    ensures why { IfErr result (λ e. Explains RunningRounds e ⊎ IsRefusedAtStep (zip document.job.steps document.step_data) round_limit None e) }
{
    let Document {
        job,
        step_data: steps,
    } = document;
    let mut text = StepsText::new(alloc)?;
    let status = run_steps(
        rt,
        alloc,
        job.steps.as_slice(),
        steps.into_vec(),
        round_limit,
        None,
        &mut text,
    )?;
    let report = ReportText::new(alloc, job.id.as_str(), status, text)?;
    Ok((status, report))
}

/// Restarts the document's job at the step whose rows were saved, each step in no more rounds than the limit, and gives the job's
/// status and its report. The outputs are the writers' own (`read_restart` gives no others). The failure is as in `run_job`.
pub fn restart_job<T: Threads + Wait + Sync>(
    rt: &T,
    alloc: Global,
    document: RestartDocument,
    round_limit: Option<u64>,
) -> Result<(Status, ReportText), ProgramError>
    requires held { AreHeld document.resume }
    ensures ran { IfOk result (λ ran. (report : Report) × IsRestartRun document round_limit report × (ran.0 ≡ report.status) × (ran.1 ≡ report_text report)) }
    ensures why { IfErr result (λ e. Explains RunningRounds e ⊎ IsRestartRefused document round_limit e) }
{
    let RestartDocument {
        job,
        step_data: steps,
        resume,
    } = document;
    let mut text = StepsText::new(alloc)?;
    let status = run_later_steps(
        rt,
        alloc,
        job.steps.as_slice(),
        steps.into_vec(),
        round_limit,
        resume,
        &mut text,
    )?;
    let report = ReportText::new(alloc, job.id.as_str(), status, text)?;
    Ok((status, report))
}
