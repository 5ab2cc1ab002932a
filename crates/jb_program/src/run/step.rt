//! One step of a job.

ghost use Rattle.std.specs.Prelude.{◌≡◌, ◌⊎◌, ◌++◌, IfErr, IfOk, IfSome};
ghost use Rattle.jb_texts.specs.Report.{StepReport};
ghost use Rattle.jb_texts.specs.ReportTokens.{step_tokens};
ghost use Rattle.jb_program.specs.JobRun.{IsStepRefused, IsStepReport};
ghost use Rattle.jb_program.specs.Refusals.{Explains, RunningRounds};
ghost use Rattle.jb_program.specs.StepRun.{AreHeld};

use crate::run::artifacts::all_artifacts;
use crate::run::held::saved_state;
use crate::run::laws::lower_laws;
use crate::run::preparing::prepared_step;
use crate::run::report::write_step;
use crate::run::rounds::run_over_desk;
use crate::run::settings::settings_for;
use crate::streams::ProgramError;
use jb_base::MAX_PARTS;
use jb_collect::{Analyzer, FaultlessAnalyzer, FaultlessReducer, Reducer, Status};
use jb_documents::{Resume, StepData};
use jb_job::Step;
use jb_texts::StepsText;
use std::alloc::Global;
use std::marker::Brand;
use std::sync::Wait;
use std::sync::ledger::Blank;
use std::thread::Threads;

/// Runs a step and writes its report. It is prepared by its partition plan, or by what the run before left if the plan doesn't discard
/// that. Its partitions run over its threads in no more rounds than the limit. What it works on is used up.
pub fn run_job_step<T: Threads + Wait + Sync>(
    rt: &T,
    alloc: Global,
    step: &Step,
    supply: StepData,
    round_limit: Option<u64>,
    resume: Option<Resume>,
    text: &mut StepsText,
) -> Result<Status, ProgramError>
    requires held { IfSome resume AreHeld }
    ensures ran { IfOk result (λ status. (report : StepReport) × IsStepReport step.now supply round_limit resume report × (status ≡ report.status) × (text.new ≡ text.old ++ step_tokens report)) }
    ensures why { IfErr result (λ e. Explains RunningRounds e ⊎ IsStepRefused step.now supply resume e) }
{
    let StepData {
        records,
        prefix,
        drop,
        faults,
    } = supply;
    lower_laws();
    let (saved, outputs) = saved_state(alloc, resume, step.spec().replace());
    let mut reducer = FaultlessReducer::new(alloc);
    let count = records.as_list().len() as u64;
    let prepared = prepared_step(alloc, step, count, saved, &mut reducer)?;
    let settings = settings_for(step, prefix, drop, faults);
    let outputs = outputs.as_slice();
    let records = records.into_list();
    let artifacts = all_artifacts(alloc, &settings, records, outputs, &prepared)?;
    let analyzer = FaultlessAnalyzer::new(alloc);
    let blank = Blank::new(MAX_PARTS);
    let (end, analyzer, reducer) = run_over_desk::<T, Brand>(
        rt,
        alloc,
        blank,
        prepared,
        artifacts,
        round_limit,
        analyzer,
        reducer,
    )?;
    let status = end.status;
    write_step(
        alloc,
        step.id(),
        end,
        outputs,
        analyzer.calls(),
        reducer.calls(),
        text,
    )?;
    Ok(status)
}
