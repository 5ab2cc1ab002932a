//! The rounds of a step, on a new desk.

ghost use Rattle.std.specs.Prelude.{◌≡◌, ◌++◌, false, map, IfErr, IfOk};
ghost use Rattle.jb_base.specs.Limits.{max_parts};
ghost use Rattle.jb_collect.specs.ReducerCalls.{calls_after};
ghost use Rattle.jb_collect.specs.AnsweredCalls.{well};
ghost use Rattle.jb_step.specs.Answers.{AreLeftOnTheWay, IsRunError, IsRunOfStep, given_back};
ghost use Rattle.jb_step.specs.Headline.{Headline};
ghost use Rattle.jb_step.specs.preparing.Prepare.{DoFit};
ghost use Rattle.jb_step.specs.preparing.Setup.{first_tasks};
ghost use Rattle.jb_step.specs.Statuses.{status_of};
ghost use Rattle.jb_step.specs.declared.error.StepError.TheVariants.{WrongArtifacts};
ghost use Rattle.jb_program.specs.Refusals.{Explains, IsFailureOf, RunningRounds};

use crate::run::artifacts::OwnArtifacts;
use crate::streams::ProgramError;
use jb_artifacts::Meaning;
use jb_chunk::Task;
use jb_collect::{FaultlessAnalyzer, FaultlessReducer};
use jb_step::{Prepared, StepEnd, StepError, run_pooled_step};
use jb_workers::NoGate;
use std::alloc::Global;
use std::sync::Wait;
use std::sync::ledger::{Blank, Ledger};
use std::thread::Threads;

/// Why the run of a step whose artifacts fit has no end.
fn run_failure(error: StepError) -> ProgramError
    requires causes { IsRunError error }
    requires fit { error ≡ WrongArtifacts → ⊥ }
    ensures why { IsFailureOf error result }
    ensures broken { Explains RunningRounds result }
{
    match error {
        StepError::Repository(partition) => ProgramError::Repository(partition),
        StepError::Workers => ProgramError::Workers,
        StepError::Memory => ProgramError::Memory,
        StepError::Plan(_) => unreachable!(),
        StepError::Mapper(_) => unreachable!(),
        StepError::Reducer(_) => unreachable!(),
        StepError::WrongArtifacts => unreachable!(),
        StepError::Saved(_) => unreachable!(),
    }
}

/// Runs the rounds of a prepared step on a new desk, in no more rounds than the limit, over one pool of workers. `blank` is a
/// ledger's with `MAX_PARTS` parts. The analyzer and the reducer come back.
pub fn run_over_desk<T: Threads + Wait + Sync, L: Ledger + Send + Sync + 'static>(
    rt: &T,
    alloc: Global,
    blank: Blank,
    prepared: Prepared,
    artifacts: Vec<OwnArtifacts>,
    round_limit: Option<u64>,
    analyzer: FaultlessAnalyzer,
    reducer: FaultlessReducer,
) -> Result<(StepEnd<OwnArtifacts>, FaultlessAnalyzer, FaultlessReducer), ProgramError>
    requires name { blank.name ≡ L.name }
    requires parts { blank.parts ≡ L.parts }
    requires all { blank.parts ≡ max_parts }
    requires fit { DoFit prepared (map ⟦<OwnArtifacts as Meaning>⟧.meaning artifacts.items) }
    ensures ran { IfOk result (λ ended. IsRunOfStep (record {
      setup = prepared;
      artifacts = map ⟦<OwnArtifacts as Meaning>⟧.meaning artifacts.items;
      round_limit = round_limit;
      heard_before = map well analyzer;
      heard_after = map well ended.1;
      notes = ended.0.plans.items;
      snapshot = ended.0.snapshot;
      left = given_back ⟦<OwnArtifacts as Meaning>⟧.meaning ended.0.artifacts.items;
    })) }
    ensures headline { IfOk result (λ ended. Headline (record {
      setup = prepared;
      artifacts = map ⟦<OwnArtifacts as Meaning>⟧.meaning artifacts.items;
      round_limit = round_limit;
      heard_before = map well analyzer;
      heard_after = map well ended.1;
      notes = ended.0.plans.items;
      snapshot = ended.0.snapshot;
      left = given_back ⟦<OwnArtifacts as Meaning>⟧.meaning ended.0.artifacts.items;
    })) }
    ensures on_the_way { IfOk result (λ ended. AreLeftOnTheWay (first_tasks prepared (map ⟦<OwnArtifacts as Meaning>⟧.meaning artifacts.items))
        ended.0.snapshot.rows.items (given_back ⟦<OwnArtifacts as Meaning>⟧.meaning ended.0.artifacts.items)) }
    ensures status { IfOk result (λ ended. ended.0.status ≡ status_of ended.0.snapshot.rows.items false) }
    ensures reducer { IfOk result (λ ended. ended.2 ≡ reducer ++ calls_after (status_of ended.0.snapshot.rows.items false) false) }
    ensures why { IfErr result (Explains RunningRounds) }
{
    let desk = prepared.desk::<L>(alloc, blank)?;
    let (end, analyzer, reducer) = run_pooled_step::<Task<OwnArtifacts>, L, NoGate, T>(
        rt,
        alloc,
        &desk,
        prepared,
        artifacts,
        analyzer,
        reducer,
        round_limit,
        &NoGate,
    );
    match end {
        Ok(end) => Ok((end, analyzer, reducer)),
        Err(error) => Err(run_failure(error)),
    }
}
