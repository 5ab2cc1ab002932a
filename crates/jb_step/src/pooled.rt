//! A step over one pool of workers for all its rounds, with the analyzer and the reducer that keep the list of their calls.

ghost use Rattle.std.specs.Prelude.{◌≡◌, ◌⊎◌, IfOk, IfErr, OnOk, map};
ghost use Rattle.jb_collect.specs.AnsweredCalls.{Grew, since, well};
ghost use Rattle.jb_step.specs.Answers.{given_back, AreCallsAfter, AreCallsUndone, AreLeftOnTheWay, IsRunError, IsRunOfStep, IsStatus};
ghost use Rattle.jb_step.specs.Headline.{Headline};
ghost use Rattle.jb_step.specs.preparing.Prepare.{DoFit};
ghost use Rattle.jb_step.specs.preparing.Setup.{first_tasks};
ghost use Rattle.jb_step.specs.declared.error.StepError.TheVariants.{WrongArtifacts, Memory};
ghost use Rattle.jb_step.specs.Short.{IsShort};

use crate::error::StepError;
use crate::preparing::prepared::Prepared;
use crate::step::{StepEnd, run_step_by};
use jb_artifacts::Meaning;
use jb_chunk::PartitionTask;
use jb_collect::{FaultlessAnalyzer, FaultlessReducer};
use jb_workers::{Desk, Gate, Pool, start_pool};
use std::alloc::Global;
use std::sync::Wait;
use std::sync::ledger::Ledger;
use std::thread;
use std::thread::{Scope, Threads};

// Runs the step in a scope of threads: starts the pool, runs the step over it, and ends it. Without memory for a pool, the step runs without one.
fn run_in<
    's,
    E,
    T: PartitionTask + Send + 'static + 's,
    L: Ledger + Send + Sync + 'static + 's,
    G: Gate + Sync + 's,
    R: Threads + Wait + Sync + 's,
>(
    scope: &Scope<'s, E>,
    desk: &'s Desk<L>,
    rt: &'s R,
    gate: &'s G,
    alloc: Global,
    prepared: Prepared,
    artifacts: Vec<T::Artifacts>,
    analyzer: &mut FaultlessAnalyzer,
    reducer: &mut FaultlessReducer,
    round_limit: Option<u64>,
) -> Result<StepEnd<T::Artifacts>, StepError>
    ensures run { IfOk result (λ end. IsRunOfStep (record {
      setup = prepared;
      artifacts = map T.Artifacts.meaning artifacts.items;
      round_limit = round_limit;
      heard_before = map well analyzer.old;
      heard_after = map well analyzer.new;
      notes = end.plans.items;
      snapshot = end.snapshot;
      left = given_back T.Artifacts.meaning end.artifacts.items;
    })) }
    ensures headline { IfOk result (λ end. Headline (record {
      setup = prepared;
      artifacts = map T.Artifacts.meaning artifacts.items;
      round_limit = round_limit;
      heard_before = map well analyzer.old;
      heard_after = map well analyzer.new;
      notes = end.plans.items;
      snapshot = end.snapshot;
      left = given_back T.Artifacts.meaning end.artifacts.items;
    })) }
    ensures on_the_way { IfOk result (λ end. AreLeftOnTheWay (first_tasks prepared (map T.Artifacts.meaning artifacts.items)) end.snapshot.rows.items (given_back T.Artifacts.meaning end.artifacts.items)) }
    ensures short { IfOk result (λ end. IsShort (first_tasks prepared (map T.Artifacts.meaning artifacts.items)) end.plans.items end.snapshot) }
    ensures status { IfOk result (λ end. IsStatus end.snapshot (since (map well analyzer.old) (map well analyzer.new)) (since (map well reducer.old) (map well reducer.new)) end.status) }
    ensures reducer { IfOk result (λ end. AreCallsAfter end.snapshot (since (map well analyzer.old) (map well analyzer.new)) (since (map well reducer.old) (map well reducer.new))) }
    ensures undone { IfErr result (λ e. AreCallsUndone e (since (map well reducer.old) (map well reducer.new))) }
    ensures fit { OnOk result (DoFit prepared (map T.Artifacts.meaning artifacts.items)) }
    ensures wrong { IfErr result (λ e. e ≡ WrongArtifacts → DoFit prepared (map T.Artifacts.meaning artifacts.items) → ⊥) }
    ensures fit_first { IfErr result (λ e. (DoFit prepared (map T.Artifacts.meaning artifacts.items) → ⊥) → (e ≡ WrongArtifacts) ⊎ (e ≡ Memory)) }
    ensures causes { IfErr result IsRunError }
    ensures analyzer_grew { Grew (map well analyzer.old) (map well analyzer.new) }
    ensures reducer_grew { Grew (map well reducer.old) (map well reducer.new) }
{
    let workers = prepared.workers();
    let mut pool = match start_pool(&*scope, &*desk, &*rt, alloc, &*gate, workers) {
        Ok(pool) => pool,
        Err(_) => Pool::empty(alloc),
    };
    let end = run_step_by::<T, L, G, R>(
        &mut pool,
        &*rt,
        alloc,
        &*desk,
        prepared,
        artifacts,
        analyzer,
        reducer,
        round_limit,
        &*gate,
    );
    pool.end(&*desk, &*rt);
    end
}

/// As `run_step`, over one pool of workers for all rounds: it starts them once, and joins them at every end. The analyzer and the reducer come back.
///
/// # Errors
/// Those of `run_step`.
pub fn run_pooled_step<
    T: PartitionTask + Send + 'static,
    L: Ledger + Send + Sync + 'static,
    G: Gate + Sync,
    R: Threads + Wait + Sync,
>(
    rt: &R,
    alloc: Global,
    desk: &Desk<L>,
    prepared: Prepared,
    artifacts: Vec<T::Artifacts>,
    analyzer: FaultlessAnalyzer,
    reducer: FaultlessReducer,
    round_limit: Option<u64>,
    gate: &G,
) -> (
    Result<StepEnd<T::Artifacts>, StepError>,
    FaultlessAnalyzer,
    FaultlessReducer,
)
    ensures run { IfOk result.0 (λ end. IsRunOfStep (record {
      setup = prepared;
      artifacts = map T.Artifacts.meaning artifacts.items;
      round_limit = round_limit;
      heard_before = map well analyzer;
      heard_after = map well result.1;
      notes = end.plans.items;
      snapshot = end.snapshot;
      left = given_back T.Artifacts.meaning end.artifacts.items;
    })) }
    ensures headline { IfOk result.0 (λ end. Headline (record {
      setup = prepared;
      artifacts = map T.Artifacts.meaning artifacts.items;
      round_limit = round_limit;
      heard_before = map well analyzer;
      heard_after = map well result.1;
      notes = end.plans.items;
      snapshot = end.snapshot;
      left = given_back T.Artifacts.meaning end.artifacts.items;
    })) }
    ensures on_the_way { IfOk result.0 (λ end. AreLeftOnTheWay (first_tasks prepared (map T.Artifacts.meaning artifacts.items)) end.snapshot.rows.items (given_back T.Artifacts.meaning end.artifacts.items)) }
    ensures short { IfOk result.0 (λ end. IsShort (first_tasks prepared (map T.Artifacts.meaning artifacts.items)) end.plans.items end.snapshot) }
    ensures status { IfOk result.0 (λ end. IsStatus end.snapshot (since (map well analyzer) (map well result.1)) (since (map well reducer) (map well result.2)) end.status) }
    ensures reducer { IfOk result.0 (λ end. AreCallsAfter end.snapshot (since (map well analyzer) (map well result.1)) (since (map well reducer) (map well result.2))) }
    ensures undone { IfErr result.0 (λ e. AreCallsUndone e (since (map well reducer) (map well result.2))) }
    ensures fit { OnOk result.0 (DoFit prepared (map T.Artifacts.meaning artifacts.items)) }
    ensures wrong { IfErr result.0 (λ e. e ≡ WrongArtifacts → DoFit prepared (map T.Artifacts.meaning artifacts.items) → ⊥) }
    ensures fit_first { IfErr result.0 (λ e. (DoFit prepared (map T.Artifacts.meaning artifacts.items) → ⊥) → (e ≡ WrongArtifacts) ⊎ (e ≡ Memory)) }
    ensures causes { IfErr result.0 IsRunError }
    ensures analyzer_grew { Grew (map well analyzer) (map well result.1) }
    ensures reducer_grew { Grew (map well reducer) (map well result.2) }
{
    thread::scope(
        thread::scope_env(),
        rt,
        move |scope| -> (
            Result<StepEnd<T::Artifacts>, StepError>,
            FaultlessAnalyzer,
            FaultlessReducer,
        )
            ensures { (IfOk result.0 (λ end. IsRunOfStep (record {
              setup = prepared;
              artifacts = map T.Artifacts.meaning artifacts.items;
              round_limit = round_limit;
              heard_before = map well analyzer;
              heard_after = map well result.1;
              notes = end.plans.items;
              snapshot = end.snapshot;
              left = given_back T.Artifacts.meaning end.artifacts.items;
            })))
                × (IfOk result.0 (λ end. Headline (record {
                  setup = prepared;
                  artifacts = map T.Artifacts.meaning artifacts.items;
                  round_limit = round_limit;
                  heard_before = map well analyzer;
                  heard_after = map well result.1;
                  notes = end.plans.items;
                  snapshot = end.snapshot;
                  left = given_back T.Artifacts.meaning end.artifacts.items;
                })))
                × (IfOk result.0 (λ end. AreLeftOnTheWay (first_tasks prepared (map T.Artifacts.meaning artifacts.items)) end.snapshot.rows.items (given_back T.Artifacts.meaning end.artifacts.items)))
                × (IfOk result.0 (λ end. IsShort (first_tasks prepared (map T.Artifacts.meaning artifacts.items)) end.plans.items end.snapshot))
                × (IfOk result.0 (λ end. IsStatus end.snapshot (since (map well analyzer) (map well result.1)) (since (map well reducer) (map well result.2)) end.status))
                × (IfOk result.0 (λ end. AreCallsAfter end.snapshot (since (map well analyzer) (map well result.1)) (since (map well reducer) (map well result.2))))
                × (IfErr result.0 (λ e. AreCallsUndone e (since (map well reducer) (map well result.2))))
                × (OnOk result.0 (DoFit prepared (map T.Artifacts.meaning artifacts.items)))
                × (IfErr result.0 (λ e. e ≡ WrongArtifacts → DoFit prepared (map T.Artifacts.meaning artifacts.items) → ⊥))
                × (IfErr result.0 (λ e. (DoFit prepared (map T.Artifacts.meaning artifacts.items) → ⊥) → (e ≡ WrongArtifacts) ⊎ (e ≡ Memory)))
                × (IfErr result.0 IsRunError)
                × (Grew (map well analyzer) (map well result.1))
                × (Grew (map well reducer) (map well result.2)) }
        {
            let mut analyzer = analyzer;
            let mut reducer = reducer;
            let end = run_in::<_, T, L, G, R>(
                scope,
                desk,
                rt,
                gate,
                alloc,
                prepared,
                artifacts,
                &mut analyzer,
                &mut reducer,
                round_limit,
            );
            (end, analyzer, reducer)
        },
    )
}
