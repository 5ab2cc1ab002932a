//! What holds of every run of a step. Nothing is done here: the clauses are the laws.

ghost use Rattle.jb_step.specs.rounds.PlanLaws.{BeginsWithRows, BeginsWithTable, BeginsWithTasks, ChunksAreBlocks, EndsWhole, NextCanRun, PartitionsStay, RunsAll, RunsInOrder};
ghost use Rattle.jb_step.specs.Headline.{HeadlineHolds, UnstoppedRunsAgree};
ghost use Rattle.jb_step.specs.Laws.{StepsAreOnTheWay, StepsEndAlone, AloneIsOnePlace, CalmStepsArePlain};
ghost use Rattle.jb_step.specs.inside.LowerLaws.{LowerLaws};
ghost use Rattle.jb_step.specs.OnePartition.{AttemptsAreAlone, HeardOfPartition, OthersDontCount};
ghost use Rattle.jb_step.specs.restarts.Restarts.{OverridesStartFresh, RestartsAreOnTheWay, RestartsEndAlone, RestartsEndAsUnstopped, RestartsFit};

use jb_cert::{bound_is_least, wrap_around_is_least};
use jb_chunk::{
    attempts_are_steps, runs_end_alike, runs_lead_to_an_end, tasks_go_on, tasks_stay_ready,
};
use jb_collect::{calls_end_at_a_fault, partitions_are_heard_apart};
use jb_plan::chunks_follow_one_another;
use jb_saved::answers_are_computed;

/// The headline: what every run of a step did. It requires only that `run_step` answered.
///
/// Each of its plans has exactly the chunks not yet committed, and runs each partition's in order. It has the fewest rounds of all lawful
/// plans, with a certificate of it. Unstopped, the step leaves each partition where its attempts alone end.
pub fn headline()
    ensures holds { HeadlineHolds }
    ensures agree { UnstoppedRunsAgree }
{
    lower_laws();
    runs_end_alike();
}

/// What a run of a step does to each partition.
pub fn partitions_run_alone()
    ensures on_the_way { StepsAreOnTheWay }
    ensures alone { StepsEndAlone }
    ensures one_place { AloneIsOnePlace }
    ensures plain { CalmStepsArePlain }
{
    runs_lead_to_an_end();
    runs_end_alike();
}

/// What a run of a step is to one partition.
pub fn others_dont_count()
    ensures others { OthersDontCount }
    ensures heard { HeardOfPartition }
    ensures attempts { AttemptsAreAlone }
{
    partitions_are_heard_apart();
}

/// A plan can be run to its end, as long as no round has a rollback or a failure.
pub fn plans_can_be_run()
    ensures next { NextCanRun }
    ensures order { RunsInOrder }
    ensures blocks { ChunksAreBlocks }
    ensures all { RunsAll }
    ensures whole { EndsWhole }
    ensures tasks { BeginsWithTasks }
    ensures begins { BeginsWithTable }
    ensures rows { BeginsWithRows }
    ensures stay { PartitionsStay }
{
    lower_laws();
}

/// A step may be stopped any number of times, and restarted each time through its saved text. Once nothing stops it, it ends as a step that
/// was never stopped, for any numbers of threads of its runs.
///
/// The restarts are described call by call: what `run_step` says of its answer, then what `Saved::of`, `saved_text`, `read_saved` and
/// `prepare` say of theirs, and the artifacts that `run_step` takes. No partition may have failed at a stop.
pub fn restarts_go_on()
    ensures fit { RestartsFit }
    ensures on_the_way { RestartsAreOnTheWay }
    ensures alone { RestartsEndAlone }
    ensures unstopped { RestartsEndAsUnstopped }
{
    answers_are_computed();
    tasks_go_on();
    tasks_stay_ready();
    runs_lead_to_an_end();
    runs_end_alike();
}

/// A restart whose plan overrides what was saved is prepared as if nothing was saved, but for the reducer's `rollback`. It begins a new
/// chain of restarts.
pub fn overrides_start_fresh()
    ensures { OverridesStartFresh }
{}

/// What the crates below say of chunks, of plans, and of calls that may be answered with a fault.
pub(crate) fn lower_laws()
    ensures { LowerLaws }
{
    chunks_follow_one_another();
    attempts_are_steps();
    wrap_around_is_least();
    bound_is_least();
    calls_end_at_a_fault();
    runs_lead_to_an_end();
}
