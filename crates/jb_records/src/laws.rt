//! What comes of the attempts of a step over records. Nothing is done here: the clauses are the laws.

ghost use Rattle.jb_records.specs.FollowingLaws.{FailedRowsDont, FaultsAreOfItems, FinishedRowsPass, NewRowsFollow, RaisedRulesFollow, RangesStay, RestartsKeepRanges, RulesAreKept, StoppedRowsDont, StopsAreOne};
ghost use Rattle.jb_records.specs.Function.{OthersAreLeftOut};
ghost use Rattle.jb_records.specs.Runs.{PartsStay, ResultsGoOn};
ghost use Rattle.jb_records.specs.PartitionResults.{NewStepsBegin, PartitionResultsJoin};
ghost use Rattle.jb_records.specs.Skips.{NewRowsAreCounted, SkipsAreCounted};
ghost use Rattle.jb_records.specs.Steps.{StepsKeepResults};
ghost use Rattle.jb_records.specs.inside.InMemory.{RowsAreSaved, IntervalsGoOn, ArtifactsFit};

use jb_chunk::{attempts_are_steps, runs_lead_to_an_end, tasks_stand_at_checkpoints};
use jb_slices::choices_are_the_rules;
use jb_step::plans_can_be_run;

/// Wherever its attempts lead, a partition has the results of the records before its checkpoint: each once, in order.
pub fn results_go_on()
    ensures results { ResultsGoOn }
    ensures part { PartsStay }
{
    tasks_stand_at_checkpoints();
    runs_lead_to_an_end();
    attempts_are_steps();
}

/// So have all partitions of a step, wherever its run leads them. Those that begin from the start have no results. Once all partitions are
/// finished, their results, joined in the order of the partitions, are the results of all records. Refused and filtered records are left
/// out of these: all others have one.
pub fn steps_keep_results()
    ensures kept { StepsKeepResults }
    ensures begun { NewStepsBegin }
    ensures joined { PartitionResultsJoin }
    ensures left_out { OthersAreLeftOut }
{
    results_go_on();
    plans_can_be_run();
}

/// Wherever a step's run ends, its rows count as many skips of processing as records before their checkpoints are refused, if they did when
/// it began. New rows do.
pub fn skips_are_counted()
    ensures counted { SkipsAreCounted }
    ensures begun { NewRowsAreCounted }
{
    tasks_stand_at_checkpoints();
    runs_lead_to_an_end();
    attempts_are_steps();
    results_go_on();
    plans_can_be_run();
}

/// Wherever a step's run ends, its rows follow its rules, if no try of its function fails and they did when it began. New rows do. Finished
/// rows pass, and failed ones don't: each by one record. By raised limits they still follow, once the failed ones wait again. A partition
/// keeps its range.
pub fn rules_are_kept()
    ensures kept { RulesAreKept }
    ensures begun { NewRowsFollow }
    ensures finished { FinishedRowsPass }
    ensures failed { FailedRowsDont }
    ensures one { StopsAreOne }
    ensures stopped { StoppedRowsDont }
    ensures raised { RaisedRulesFollow }
    ensures items { FaultsAreOfItems }
    ensures ranges { RangesStay }
    ensures restarted { RestartsKeepRanges }
{
    choices_are_the_rules();
    tasks_stand_at_checkpoints();
    runs_lead_to_an_end();
    attempts_are_steps();
    results_go_on();
    plans_can_be_run();
}

/// A run that stays in memory continues from interval to interval: what came back of its partitions serves the next one, and its shares grow.
pub(crate) fn intervals_go_on()
    ensures fit { ArtifactsFit }
    ensures saved { RowsAreSaved }
    ensures on { IntervalsGoOn }
{
    tasks_stand_at_checkpoints();
    runs_lead_to_an_end();
    attempts_are_steps();
    results_go_on();
    plans_can_be_run();
    steps_keep_results();
    rules_are_kept();
}
