//! The laws of a task's attempts. The functions do nothing: their contracts are the laws.

ghost use Rattle.jb_chunk.specs.Laws.{OneEnd, CalmRunsArePlain, RunsAreShort, RetriesAreFew, WaysJoin, WaysEnd, TasksStayReady, TasksStandAtCheckpoints, SamePlace, SameEnd, CommitsTakeOneChunk, CommitsHaveDeltas, RepeatsAreRetries, AttemptsWithoutRepeats, RepeatsStay};

use jb_plan::chunks_follow_one_another;
use jb_rules::rows_stay_sound;

/// A task that runs alone ends in one place, so the place depends on no thread and no other partition. If no call
/// fails, it is the place of its Plain run.
pub fn runs_end_alike()
    ensures one { OneEnd }
    ensures plain { CalmRunsArePlain }
{
    chunks_follow_one_another();
}

/// A run has no more attempts than there are retries and records left. Its repeats in place and rollbacks together are no more
/// than there are retries left. Two runs, one after the other, are one. A run to an end is a run alone.
pub fn runs_lead_to_an_end()
    ensures short { RunsAreShort }
    ensures retries { RetriesAreFew }
    ensures join { WaysJoin }
    ensures end { WaysEnd }
{
    chunks_follow_one_another();
}

/// A task that resumes after any of its attempts is where it was, and ends where it would have ended.
pub fn tasks_go_on()
    ensures place { SamePlace }
    ensures end { SameEnd }
{
    chunks_follow_one_another();
}

/// Wherever its attempts lead, a task is ready, unless its rollbacks or its repeats in place are beyond their limit.
pub fn tasks_stay_ready()
    ensures { TasksStayReady }
{
    chunks_follow_one_another();
    rows_stay_sound();
}

/// Wherever its attempts lead, a task is at its checkpoint: its reader is there, and as many results are written as its row
/// says. While it waits its next chunk has a record and is in its range.
pub fn tasks_stand_at_checkpoints()
    ensures { TasksStandAtCheckpoints }
{
    chunks_follow_one_another();
}

/// An attempt that commits takes just the first of the chunks that are left, and its counts are those of a committed chunk
/// with as many records. The repeats in place are retries of the row, and change nothing else of it.
pub fn attempts_are_steps()
    ensures chunk { CommitsTakeOneChunk }
    ensures delta { CommitsHaveDeltas }
    ensures repeats { RepeatsAreRetries }
{
    chunks_follow_one_another();
}

/// If `no_rollback` has no class, no call is repeated in place. An attempt is that of the block as it is, and leaves the
/// row's number of repeats as it was.
pub fn repeats_need_a_class()
    ensures attempt { AttemptsWithoutRepeats }
    ensures row { RepeatsStay }
{}
