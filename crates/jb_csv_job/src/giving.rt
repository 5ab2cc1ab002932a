//! The results of a slice, given to a sink.

ghost use Rattle.std.specs.Prelude.{◌≡◌, ◌<◌, ◌++◌, ℕ, List, IfErr, OnOk};
ghost use Rattle.jb_records.specs.PartitionResults.{joined};
ghost use Rattle.jb_csv_job.specs.Tasks.{given_by, is_own as is_own_of};

use crate::asked::Task;
use crate::failure::CsvJobError;
use crate::sink::Sink;
use jb_base::PackedList;

/// Whether the slice of this number is one of the task's own.
pub(crate) fn is_own(task: Task, number: u64) -> bool
    requires { (part of : ℕ) → task ≡ Task.Part part of → 0 < of }
    ensures { result ≡ is_own_of task number }
{
    match task {
        Task::Run | Task::Collect => true,
        Task::Part { part, of } => number % of == part,
    }
}

/// Gives the sink these results, those of one partition after those of the other.
fn give_all<N: Sink>(sink: &mut N, partition_results: &[PackedList]) -> Result<(), CsvJobError>
    ensures taken { OnOk result ((start : N) (before : List (List ℕ)) → N.took start sink.old before → N.took start sink.new (before ++ joined partition_results.now)) }
    ensures refused { IfErr result N.may_refuse }
{
    for share in partition_results {
        sink.take(share)?;
    }
    Ok(())
}

/// The same, but for a part, which gives none.
pub(crate) fn give<N: Sink>(
    task: Task,
    sink: &mut N,
    partition_results: &[PackedList],
) -> Result<(), CsvJobError>
    ensures taken { OnOk result ((start : N) (before : List (List ℕ)) → N.took start sink.old before → N.took start sink.new (before ++ given_by task (joined partition_results.now))) }
    ensures refused { IfErr result N.may_refuse }
{
    match task {
        Task::Run | Task::Collect => give_all(sink, partition_results),
        Task::Part { .. } => Ok(()),
    }
}
