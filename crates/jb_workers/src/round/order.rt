//! The works of a round by rising partition.

ghost use Rattle.std.specs.Prelude.{◌≡◌, ◌≤◌, ◌↔◌, IsTrue, IfOk, IfErr, OnOk, length};
ghost use Rattle.std.specs.List.Sorted.{IsPermutation};
ghost use Rattle.jb_workers.specs.Works.{AllCanBegin, RiseByPartition, IsOrderOf};
ghost use Rattle.jb_workers.specs.declared.round.error.RoundError.TheVariants.{Memory};

use crate::round::RoundError;
use crate::worker::lane_work::Work;
use jb_chunk::PartitionTask;

/// The same works by rising partition: as they are, if they come so.
pub(crate) fn in_order<T: PartitionTask>(works: Vec<Work<T>>) -> Result<Vec<Work<T>>, RoundError>
    requires { AllCanBegin T.task_state works.items }
    ensures can { IfOk result (λ ordered. AllCanBegin T.task_state ordered.items) }
    ensures order { IfOk result (λ ordered. IsOrderOf T.task_state works.items ordered.items) }
    ensures all { IfOk result (λ ordered. length ordered.items ≡ length works.items) }
    ensures err { IfErr result (λ error. error ≡ Memory) }
    ensures same { RiseByPartition T.task_state works.items → IfOk result (λ ordered. ordered.items ≡ works.items) }
{
    if rise(works.as_slice()) {
        return Ok(works);
    }
    let mut works = works;
    sort_works(&mut works)?;
    Ok(works)
}

/// Whether the works come by rising partition.
fn rise<T: PartitionTask>(works: &[Work<T>]) -> bool
    ensures { IsTrue result ↔ RiseByPartition T.task_state works.now }
{
    for i in 1..works.len() {
        if !is_next(&works[i - 1], &works[i]) {
            return false;
        }
    }
    true
}

/// Whether the later work's partition is no lower than the earlier one's.
fn is_next<T: PartitionTask>(earlier: &Work<T>, later: &Work<T>) -> bool
    ensures { IsTrue result ↔ ((T.task_state earlier.now.task).partition ≤ (T.task_state later.now.task).partition) }
{
    earlier.task.partition() <= later.task.partition()
}

fn sort_works<T: PartitionTask>(works: &mut Vec<Work<T>>) -> Result<(), RoundError>
    ensures permutation { IsPermutation works.old.items works.new.items }
    ensures rising { OnOk result (RiseByPartition T.task_state works.new.items) }
    ensures err { IfErr result (λ error. error ≡ Memory) }
{
    match works.sort_by_key(|work| work.task.partition()) {
        Ok(()) => Ok(()),
        Err(_) => Err(RoundError::Memory),
    }
}
