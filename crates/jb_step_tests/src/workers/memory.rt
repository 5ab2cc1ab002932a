//! A round that is out of memory.

ghost use Rattle.std.specs.Prelude.{◌≡◌, IfSome};
ghost use Rattle.jb_chunk.specs.TaskState.{IsReady};
ghost use Rattle.jb_workers.specs.Works.{AllCanBegin};
ghost use Rattle.jb_base.specs.Limits.{max_parts};

use crate::way::{BOTH_WAYS, Way};
use crate::workers::most::commits;
use crate::workers::rounds::run_round_in;
use crate::workers::tasks::{
    Processor, RULES, fresh_rows, letters, prefixing, repository, task_of, with_work, writer,
};
use jb_artifacts::{ArtifactsOf, CountCollector, FaultPlans, ListWriter, TableReader};
use jb_base::MAX_PARTS;
use jb_cert::Certificate;
use jb_chunk::{Done, PartitionTask, Task};
use jb_repo::{Event, Refused, Snapshot};
use jb_workers::{Desk, NoGate, RoundError, Work};
use std::alloc::{AllocError, Global};
use std::marker::Brand;
use std::sync::Wait;
use std::sync::ledger::{Blank, Ledger};
use std::test::*;
use std::thread::Threads;

type LettersArtifacts = ArtifactsOf<TableReader, Processor, ListWriter, CountCollector>;

type LettersTask = Task<LettersArtifacts>;

fn artifacts(alloc: Global) -> Result<LettersArtifacts, AllocError> {
    let reader = letters(alloc)?;
    let processor = prefixing(alloc, FaultPlans::new(alloc), true)?;
    Ok(ArtifactsOf {
        reader,
        processor,
        writer: writer(alloc),
        collector: CountCollector::new(alloc),
    })
}

/// The task of partition 0 or 1.
fn own_task(alloc: Global, partition: u32) -> Option<LettersTask>
    ensures { IfSome result (λ task. IsReady (⟦<LettersTask as PartitionTask>⟧.task_state task)) }
{
    let [first, second] = fresh_rows();
    let row = if partition == 0 { first } else { second };
    task_of::<LettersTask>(partition, row, RULES, 2, artifacts(alloc).ok()?)
}

/// Whether a round can end so when it is out of memory.
fn is_want(error: RoundError) -> bool {
    matches!(
        error,
        RoundError::Memory | RoundError::WorkerNotStarted | RoundError::Refused(Refused::Memory)
    )
}

/// Whether the desk's plan of one round is still open: no Round was entered since.
fn is_open<L: Ledger>(rt: &impl Wait, desk: &Desk<L>) -> bool {
    let next = desk.apply(rt, Event::Plan(1, Certificate::FullLoad));
    matches!(next, Err(Refused::StillRunning))
}

/// Whether a round that ended so on the desk, with this table after it, lost nothing; without an answer it isn't entered.
fn is_whole<L: Ledger, T>(
    rt: &impl Wait,
    desk: &Desk<L>,
    round: &Result<Vec<Done<T>>, RoundError>,
    after: &Snapshot,
) -> bool {
    match round {
        Ok(dones) => after.events == 6 && after.totals.commit == commits(dones).1 as u64,
        Err(error) => is_want(*error) && after.events < 6 && is_open(rt, desk),
    }
}

/// Whether no lane runs, and each commit of the table is a whole chunk.
fn is_sound(after: &Snapshot) -> bool {
    after.rows.iter().all(|row| !row.state.is_running())
        && after.totals.write / 2 == after.totals.commit
}

/// The works of both tasks.
fn both<T: PartitionTask>(alloc: Global, task: T, other: T) -> Option<Vec<Work<T>>>
    requires ready { IsReady (T.task_state task) }
    requires other_ready { IsReady (T.task_state other) }
    ensures { IfSome result (λ works. AllCanBegin T.task_state works.items) }
{
    let works = with_work(Vec::new(alloc), 0, task)?;
    with_work(works, 1, other)
}

/// A round of both tasks, of which each request for memory may be refused. Answers whether after it no lane runs, each commit of the table
/// is a whole chunk, and the round is entered exactly if it has an answer. `None` if a request of the test itself was refused.
fn run_short<
    L: Ledger + Send + Sync + 'static,
    T: PartitionTask + Send + 'static,
    R: Threads + Wait + Sync,
>(way: Way, rt: &R, alloc: Global, blank: Blank, task: T, other: T) -> Option<bool>
    requires name { blank.name ≡ L.name }
    requires parts { blank.parts ≡ L.parts }
    requires all { blank.parts ≡ max_parts }
    requires ready { IsReady (T.task_state task) }
    requires other_ready { IsReady (T.task_state other) }
{
    let desk = Desk::<L>::new(repository(alloc, &fresh_rows())?, blank);
    let works = both(alloc, task, other)?;
    if let Err(refused) = desk.apply(rt, Event::Plan(1, Certificate::FullLoad)) {
        return Some(refused == Refused::Memory);
    }
    let round = run_round_in(way, &desk, rt, alloc, &NoGate, works);
    let after = match desk.status(rt) {
        Ok(after) => after,
        Err(_) => desk.status(rt).ok()?,
    };
    Some(is_sound(&after) && is_whole(rt, &desk, &round, &after))
}

/// `tests/refused-memory` runs it also with each request for memory refused in turn, and `tests/no-worker` where no thread can be made.
#[test]
fn memory_refused(rt: HostRuntime) {
    let alloc = rt.alloc();
    for way in BOTH_WAYS {
        if let (Some(task), Some(other)) = (own_task(alloc, 0), own_task(alloc, 1)) {
            let blank = Blank::new(MAX_PARTS);
            let is_well = run_short::<Brand, _, _>(way, &rt, alloc, blank, task, other);
            assert!(rt; is_well.unwrap_or(true));
        }
    }
}
