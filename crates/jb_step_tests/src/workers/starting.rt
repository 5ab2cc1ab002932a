//! A pool that may be out of memory as it is started. It has fewer workers only if a thread can't be made.

ghost use Rattle.std.specs.Prelude.{◌≡◌};

use crate::workers::most::OneRecordTask;
use crate::workers::parts::parts_left;
use crate::workers::tasks::{fresh_rows, repository};
use jb_workers::{Desk, NoGate, Pool, RoundError, start_pool};
use std::alloc::Global;
use std::marker::Brand;
use std::sync::Wait;
use std::sync::ledger::{Blank, Ledger};
use std::test::*;
use std::thread;
use std::thread::{Scope, Threads};

const WORKERS: usize = 3;

/// One for each worker, and one to spare.
const PARTS: u64 = 4;

/// Starts a pool and ends it: how many workers it had.
fn started<'s, E, L: Ledger + Send + Sync + 's, R: Threads + Wait + Sync + 's>(
    scope: &Scope<'s, E>,
    rt: &'s R,
    alloc: Global,
    desk: &'s Desk<L>,
) -> Result<usize, RoundError> {
    let pool: Pool<OneRecordTask, L> = start_pool(&*scope, &*desk, &*rt, alloc, &NoGate, WORKERS)?;
    let workers = pool.workers();
    pool.end(&*desk, &*rt);
    Ok(workers)
}

/// The same in its own scope.
fn in_scope<L: Ledger + Send + Sync + 'static, R: Threads + Wait + Sync>(
    rt: &R,
    alloc: Global,
    desk: &Desk<L>,
) -> Result<usize, RoundError> {
    thread::scope(
        thread::scope_env(),
        rt,
        |scope| -> Result<usize, RoundError> { started(scope, rt, alloc, desk) },
    )
}

/// Whether this answer is right if so many parts are left. A pool lacks workers only if a thread couldn't be made, and that thread's part
/// is lost. If no part is lost, the pool was out of memory, and the answer has to be Memory.
fn is_well(workers: Result<usize, RoundError>, left: u64) -> bool {
    match workers {
        Ok(workers) => left == if workers == WORKERS { PARTS } else { PARTS - 1 },
        Err(error) => error == RoundError::Memory && left == PARTS,
    }
}

/// Whether the answer is right on a new desk; `None` if a request of the test itself was refused.
fn start_short<L: Ledger + Send + Sync + 'static, R: Threads + Wait + Sync>(
    rt: &R,
    alloc: Global,
    blank: Blank,
    parts: u64,
) -> Option<bool>
    requires name { blank.name ≡ L.name }
    requires parts { blank.parts ≡ L.parts }
    requires all { blank.parts ≡ parts }
{
    let desk = Desk::<L>::with_parts(repository(alloc, &fresh_rows())?, blank, parts);
    let workers = in_scope(rt, alloc, &desk);
    Some(is_well(workers, parts_left(rt, &desk, PARTS)))
}

/// `tests/refused-memory` runs it with each request for memory refused in turn. The answer is Memory for each request in the making of a
/// worker, but for its thread's.
#[test]
fn memory_refused(rt: HostRuntime) {
    let is_well = start_short::<Brand, _>(&rt, rt.alloc(), Blank::new(PARTS), PARTS);
    assert!(rt; is_well.unwrap_or(true));
}
