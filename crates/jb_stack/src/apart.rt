//! Work on a thread whose stack has a stated size.
//!
//! A stack grows when it is first used. If the system refuses that, the process ends by SIGSEGV, and no code can answer it. A thread's stack is
//! taken whole when the thread is made, or the thread is refused.

ghost use Rattle.std.specs.Prelude.{◌≡◌, false, IfErr, IfNone, IfOk, IfSome, ⊤};
ghost use Rattle.jb_stack.specs.Room.{has_room};

use crate::limits::Limits;
use std::thread::{Builder, Promise, SpawnError, Threads};

/// The size of the stack, in bytes: a multiple of what each program uses, in any build.
const STACK: usize = 8 * 1_024 * 1_024;

/// The promise of work of which no contract says more.
#[derive(Clone, Copy)]
pub struct AnyAnswer;

impl<A> Promise<A> for AnyAnswer {
    ghost kept_by = { λ _ _. ⊤ };
}

/// The work's answer, from a thread with a stack of its own. The work is handed back if there is no memory for that stack, or no thread.
fn run_on_thread<
    T: Threads,
    P: Promise<A> + Drop,
    F: FnOnce() -> A + Send + 'static,
    A: Send + Drop + 'static,
>(rt: &T, promise: P, work: F) -> Result<A, SpawnError<F>>
    requires runs { F.pre work }
    requires keeps { (a : A) → F.post work a → P.kept_by promise a }
    ensures answered { IfOk result (P.kept_by promise) }
    ensures refused { IfErr result (λ e. e.value ≡ work) }
{
    match Builder::new()
        .stack_size(STACK)
        .spawn_with(rt, promise, work)
    {
        Ok(thread) => Ok(thread.join(rt)),
        Err(refused) => Err(refused),
    }
}

/// The work's answer, from this thread's stack. The new thread's start calls the same work, so no compiler makes it part of the frame of one
/// caller.
#[inline(never)]
fn run_here<F: FnOnce() -> A, A>(work: F) -> A
    requires { F.pre work }
    ensures { F.post work result }
{
    work()
}

/// Runs the work on a thread whose stack has a stated size, and gives its answer. If no such thread can be made, the work runs on the caller's
/// stack, if by these limits that stack is known to have room. Else the work isn't run, and there is no answer.
pub fn run_apart<
    T: Threads,
    P: Promise<A> + Drop,
    F: FnOnce() -> A + Send + Drop + 'static,
    A: Send + Drop + 'static,
>(rt: &T, limits: &Limits, promise: P, work: F) -> Option<A>
    requires runs { F.pre work }
    requires keeps { (a : A) → F.post work a → P.kept_by promise a }
    ensures answered { IfSome result (P.kept_by promise) }
    ensures refused { IfNone result (has_room limits.now.stack limits.now.space ≡ false) }
{
    match run_on_thread(rt, promise, work) {
        Ok(answer) => Some(answer),
        Err(refused) if limits.has_room() => Some(run_here(refused.value)),
        Err(_) => None,
    }
}
