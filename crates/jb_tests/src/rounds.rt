//! Large loads, and out of memory; for `jb_cert` too. Every small load is in `tests/printed-plans`, and what is refused or printed
//! is in `cases/plan` and `cases/check`.

use jb_cert::{Certificate, Plan, PlanFault, check_plan, fits, is_least_plan};
use jb_rounds::{RoundCursor, plan};
use std::alloc::{AllocError, Global};

// The slots of as many counts as there may be.
#[test]
fn finds_slots_of_a_large_load(rt: HostRuntime) -> Result<(), AllocError> {
    let many = vec![in rt.alloc(); 2_000u64; 4_096]?;
    assert!(rt; fits(&many, 63));
    let cursor = RoundCursor::new(rt.alloc(), &many, 63)?;
    assert!(rt; cursor.rounds() == 130_032 && cursor.slot(130_031, 0) == Some((65, 1_999)));
    assert!(rt; cursor.slots(rt.alloc(), 0)?.len() == 63);
    Ok(())
}

// Whether the plan is valid: no fault is found in it.
fn is_lawful(alloc: Global, counts: &[u64], threads: u32, made: &Plan) -> bool {
    fits(counts, threads) && check_plan(alloc, counts, threads, made) == Ok(())
}

// As many partitions and threads as a load may have.
#[test]
fn plans_the_most_partitions(rt: HostRuntime) -> Result<(), AllocError> {
    let counts = vec![in rt.alloc(); 1u64; 4_096]?;
    assert!(rt; fits(&counts, 64));
    let (made, certificate) = plan(rt.alloc(), &counts, 64)?;
    assert!(rt; made.rounds.len() == 64 && certificate == Certificate::FullLoad);
    assert!(rt; is_lawful(rt.alloc(), &counts, 64, &made));
    Ok(())
}

// Whether this comes of a plan of three counts on two threads, or there is no memory to judge it.
fn is_judged(alloc: Global, counts: &[u64], made: &Plan, wanted: Result<(), PlanFault>) -> bool {
    if !fits(counts, 2) {
        return false;
    }
    let verdict = check_plan(alloc, counts, 2, made);
    verdict == wanted || verdict == Err(PlanFault::Memory)
}

// With any one allocation refused, a call answers in full or is out of memory. `tests/refused-memory` runs it with each
// refused in turn.
#[test]
fn wants_memory_or_answers_in_full(rt: HostRuntime) {
    let counts = [3, 3, 3];
    assert!(rt; fits(&counts, 2));
    let Ok((mut made, certificate)) = plan(rt.alloc(), &counts, 2) else {
        return;
    };
    assert!(rt; is_least_plan(&counts, 2, made.rounds.len() as u64, certificate));
    assert!(rt; is_judged(rt.alloc(), &counts, &made, Ok(())));
    let _last = made.rounds.pop();
    assert!(rt; is_judged(rt.alloc(), &counts, &made, Err(PlanFault::Missing)));
}
