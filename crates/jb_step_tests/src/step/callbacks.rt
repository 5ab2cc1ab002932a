//! Callbacks that fail, or are out of memory at the end of a step.

use crate::step::runs::assert_told;
use std::test::*;

/// A callback's fault makes the step failed; if one is out of memory, the step has no answer. Neither changes a partition. Neither changes
/// a later call, with two exceptions: `before_completion` is followed by a rollback, and the analyzer hears nothing after its fault.
const CALLBACKS: &str = "> records=abc/de/fg/ analyzer=1
[0, 1, 2]
Longest(0) 2 of 2
0:2:2 1:5:2 .
Begin Rollback After(Rollback) .
Failed 11
0 3 3 0 0 3 3 3 2 0 0 0 0 0 0 done xa xb xc
3 5 5 3 0 2 2 2 1 0 0 0 0 0 0 done xd xe
5 7 7 5 0 2 2 2 1 0 0 0 0 0 0 done xf xg
> records=a/ fault=1
[0]
Longest(0) 1 of 1
0:1:1 0:1:1:end 0 Completed .
Begin Before Rollback After(Rollback) .
Failed 4
0 1 1 0 0 1 1 1 1 0 0 0 0 0 0 done xa
> records=a/ fault=2
[0]
Longest(0) 1 of 1
0:1:1 0:1:1:end 0 Completed .
Begin Before After(Commit) .
Failed 4
0 1 1 0 0 1 1 1 1 0 0 0 0 0 0 done xa
> records=a/ lacking=before
[0]
Memory 4 1
0:1:1 0:1:1:end 0 Completed .
Begin Rollback After(Rollback) .
0 1 1 0 0 1 1 1 1 0 0 0 0 0 0 done xa
> records=a/ lacking=after-commit
[0]
Memory 4 1
0:1:1 0:1:1:end 0 Completed .
Begin Before .
0 1 1 0 0 1 1 1 1 0 0 0 0 0 0 done xa
> records=a/ fault=1 lacking=rollback
[0]
Memory 4 1
0:1:1 0:1:1:end 0 Completed .
Begin Before After(Rollback) .
0 1 1 0 0 1 1 1 1 0 0 0 0 0 0 done xa
> records=a/ fault=1 lacking=after-rollback
[0]
Memory 4 1
0:1:1 0:1:1:end 0 Completed .
Begin Before Rollback .
0 1 1 0 0 1 1 1 1 0 0 0 0 0 0 done xa
> records=a/ rounds=0 fault=1
[0]
0 Stopped .
Begin Rollback After(Rollback) .
Failed 1
0 1 0 0 0 0 0 0 0 0 0 0 0 0 0 waiting
> records=a/ rounds=0 fault=2
[0]
0 Stopped .
Begin Rollback After(Rollback) .
Failed 1
0 1 0 0 0 0 0 0 0 0 0 0 0 0 0 waiting
> records=a/ rounds=0 lacking=rollback
[0]
Memory 1 0
0 Stopped .
Begin After(Rollback) .
0 1 0 0 0 0 0 0 0 0 0 0 0 0 0 waiting
> records=a/ rounds=0 lacking=after-rollback
[0]
Memory 1 0
0 Stopped .
Begin Rollback .
0 1 0 0 0 0 0 0 0 0 0 0 0 0 0 waiting
";

#[test]
fn callbacks_fail_at_the_end(rt: HostRuntime) -> Result<(), Fail> {
    assert_told(&rt, rt.alloc(), CALLBACKS)
}
