//! A step whose desk isn't its own, was used before, or refuses what the step does.

use crate::step::runs::assert_told;
use std::test::*;

/// The first row that differs is named, else the number of rows. If a round has no answer, its Commits are in the history, and Round isn't.
///
/// Other rows. A plan in the history. One thread, where a plan for two is refused. Then partitions that can't begin. One had as many
/// rollbacks as it may. The same as the second of two, while the first one commits. One has no room for the repeats in place of one more
/// chunk.
const DESKS: &str = r#"> records=ab/c/ on records=ab/cd/
[0, 1]
Repository(1) 0 0
.
Begin Rollback After(Rollback) .
0 2 0 0 0 0 0 0 0 0 0 0 0 0 0 waiting
2 4 2 2 0 0 0 0 0 0 0 0 0 0 0 waiting
> records=ab/c/ on records=ab/c/ planned
[0, 1]
Repository(2) 1 1
.
Begin Rollback After(Rollback) .
0 2 0 0 0 0 0 0 0 0 0 0 0 0 0 waiting
2 3 2 2 0 0 0 0 0 0 0 0 0 0 0 waiting
> records=ab/c/ on records=ab/c/ threads=1
[0, 1]
Repository(2) 0 0
.
Begin Rollback After(Rollback) .
0 2 0 0 0 0 0 0 0 0 0 0 0 0 0 waiting
2 3 2 2 0 0 0 0 0 0 0 0 0 0 0 waiting
> records=a/ saved={"rows":[[0,1,0,0,0,0,0,0,0,1000000000000,0,0,0,0,0,"waiting"]],"step":"step","version":2}
[0]
Repository(1) 1 1
.
Begin Rollback After(Rollback) .
0 1 0 0 0 0 0 0 0 1000000000000 0 0 0 0 0 waiting
> records=a/b/ saved={"rows":[[0,1,0,0,0,0,0,0,0,0,0,0,0,0,0,"waiting"],[1,2,1,1,0,0,0,0,0,1000000000000,0,0,0,0,0,"waiting"]],"step":"step","version":2}
[0, 1]
Repository(2) 3 1
.
Begin Rollback After(Rollback) .
0 1 1 0 0 1 1 1 1 0 0 0 0 0 0 done xa
1 2 1 1 0 0 0 0 0 1000000000000 0 0 0 0 0 waiting
> records=a/ saved={"rows":[[0,1,0,0,999999900001,0,0,0,0,0,0,0,0,0,999999900001,"waiting"]],"step":"step","version":2}
[0]
Repository(1) 1 1
.
Begin Rollback After(Rollback) .
0 1 0 0 999999900001 0 0 0 0 0 0 0 0 0 999999900001 waiting
"#;

#[test]
fn desks_are_refused(rt: HostRuntime) -> Result<(), Fail> {
    assert_told(&rt, rt.alloc(), DESKS)
}

/// Six records on the desk of the same step with three records a chunk. Each partition has as many chunks of three records as of two. The
/// desk refuses the Commit of partition 0, and Round isn't there. Nothing that was committed is lost: new artifacts and a new desk resume
/// from the rows of that desk, and the step ends as the one that nothing disturbs.
const REFUSED: &str = "> records=abcd/ef/ on records=abcd/ef/ items=3
[0, 1]
Repository(2) 5 1
.
Begin Rollback After(Rollback) .
0 4 0 0 0 0 0 0 0 0 0 0 0 0 0 waiting
4 6 6 4 0 2 2 2 1 0 0 0 0 0 0 done xe xf
> records=abcd/ef/ again
[0]
Longest(0) 2 of 2
0:2:2 0:4:4 0:4:4:end 0 Completed .
Begin Before After(Commit) .
Completed 7
0 4 4 0 0 4 4 4 2 0 0 0 0 0 0 done xa xb xc xd
4 6 6 4 0 2 2 2 1 0 0 0 0 0 0 done xe xf
";

#[test]
fn a_refused_round_is_gone_on_from(rt: HostRuntime) -> Result<(), Fail> {
    assert_told(&rt, rt.alloc(), REFUSED)
}
