//! Restarts whose plan replaces the saved partitions, beside others that resume: what is refused, and what the reducer is called with.

use crate::step::runs::assert_told;
use std::test::*;

/// Only the step of discarded rows is checked. The rollback of what is discarded comes after `begin`, and once.
///
/// Rows of another step, whose plan is refused first. The same rows on a plan that replaces them, and on one that doesn't. Rows that end
/// past the last record, on a plan that doesn't. Then a plan that replaces rows, also those of a text of version 1, of which one failed.
/// Then a reducer whose `begin` or `rollback` fails or is out of memory.
const RESTARTS: &str =
    r#"> records=ab/ threads=5000 override saved={"rows":[[0,2,0,0,0,0,0,0,0,0,0,0,0,0,0,"waiting"],[2,3,2,2,0,0,0,0,0,0,0,0,0,0,0,"waiting"]],"step":"other","version":2}
no desk: Plan(Threads)
Begin Rollback After(Rollback) .
> records=ab/ override saved={"rows":[[0,2,0,0,0,0,0,0,0,0,0,0,0,0,0,"waiting"],[2,3,2,2,0,0,0,0,0,0,0,0,0,0,0,"waiting"]],"step":"other","version":2}
no desk: Saved(Step)
Begin Rollback After(Rollback) .
> records=ab/ saved={"rows":[[0,2,0,0,0,0,0,0,0,0,0,0,0,0,0,"waiting"],[2,3,2,2,0,0,0,0,0,0,0,0,0,0,0,"waiting"]],"step":"other","version":2}
no desk: Saved(Step)
Begin Rollback After(Rollback) .
> records=ab/ saved={"rows":[[0,2,0,0,0,0,0,0,0,0,0,0,0,0,0,"waiting"],[2,3,2,2,0,0,0,0,0,0,0,0,0,0,0,"waiting"]],"step":"step","version":2}
no desk: Saved(Records)
Begin Rollback After(Rollback) .
> records=ab/ override saved={"rows":[[0,2,0,0,0,0,0,0,0,0,0,0,0,0,0,"waiting"],[2,3,2,2,0,0,0,0,0,0,0,0,0,0,0,"waiting"]],"step":"step","version":2}
[0]
Longest(0) 1 of 1
0:2:2 0:2:2:end 0 Completed .
Begin Rollback Before After(Commit) .
Completed 4
0 2 2 0 0 2 2 2 1 0 0 0 0 0 0 done xa xb
> records=a/b///c/ override saved={"rows":[[0,3,2,0,0,2,2,2,1,0,0,0,0,0,"waiting"],[3,5,5,3,0,2,2,2,1,0,0,0,0,0,"done"],[5,7,5,5,0,0,0,0,0,0,0,0,0,0,"failed"]],"step":"step","version":1}
[0, 1, 4]
FullLoad 2 of 2
2 Completed 3 Completed 0:1:1 0:1:1:end 0 Completed 4:3:1 4:3:1:end 4 Completed 1:2:1 1:2:1:end 1 Completed .
Begin Rollback Before After(Commit) .
Completed 9
0 1 1 0 0 1 1 1 1 0 0 0 0 0 0 done xa
1 2 2 1 0 1 1 1 1 0 0 0 0 0 0 done xb
2 2 2 2 0 0 0 0 0 0 0 0 0 0 0 done
2 2 2 2 0 0 0 0 0 0 0 0 0 0 0 done
2 3 3 2 0 1 1 1 1 0 0 0 0 0 0 done xc
> records=ab/ override fault=0 saved={"rows":[[0,2,0,0,0,0,0,0,0,0,0,0,0,0,0,"waiting"],[2,3,2,2,0,0,0,0,0,0,0,0,0,0,0,"waiting"]],"step":"step","version":2}
no desk: Reducer(ClassId { number: 3 })
Begin .
> records=ab/ override fault=1 saved={"rows":[[0,2,0,0,0,0,0,0,0,0,0,0,0,0,0,"waiting"],[2,3,2,2,0,0,0,0,0,0,0,0,0,0,0,"waiting"]],"step":"step","version":2}
no desk: Reducer(ClassId { number: 3 })
Begin Rollback After(Rollback) .
> records=ab/ override lacking=rollback saved={"rows":[[0,2,0,0,0,0,0,0,0,0,0,0,0,0,0,"waiting"],[2,3,2,2,0,0,0,0,0,0,0,0,0,0,0,"waiting"]],"step":"step","version":2}
no desk: Memory
Begin After(Rollback) .
> records=ab/ override fault=1 lacking=after-rollback saved={"rows":[[0,2,0,0,0,0,0,0,0,0,0,0,0,0,0,"waiting"],[2,3,2,2,0,0,0,0,0,0,0,0,0,0,0,"waiting"]],"step":"step","version":2}
no desk: Memory
Begin Rollback .
"#;

#[test]
fn saved_rows_are_discarded_or_refused(rt: HostRuntime) -> Result<(), Fail> {
    assert_told(&rt, rt.alloc(), RESTARTS)
}
