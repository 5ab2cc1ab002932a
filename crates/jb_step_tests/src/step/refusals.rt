//! Why a step has no answer.

use crate::step::runs::assert_told;
use std::test::*;

/// The first refusal in the order is answered. If `begin` was answered well, the reducer is rolled back then, as far as it has memory for
/// it. A mapper that fails, or is out of memory, is called once, and only if `begin` was answered well. There may be artifacts for one
/// partition alone, and a desk with the row of another step, or both.
const REFUSALS: &str = r#"> records=ab/c/ failing
asked 1
no desk: Mapper(ClassId { number: 3 })
Begin Rollback After(Rollback) .
> records=ab/c/ failing fault=0
asked 0
no desk: Reducer(ClassId { number: 3 })
Begin .
> records=ab/c/ failing lacking=begin
asked 0
no desk: Memory
.
> records=ab/c/ failing lacking=rollback
asked 1
no desk: Memory
Begin After(Rollback) .
> records=ab/c/ failing forgetful
asked 1
no desk: Memory
Begin Rollback After(Rollback) .
> records=ab/c/ threads=5000
no desk: Plan(Threads)
Begin Rollback After(Rollback) .
> records=ab/c/ threads=5000 lacking=after-rollback
no desk: Memory
Begin Rollback .
> records=ab/c/ short
[0, 1]
WrongArtifacts 0 0
.
Begin Rollback After(Rollback) .
0 2 0 0 0 0 0 0 0 0 0 0 0 0 0 waiting
2 3 2 2 0 0 0 0 0 0 0 0 0 0 0 waiting
> records=ab/c/ short lacking=rollback
[0, 1]
Memory 0 0
.
Begin After(Rollback) .
0 2 0 0 0 0 0 0 0 0 0 0 0 0 0 waiting
2 3 2 2 0 0 0 0 0 0 0 0 0 0 0 waiting
> records=ab/c/ on records=ab/c/ planned saved={"rows":[[0,2,2,0,0,2,2,2,1,0,0,0,0,0,0,"done"],[2,3,2,2,0,0,0,0,0,0,0,0,0,0,0,"waiting"]],"step":"step","version":2}
[0, 1]
Repository(0) 1 1
.
Begin Rollback After(Rollback) .
0 2 2 0 0 2 2 2 1 0 0 0 0 0 0 done xa xb
2 3 2 2 0 0 0 0 0 0 0 0 0 0 0 waiting
> records=ab/c/ short on records=ab/c/ planned saved={"rows":[[0,2,2,0,0,2,2,2,1,0,0,0,0,0,0,"done"],[2,3,2,2,0,0,0,0,0,0,0,0,0,0,0,"waiting"]],"step":"step","version":2}
[0, 1]
WrongArtifacts 1 1
.
Begin Rollback After(Rollback) .
0 2 2 0 0 2 2 2 1 0 0 0 0 0 0 done xa xb
2 3 2 2 0 0 0 0 0 0 0 0 0 0 0 waiting
"#;

#[test]
fn refusals(rt: HostRuntime) -> Result<(), Fail> {
    assert_told(&rt, rt.alloc(), REFUSALS)
}
