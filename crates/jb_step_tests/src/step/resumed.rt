//! A stop that a lane requests in the middle of a round.

use crate::step::runs::assert_told;
use std::test::*;

/// Lane 1 asks as it begins in the first round: what the round committed stays, and the restart ends as the step that nothing stops.
const IN_A_ROUND: &str = "> records=abc/de/fg/ lane=1 round=0
[0, 1, 2]
Longest(0) 1 of 2
0:2:2 1:5:2 1:5:2:end 1 Completed 0 Stopped 2 Stopped .
Begin Rollback After(Rollback) .
Stopped 7
0 3 2 0 0 2 2 2 1 0 0 0 0 0 0 waiting xa xb
3 5 5 3 0 2 2 2 1 0 0 0 0 0 0 done xd xe
5 7 5 5 0 0 0 0 0 0 0 0 0 0 0 waiting
asked to stop
> records=abc/de/fg/ again
[0, 2]
Longest(0) 1 of 1
0:3:3 0:3:3:end 0 Completed 2:7:2 2:7:2:end 2 Completed .
Begin Before After(Commit) .
Completed 6
0 3 3 0 0 3 3 3 2 0 0 0 0 0 0 done xa xb xc
3 5 5 3 0 2 2 2 1 0 0 0 0 0 0 done xd xe
5 7 7 5 0 2 2 2 1 0 0 0 0 0 0 done xf xg
";

#[test]
fn a_stop_in_a_round(rt: HostRuntime) -> Result<(), Fail> {
    assert_told(&rt, rt.alloc(), IN_A_ROUND)
}

/// In the last round, as lane 1 begins or as lane 0 is done, the step is completed, and no stop is in its history.
const IN_THE_LAST_ROUND: &str = "> records=abc/de/fg/ lane=1 round=1
[0, 1, 2]
Longest(0) 2 of 2
0:2:2 1:5:2 1:5:2:end 1 Completed 0:3:3 0:3:3:end 0 Completed 2:7:2 2:7:2:end 2 Completed .
Begin Before After(Commit) .
Completed 11
0 3 3 0 0 3 3 3 2 0 0 0 0 0 0 done xa xb xc
3 5 5 3 0 2 2 2 1 0 0 0 0 0 0 done xd xe
5 7 7 5 0 2 2 2 1 0 0 0 0 0 0 done xf xg
asked to stop
> records=abc/de/fg/ lane=0 round=1 leaving
[0, 1, 2]
Longest(0) 2 of 2
0:2:2 1:5:2 1:5:2:end 1 Completed 0:3:3 0:3:3:end 0 Completed 2:7:2 2:7:2:end 2 Completed .
Begin Before After(Commit) .
Completed 11
0 3 3 0 0 3 3 3 2 0 0 0 0 0 0 done xa xb xc
3 5 5 3 0 2 2 2 1 0 0 0 0 0 0 done xd xe
5 7 7 5 0 2 2 2 1 0 0 0 0 0 0 done xf xg
asked to stop
";

#[test]
fn a_stop_in_the_last_round(rt: HostRuntime) -> Result<(), Fail> {
    assert_told(&rt, rt.alloc(), IN_THE_LAST_ROUND)
}
