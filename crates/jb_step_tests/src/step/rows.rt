//! The worked rows that several tests go by.

/// A step, and what comes of it: the partitions that need artifacts, its plans, the analyzer's calls, the reducer's, and the status and the
/// number of events. Also what each partition comes to.
pub(crate) struct Worked {
    pub(crate) line: &'static str,
    pub(crate) course: &'static str,
    pub(crate) partitions: &'static str,
}

/// What the partitions of seven records come to.
pub(crate) const SEVEN: &str = "0 3 3 0 0 3 3 3 2 0 0 0 0 0 0 done xa xb xc
3 5 5 3 0 2 2 2 1 0 0 0 0 0 0 done xd xe
5 7 7 5 0 2 2 2 1 0 0 0 0 0 0 done xf xg
";

/// No fault. A retry that rolls a chunk back. A skip while the chunk is done again in single records. A call that is repeated in place
/// before one that rolls the chunk back. Those of all faults are in `cases/run`.
pub(crate) const ROWS: [Worked; 4] = [
    Worked {
        line: "records=abc/de/fg/",
        course: "[0, 1, 2]
Longest(0) 2 of 2
0:2:2 1:5:2 1:5:2:end 1 Completed 0:3:3 0:3:3:end 0 Completed 2:7:2 2:7:2:end 2 Completed .
Begin Before After(Commit) .
Completed 11
",
        partitions: SEVEN,
    },
    Worked {
        line: "records=abc?d/ items=4 retryable=2",
        course: "[0]
Longest(0) 1 of 1
Longest(0) 4 of 4
0:1:1 0:2:2 0:3:3 0:4:4 0:4:4:end 0 Completed .
Begin Before After(Commit) .
Completed 17
",
        partitions: "0 4 4 4 1 4 4 4 4 1 0 0 0 0 0 done xa xb xc xd\n",
    },
    Worked {
        line: "records=ab!cd/ retryable=1 skippable=1 one-skip",
        course: "[0]
Longest(0) 1 of 2
Longest(0) 3 of 3
0:1:1 0:2:1 0:4:3 0:4:3:end 0 Completed .
Begin Before After(Commit) .
Completed 14
",
        partitions: "0 4 4 2 1 3 4 3 3 1 0 1 0 0 0 done xa xc xd\n",
    },
    Worked {
        line: "records=a*b?/ retryable=3 in-place=1",
        course: "[0]
Longest(0) 1 of 1
Longest(0) 2 of 2
0:1:1 0:2:2 0:2:2:end 0 Completed .
Begin Before After(Commit) .
Completed 11
",
        partitions: "0 2 2 2 2 2 2 2 2 1 0 0 0 0 1 done xa xb\n",
    },
];
