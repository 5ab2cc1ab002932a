//! How often each artifact is called in an attempt, and which calls are repeated in place, which no clause says; and that artifacts that
//! lend their records and pack their results, and artifacts in boxes, do what those do that own them, by the same calls.

use super::course::stories_of;
use super::rows::many_records;
use std::alloc::{AllocError, Global};
use std::test::*;

/// Chunks: one with a filtered item, one in which a read is skipped after it had found no memory, and a retry by single records. Then a
/// chunk of filtered items, a skipped write call, and a retried one. Then partitions of which a read is skipped, or repeated in place,
/// once, in an attempt that finds no memory: the next one doesn't meet the fault. Then partitions that fail in processing, in writing, and
/// after as many repeats as the retry limit allows.
const ROWS: &str = "a,zb,c/rS,d/m,e,f/pt,zg,zh,i,j/wS,k/wt,l,m
a,b,c/rs,d/m
a,b,c/ri,d/m
a/pF,b,c
a,b,c/wF
a,b/pI,c";

/// Each record that is tried is read once, and processed once if it was read. The writer is called once for a chunk that has a
/// result, the collector once for each that is committed and once more at the end. After an attempt that found no memory the next
/// one is as if it were the first. A chunk that fails is not collected; it has a write call where its records are done.
const STORIES: &str = "committed 2 2 1 1 at 2, 1 written
no memory 2 1 0 0 at 2, 1 written
committed 2 1 1 1 at 4, 2 written
rolled 2 2 0 0 at 4, 2 written
committed 1 1 1 1 at 5, 3 written
committed 1 1 1 1 at 6, 4 written
committed 2 2 0 1 at 8, 4 written
committed 2 2 1 1 at 10, 4 written
rolled 2 2 1 0 at 10, 4 written
committed 1 1 1 1 at 11, 5 written
committed 1 1 1 1 at 12, 6 written
committed 1 1 1 2 at 13, 7 written
[0, 13, 13, 12, 2, 7, 12, 7, 9, 2, 1, 0, 3, 1, 0] xa xd xe xf xk xl xm
committed 2 2 1 1 at 2, 2 written
no memory 2 1 0 0 at 2, 2 written
committed 2 2 1 2 at 4, 4 written
[0, 4, 4, 0, 0, 4, 4, 4, 2, 0, 0, 0, 0, 0, 0] xa xb xc xd
committed 2 2 1 1 at 2, 2 written
no memory 3 2 0 0 at 2, 2 written
committed 2 2 1 2 at 4, 4 written
[0, 4, 4, 0, 0, 4, 4, 4, 2, 0, 0, 0, 0, 0, 0] xa xb xc xd
failed 1 1 0 0 at 0, 0 written
[0, 3, 0, 0, 0, 0, 0, 0, 0, 1, 0, 0, 0, 0, 0]
committed 2 2 1 1 at 2, 2 written
failed 1 1 1 0 at 2, 2 written
[0, 3, 2, 0, 0, 2, 2, 2, 1, 1, 0, 0, 0, 0, 0] xa xb
failed 2 12 0 0 at 0, 0 written
[0, 3, 0, 0, 10, 0, 0, 0, 0, 1, 0, 0, 0, 0, 10]
";

/// A call of each kind that fails once and is repeated in place, and all of them.
const REPEATED: &str = "a,b,c,d/ri
a,b,c/pi,d
a,b,c,d/wi
a,b,c/ri/wi,d/pi";

/// A call that is repeated in place is made once more, with the same record, item or list. Before a read the reader is opened at the
/// record, and before a write the writer after the committed results. No other call is made again, and the collector isn't called.
const REPEATED_STORIES: &str = "committed 2 2 1 1 at 2, 2 written
committed 3 2 1 2 at 4, 4 written
[0, 4, 4, 0, 1, 4, 4, 4, 2, 0, 0, 0, 0, 0, 1] xa xb xc xd
[('o', 0), ('r', 0), ('r', 1), ('r', 2), ('r', 3), ('o', 3), ('r', 3)]
[('a', 0), ('b', 1), ('c', 2), ('d', 3)]
[('o', 0), ('w', 2), ('w', 2)]
committed 2 2 1 1 at 2, 2 written
committed 2 3 1 2 at 4, 4 written
[0, 4, 4, 0, 1, 4, 4, 4, 2, 0, 0, 0, 0, 0, 1] xa xb xc xd
[('o', 0), ('r', 0), ('r', 1), ('r', 2), ('r', 3)]
[('a', 0), ('b', 1), ('c', 2), ('c', 2), ('d', 3)]
[('o', 0), ('w', 2), ('w', 2)]
committed 2 2 1 1 at 2, 2 written
committed 2 2 2 2 at 4, 4 written
[0, 4, 4, 0, 1, 4, 4, 4, 2, 0, 0, 0, 0, 0, 1] xa xb xc xd
[('o', 0), ('r', 0), ('r', 1), ('r', 2), ('r', 3)]
[('a', 0), ('b', 1), ('c', 2), ('d', 3)]
[('o', 0), ('w', 2), ('w', 2), ('o', 2), ('w', 2)]
committed 2 2 1 1 at 2, 2 written
committed 3 3 2 2 at 4, 4 written
[0, 4, 4, 0, 3, 4, 4, 4, 2, 0, 0, 0, 0, 0, 3] xa xb xc xd
[('o', 0), ('r', 0), ('r', 1), ('r', 2), ('o', 2), ('r', 2), ('r', 3)]
[('a', 0), ('b', 1), ('c', 2), ('d', 3), ('d', 3)]
[('o', 0), ('w', 2), ('w', 2), ('o', 2), ('w', 2)]
";

#[test]
fn calls_of_each_attempt(rt: HostRuntime) -> Result<(), Fail> {
    let stories = stories_of(rt.alloc(), ROWS, 2, false)?;
    assert_eq!(rt; stories.as_str(), STORIES);
    let repeated = stories_of(rt.alloc(), REPEATED, 2, true)?;
    assert_eq!(rt; repeated.as_str(), REPEATED_STORIES);
    Ok(())
}

/// Rows of five records, the second of which is filtered. The first has no fault. The next three have one of this class: in the read of
/// record 2, in the processing of record 3, or in the write of record 4. The last has all three.
fn fives(alloc: Global, class: char) -> Result<String, AllocError> {
    format!(in alloc;
        "a,zebra,,a longer one,b
a,zebra,/r{class},a longer one,b
a,zebra,,a longer one/p{class},b
a,zebra,,a longer one,b/w{class}
a,zebra,/r{class},a longer one/p{class},b/w{class}"
    )
}

const ONE_WRITE: &str = "committed 100000 100000 1 2 at 100000, 100000 written
[0, 100000, 100000, 0, 0, 100000, 100000, 100000, 1, 0, 0, 0, 0, 0, 0] xr xr";

const TWO_WRITES: &str = "committed 100000 100000 2 2 at 100000, 100000 written
[0, 100000, 100000, 0, 1, 100000, 100000, 100000, 1, 0, 0, 0, 0, 0, 1] xr xr";

/// Faults of each class, at each call and at the first alone. In one chunk of many records the first write of the last result fails, and is
/// repeated in place.
#[test]
fn lent_and_boxed_records_end_as_owned_ones(rt: HostRuntime) -> Result<(), Fail> {
    let alloc = rt.alloc();
    for class in "stifSTIF".chars() {
        let rows = fives(alloc, class)?;
        let stories = stories_of(alloc, rows.as_str(), 2, false)?;
        assert!(rt; stories.as_str().lines().count() > 10);
    }
    for (end, wanted) in [("r", ONE_WRITE), ("r/wi", TWO_WRITES)] {
        let row = many_records(alloc, end)?;
        let story = stories_of(alloc, row.as_str(), 1_000_000, false)?;
        assert!(rt; story.as_str().starts_with(wanted));
    }
    Ok(())
}
