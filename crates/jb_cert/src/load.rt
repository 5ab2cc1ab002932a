//! The limits of a load, and the least number of rounds for it.
ghost use Rattle.std.specs.Prelude.{◌≡◌, ◌*◌, ◌≤◌, ◌↔◌, IsTrue, sum};
ghost use Rattle.jb_base.specs.Limits.{max_chunks};
ghost use Rattle.jb_cert.specs.Load.{IsWithinLimits, longest_count, mcnaughton};
ghost use Rattle.jb_cert.specs.Lawful.{IsLeastNumber};

use jb_base::{MAX_CHUNKS, MAX_LOAD_PARTITIONS, MAX_THREADS};

/// Whether the counts of chunks, one for each partition, and the number of threads are within the limits: at most
/// 4,096 counts, at most 10,000,000 chunks in all, and 1 to 64 threads.
///
/// Every other call with counts and threads requires this.
pub fn fits(counts: &[u64], threads: u32) -> bool
    ensures { IsTrue result ↔ IsWithinLimits counts.now threads }
{
    if counts.len() > MAX_LOAD_PARTITIONS || threads < 1 || threads > MAX_THREADS {
        return false;
    }
    let mut total = 0;
    for count in counts {
        if *count > MAX_CHUNKS - total {
            return false;
        }
        total += *count;
    }
    true
}

/// The sum of the counts.
pub(crate) fn total_of(counts: &[u64]) -> u64
    requires { sum counts.now ≤ max_chunks }
    ensures { result ≡ sum counts.now }
{
    counts.iter().sum()
}

/// The largest count, 0 if there is no count.
fn longest_of(counts: &[u64]) -> u64
    ensures { result ≡ longest_count counts.now }
{
    let mut longest: u64 = 0;
    for count in counts {
        longest = longest.max(*count);
    }
    longest
}

/// The fewest rounds of any valid plan, by McNaughton's formula of 1959. It is the largest count or, if that is more, the
/// chunks divided by the threads and rounded up. 0 to 10,000,000.
pub fn least_rounds(counts: &[u64], threads: u32) -> u64
    requires { IsWithinLimits counts.now threads }
    ensures bound { result ≡ mcnaughton counts.now threads }
    ensures few { result ≤ sum counts.now }
    ensures room { sum counts.now ≤ result * threads }
    ensures least { IsLeastNumber counts.now threads result }
{
    longest_of(counts).max(total_of(counts).div_ceil(u64::from(threads)))
}
