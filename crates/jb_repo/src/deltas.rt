//! What a commit adds to the counts, in the numbers in which a history keeps it.

ghost use Rattle.std.specs.Prelude.{◌≡◌, ◌↔◌, ◌<◌, ◌^◌, IsTrue};
ghost use Rattle.jb_repo.specs.Deltas.{counts_in, delta_of, FitDelta};

use jb_rules::Counts;

/// What a commit adds to the counts of its partition, in numbers of 32 bits. A history has one for each commit, and what
/// a chunk adds is at most 10,000,000.
#[derive(Clone, Copy, Debug, PartialEq, Eq)]
pub struct Delta {
    /// Items that were read.
    pub read: u32,
    /// Results that were written.
    pub write: u32,
    /// Chunks that were committed.
    pub commit: u32,
    /// Chunks that were rolled back or failed.
    pub rollback: u32,
    /// Faults of a read that were skipped.
    pub read_skip: u32,
    /// Faults of a process call that were skipped.
    pub process_skip: u32,
    /// Items for which the processor gave no result.
    pub filter: u32,
    /// Write calls that were skipped.
    pub write_skip: u32,
}

impl Delta {
    /// Whether there is a delta of these counts: each is below 4,294,967,296.
    pub fn fits(counts: &Counts) -> bool
        ensures { IsTrue result ↔ FitDelta counts.now }
    {
        has_32_bits(counts.read)
            && has_32_bits(counts.write)
            && has_32_bits(counts.commit)
            && has_32_bits(counts.rollback)
            && has_32_bits(counts.read_skip)
            && has_32_bits(counts.process_skip)
            && has_32_bits(counts.filter)
            && has_32_bits(counts.write_skip)
    }

    /// The delta of these counts, which adds just them. `fits` is the test of its condition.
    pub fn new(counts: &Counts) -> Self
        requires { FitDelta counts.now }
        ensures delta { result ≡ delta_of counts.now }
        ensures same { counts_in result ≡ counts.now }
    {
        Delta {
            read: counts.read as u32,
            write: counts.write as u32,
            commit: counts.commit as u32,
            rollback: counts.rollback as u32,
            read_skip: counts.read_skip as u32,
            process_skip: counts.process_skip as u32,
            filter: counts.filter as u32,
            write_skip: counts.write_skip as u32,
        }
    }

    /// The counts that it adds.
    pub fn counts(&self) -> Counts
        ensures counts { result ≡ counts_in self.now }
        ensures fit { FitDelta result }
    {
        Counts {
            read: u64::from(self.read),
            write: u64::from(self.write),
            commit: u64::from(self.commit),
            rollback: u64::from(self.rollback),
            read_skip: u64::from(self.read_skip),
            process_skip: u64::from(self.process_skip),
            filter: u64::from(self.filter),
            write_skip: u64::from(self.write_skip),
        }
    }
}

/// Whether the number has 32 bits at most.
fn has_32_bits(count: u64) -> bool
    ensures { IsTrue result ↔ (count < 2 ^ 32) }
{
    count <= u64::from(u32::MAX)
}
