//! The metrics of a chunk step.

ghost use Rattle.std.specs.Prelude.{◌≡◌, ◌↔◌, IsTrue};
ghost use Rattle.jb_rules.specs.Counts.{plus_counts, SumsFit, IsDelta, is_delta};
ghost use Rattle.jb_rules.specs.Laws.{DeltasAreTested};

/// The metrics of a partition (Jakarta Batch 2.1, "Metric"). Restarts keep them.
#[derive(Clone, Copy, Debug, PartialEq, Eq)]
pub struct Counts {
    /// READ_COUNT: items that were read.
    pub read: u64,
    /// WRITE_COUNT: results that were written.
    pub write: u64,
    /// COMMIT_COUNT: chunks that were committed.
    pub commit: u64,
    /// ROLLBACK_COUNT: chunks that were rolled back or failed.
    pub rollback: u64,
    /// READ_SKIP_COUNT: faults of a read that were skipped.
    pub read_skip: u64,
    /// PROCESS_SKIP_COUNT: faults of a process call that were skipped.
    pub process_skip: u64,
    /// FILTER_COUNT: items for which the processor gave no result.
    pub filter: u64,
    /// WRITE_SKIP_COUNT: write calls that were skipped.
    pub write_skip: u64,
}

impl Counts {
    /// All counts are 0.
    pub const ZERO: Counts = Counts {
        read: 0,
        write: 0,
        commit: 0,
        rollback: 0,
        read_skip: 0,
        process_skip: 0,
        filter: 0,
        write_skip: 0,
    };

    /// The sums, number by number.
    pub fn plus(&self, other: &Counts) -> Counts
        requires { SumsFit self.now other.now }
        ensures { result ≡ plus_counts self.now other.now }
    {
        let mut sums = *self;
        sums.add(other);
        sums
    }

    /// Adds the other's numbers to these, each to its own.
    pub fn add(&mut self, other: &Counts)
        requires { SumsFit self.old other.now }
        ensures { self.new ≡ plus_counts self.old other.now }
    {
        self.read += other.read;
        self.write += other.write;
        self.commit += other.commit;
        self.rollback += other.rollback;
        self.read_skip += other.read_skip;
        self.process_skip += other.process_skip;
        self.filter += other.filter;
        self.write_skip += other.write_skip;
    }

    /// Whether a committed chunk of so many records may add these counts.
    pub fn is_delta(&self, records: u64) -> bool
        ensures test { result ≡ is_delta records self.now }
        ensures delta { IsTrue result ↔ IsDelta records self.now }
    {
        deltas_are_tested();
        let read = u128::from(self.read);
        let settled = u128::from(self.process_skip) + u128::from(self.filter);
        read + u128::from(self.read_skip) == u128::from(records)
            && self.commit == 1
            && self.rollback == 0
            && ((self.write_skip == 0 && settled + u128::from(self.write) == read)
                || (self.write_skip == 1 && self.write == 0 && settled < read))
    }
}

/// The law of `Counts::is_delta`: its definition as a test agrees with its definition as a fact.
pub fn deltas_are_tested()
    ensures { DeltasAreTested }
{}
