//! What is to be planned.

ghost use Rattle.std.specs.Prelude.{◌≡◌};
ghost use Rattle.jb_cert.specs.Load.{IsWithinLimits};

use std::marker::Model;

/// Counts of chunks, one for each partition, and a number of threads. Their limits are those of planning and checking: at most
/// 4,096 counts, at most 10,000,000 chunks in all, and 1 to 64 threads. The limits are this project's
/// own choice.
#[derive(Drop)]
pub struct ChunkLoad {
    counts: Vec<u64>,
    threads: u32,
}

impl Model for ChunkLoad {
    ghost use Rattle.jb_cert.specs.Load.{IsWithinLimits};
    ghost use Rattle.jb_cert.specs.Load.{Load};

    ghost Value = { Load };

    ghost view = { λ l. record { counts = l.counts.items; threads = l.threads } };

    ghost invariant = { λ l. IsWithinLimits l.counts.items l.threads };
}

impl ChunkLoad {
    /// The load of these counts and threads.
    pub fn new(counts: Vec<u64>, threads: u32) -> ChunkLoad
        requires { IsWithinLimits counts.items threads }
        ensures counts { result.counts ≡ counts.items }
        ensures threads { result.threads ≡ threads }
    {
        ChunkLoad { counts, threads }
    }

    /// How many chunks each partition has.
    pub fn counts(&self) -> &[u64]
        ensures value { result.now ≡ self.now.counts }
        ensures limits { IsWithinLimits result.now self.now.threads }
    {
        self.counts.as_slice()
    }

    /// How many threads there are, 1 to 64.
    pub fn threads(&self) -> u32
        ensures { result ≡ self.now.threads }
    {
        self.threads
    }
}
