//! The disk of one process run.

ghost use Rattle.std.specs.Prelude.{◌≡◌, ℕ, Bool, true, false, List, IsTrue};
ghost use Rattle.jb_slice_file.specs.CheckpointBytes.{CheckpointBytes};

use sqlite_disk::{Crash, Disk, Tally};
use std::io;
use std::marker::{Brand, PhantomData};

/// What a process run remembers: what the log and the database file were as it began, and which checkpoints are those of a run so far. The
/// caller of a process run chooses it.
pub trait DiskHistory {
    /// No wrong answer had been taken as true.
    ghost was_clean: { (is_log : Bool) → Bool };

    /// What a crash could have left of it then.
    ghost could_leave: { (is_log : Bool) → List ℕ → Type 0 };

    /// These are the checkpoints of a run so far.
    ghost is_so_far: { List CheckpointBytes → Type 0 };
}

impl DiskHistory for Brand {
    ghost was_clean = { λ _. true };

    ghost could_leave = { λ _ _. Unit {0} };

    ghost is_so_far = { λ _. Unit {0} };
}

/// A disk that passes each call on, and knows what it was as the process run began.
#[derive(Drop)]
pub struct RecordingDisk<D: Disk, G: DiskHistory> {
    disk: D,
    is_log: bool,
    /// Something was written, or the length was changed, since then.
    has_written: bool,
    given: PhantomData<G>,
    ghost clean: { IsTrue (D.Disk.is_clean disk) → IsTrue (G.DiskHistory.was_clean is_log) },
    ghost left: { has_written ≡ false → (c : List ℕ) → D.Disk.may_leave disk c → ∥ G.DiskHistory.could_leave is_log c ∥₁ },
}

impl<D: Disk, G: DiskHistory> RecordingDisk<D, G> {
    ghost use Rattle.jb_slice_file.specs.RecordingDisk.{disk_of, is_log_of, has_written};

    pub(crate) fn new(disk: D, is_log: bool) -> RecordingDisk<D, G>
        requires clean { G.DiskHistory.was_clean is_log ≡ D.Disk.is_clean disk }
        requires left { (c : List ℕ) → D.Disk.may_leave disk c → G.DiskHistory.could_leave is_log c }
        ensures { disk_of result ≡ disk }
    {
        RecordingDisk {
            disk,
            is_log,
            has_written: false,
            given: PhantomData,
        }
    }

    pub(crate) fn is_log(&self) -> bool
        ensures { result ≡ is_log_of self.now }
    {
        self.is_log
    }

    pub(crate) fn has_written(&self) -> bool
        ensures { result ≡ has_written self.now }
    {
        self.has_written
    }

    pub(crate) fn into_disk(self) -> D
        ensures disk { result ≡ disk_of self }
        ensures clean { IsTrue (D.Disk.is_clean result) → IsTrue (G.DiskHistory.was_clean (is_log_of self)) }
        ensures left { has_written self ≡ false → (c : List ℕ) → D.Disk.may_leave result c → ∥ G.DiskHistory.could_leave (is_log_of self) c ∥₁ }
    {
        self.disk
    }
}

impl<D: Disk, G: DiskHistory> Disk for RecordingDisk<D, G> {
    ghost seen = { λ w. D.Disk.seen w.disk };

    ghost may_leave = { λ w. D.Disk.may_leave w.disk };

    ghost is_usable = { λ w. D.Disk.is_usable w.disk };

    ghost faults = { λ w. D.Disk.faults w.disk };

    ghost tally_of = { λ w. D.Disk.tally_of w.disk };

    ghost is_clean = { λ w. D.Disk.is_clean w.disk };

    ghost key_of = { λ w. D.Disk.key_of w.disk };

    ghost is_fair = { λ w. D.Disk.is_fair w.disk };

    ghost is_frozen = { λ w. D.Disk.is_frozen w.disk };

    ghost is_rotten = { λ w. D.Disk.is_rotten w.disk };

    ghost is_mixing = { λ w. D.Disk.is_mixing w.disk };

    ghost seen_may_stay = { λ w. D.Disk.seen_may_stay w.disk };

    ghost fair_if_clean = { λ w. D.Disk.fair_if_clean w.disk };

    fn mixes(&self) -> bool {
        self.disk.mixes()
    }

    fn key(&self) -> u64 {
        self.disk.key()
    }

    fn tally(&self) -> Tally {
        self.disk.tally()
    }

    fn may_be_used(&self) -> bool {
        self.disk.may_be_used()
    }

    fn len(&mut self) -> io::Result<usize> {
        self.disk.len()
    }

    fn read_at(&mut self, at: usize, buf: &mut [u8]) -> io::Result<()> {
        self.disk.read_at(at, buf)
    }

    fn read_checked(&mut self, key: u64, want: u64, at: usize, buf: &mut [u8]) -> io::Result<()> {
        self.disk.read_checked(key, want, at, buf)
    }

    fn write_at(&mut self, at: usize, bytes: &[u8]) -> io::Result<()> {
        self.has_written = true;
        self.disk.write_at(at, bytes)
    }

    fn set_len(&mut self, len: usize) -> io::Result<()> {
        self.has_written = true;
        self.disk.set_len(len)
    }

    fn sync(&mut self) -> io::Result<()> {
        self.disk.sync()
    }
}

impl<D: Crash, G: DiskHistory> Crash for RecordingDisk<D, G> {
    fn crash(&mut self) {
        self.disk.crash();
    }
}
