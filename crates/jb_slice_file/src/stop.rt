//! The machine stops, and what it leaves.

ghost use Rattle.std.specs.Prelude.{◌≡◌, ◌&&◌, ◌||◌, not, Bool, false, true, None, IfSome, IsTrue};
ghost use Rattle.jb_slice_file.specs.Files.{HoldsRun, HasRunCheckpoints, Leaves};
ghost use Rattle.jb_slice_file.specs.DiskHistory.{IsHistoryOf};
ghost use Rattle.jb_slice_file.specs.RecordingDisk.{disk_of, has_written};
ghost use Rattle.sqlite.specs.Files.{file_state};
ghost use Rattle.sqlite.specs.State.{HasCleanDisk};
ghost use Rattle.sqlite_trees.specs.Tree.{Trees};
ghost use Rattle.sqlite_wal.specs.Files.{outcomes};
ghost use Rattle.sqlite_wal.specs.Reads.{AreClean};
ghost use Rattle.sqlite_wal.specs.Recovery.{Image};

use crate::files::closed;
use crate::recording_disk::{DiskHistory, RecordingDisk};
use sqlite::{Connection, FileStore};
use sqlite_disk::{Crash, Disk, Files};

/// What a process run leaves.
#[derive(Drop)]
pub struct ProcessRun<D: Disk> {
    pub files: Files<D>,
    /// The files were opened, and the work ran. If not, the open failed or was interrupted.
    pub has_run: bool,
    /// The open had written, and was interrupted after its recovery, while it read the schema. The files then read as they did. But it isn't known
    /// whether their tables have the numbers that they had.
    pub is_loose: bool,
}

impl<D: Disk> ProcessRun<D> {
    /// Whether the tables are known to have their numbers in what this process run leaves. `was_sure` says whether that was known of what it
    /// began with. `None` if it wasn't known before, and this run is loose too.
    pub fn sure_after(&self, was_sure: bool) -> Option<bool>
        ensures known { IfSome result (λ _. (self.now.is_loose && not was_sure) ≡ false) }
        ensures unknown { result ≡ None → (self.now.is_loose ≡ true) × (was_sure ≡ false) }
        ensures sure { IfSome result (λ is_sure. is_sure ≡ (self.now.has_run || (was_sure && not self.now.is_loose))) }
    {
        if self.is_loose && !was_sure {
            return None;
        }
        Some(self.has_run || (was_sure && !self.is_loose))
    }
}

/// The machine stops, and starts again.
fn crash<D: Crash>(mut files: Files<D>) -> Files<D>
    ensures usable { IsTrue (D.Disk.is_usable result.log) × IsTrue (D.Disk.is_usable result.db) }
    ensures clean { AreClean D.Disk result.log result.db → AreClean D.Disk files.log files.db }
    ensures left { (image : Image) → outcomes D.Disk result.log result.db image → outcomes D.Disk files.log files.db image }
{
    files.log.crash();
    files.db.crash();
    files
}

/// Disks that know what these two are now.
pub(crate) fn with_history<D: Disk, G: DiskHistory>(files: Files<D>) -> Files<RecordingDisk<D, G>>
    requires { IsHistoryOf D.Disk G.DiskHistory.was_clean G.DiskHistory.could_leave files }
    ensures log { disk_of result.log ≡ files.log }
    ensures db { disk_of result.db ≡ files.db }
{
    Files {
        log: RecordingDisk::new(files.log, true),
        db: RecordingDisk::new(files.db, false),
    }
}

fn are_in_place(first_is_log: bool, second_is_log: bool) -> bool
    ensures { IsTrue result → (first_is_log ≡ true) × (second_is_log ≡ false) }
{
    first_is_log && !second_is_log
}

/// The two disks themselves, and whether something was written to one of them since. `None` if they have changed places.
fn without_history<D: Disk + Drop, G: DiskHistory>(
    files: Files<RecordingDisk<D, G>>,
) -> Option<(Files<D>, bool)>
    ensures log { IfSome result (λ r. r.0.log ≡ disk_of files.log) }
    ensures db { IfSome result (λ r. r.0.db ≡ disk_of files.db) }
    ensures clean { IfSome result (λ r. AreClean D.Disk r.0.log r.0.db → (is_log : Bool) → IsTrue (G.DiskHistory.was_clean is_log)) }
    ensures left { IfSome result (λ r. r.1 ≡ false → (image : Image) → outcomes D.Disk r.0.log r.0.db image
        → ∥ G.DiskHistory.could_leave true image.log × G.DiskHistory.could_leave false image.db ∥₁) }
{
    let Files { log, db } = files;
    if !are_in_place(log.is_log(), db.is_log()) {
        return None;
    }
    let has_written = log.has_written() | db.has_written();
    Some((
        Files {
            log: log.into_disk(),
            db: db.into_disk(),
        },
        has_written,
    ))
}

/// The machine stops over two such disks. They give the disks themselves, as `without_history` does.
pub(crate) fn crash_recording<D: Crash + Drop, G: DiskHistory>(
    files: Files<RecordingDisk<D, G>>,
) -> Option<(Files<D>, bool)>
    ensures usable { IfSome result (λ r. IsTrue (D.Disk.is_usable r.0.log) × IsTrue (D.Disk.is_usable r.0.db)) }
    ensures clean { IfSome result (λ r. AreClean D.Disk r.0.log r.0.db → (is_log : Bool) → IsTrue (G.DiskHistory.was_clean is_log)) }
    ensures sure { IfSome result (λ r. AreClean D.Disk r.0.log r.0.db → AreClean D.Disk (disk_of files.log) (disk_of files.db)) }
    ensures left { IfSome result (λ r. (image : Image) → outcomes D.Disk r.0.log r.0.db image → outcomes D.Disk (disk_of files.log) (disk_of files.db) image) }
    ensures same { IfSome result (λ r. r.1 ≡ false → (image : Image) → outcomes D.Disk r.0.log r.0.db image
        → ∥ G.DiskHistory.could_leave true image.log × G.DiskHistory.could_leave false image.db ∥₁) }
{
    let (files, has_written) = without_history(files)?;
    Some((crash(files), has_written))
}

/// A process run ends while its connection is open.
pub fn stop_recording<D: Crash + Drop, G: DiskHistory>(
    conn: Connection<FileStore<RecordingDisk<D, G>>>,
) -> Option<ProcessRun<D>>
    ensures ran { IfSome result (λ process_run. (process_run.has_run ≡ true) × (process_run.is_loose ≡ false)) }
    ensures usable { IfSome result (λ process_run. IsTrue (D.Disk.is_usable process_run.files.log) × IsTrue (D.Disk.is_usable process_run.files.db)) }
    ensures clean { IfSome result (λ process_run. AreClean D.Disk process_run.files.log process_run.files.db → (is_log : Bool) → IsTrue (G.DiskHistory.was_clean is_log)) }
    ensures open { IfSome result (λ process_run. AreClean D.Disk process_run.files.log process_run.files.db → HasCleanDisk (file_state conn)) }
    ensures run { IfSome result (λ process_run. AreClean D.Disk process_run.files.log process_run.files.db
        → ((db : Trees) → (file_state conn).may_leave db → HasRunCheckpoints G.DiskHistory.is_so_far db) → Leaves D.Disk (HoldsRun G.DiskHistory.is_so_far) process_run.files) }
{
    let (files, _) = crash_recording(closed(conn))?;
    Some(ProcessRun {
        files,
        has_run: true,
        is_loose: false,
    })
}
