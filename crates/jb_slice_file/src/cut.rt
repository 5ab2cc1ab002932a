//! An open that may be cut.

ghost use Rattle.std.specs.Prelude.{◌≡◌, ◌⊎◌, Bool, false, true, IfOk, IfErr, IfSome, IsTrue};
ghost use Rattle.jb_slice_file.specs.Connections.{IsJustOpened};
ghost use Rattle.jb_slice_file.specs.TableSchema.{checkpoint_schema, no_schema};
ghost use Rattle.jb_slice_file.specs.Files.{HasRunCheckpoints, Leaves, MayGoOn};
ghost use Rattle.jb_slice_file.specs.ProcessRuns.{IsProcessRunOver};
ghost use Rattle.jb_slice_file.specs.DiskHistory.{IsHistoryOf};
ghost use Rattle.jb_slice_file.specs.RecordingDisk.{disk_of};
ghost use Rattle.sqlite.specs.Files.{Finds, IsCleanLeft, LeavesFiles, file_state};
ghost use Rattle.sqlite.specs.State.{HasCleanDisk};
ghost use Rattle.sqlite_wal.specs.Files.{outcomes};
ghost use Rattle.sqlite_wal.specs.Recovery.{Image};

use crate::files::closed;
use crate::opening::takes;
use crate::recording_disk::{DiskHistory, RecordingDisk};
use crate::stop::{ProcessRun, crash_recording, with_history};
use sqlite::{Connection, FileStore, Leftover, Options};
use sqlite_disk::{Crash, Disk, Files};
use std::alloc::Global;

/// Opens a log and its database file, which must hold a list of checkpoints or a database in which nothing is defined yet. If the open fails,
/// the error has what is left of it. If the files hold something else, it has `None`.
pub fn open_own<D: Disk + Drop>(
    alloc: Global,
    files: Files<D>,
    options: Options,
) -> Result<Connection<FileStore<D>>, Option<Leftover<D>>>
    requires log { IsTrue (D.Disk.is_usable files.log) }
    requires db { IsTrue (D.Disk.is_usable files.db) }
    ensures opened { IfOk result (λ conn. HasCleanDisk (file_state conn) → IsJustOpened (file_state conn)) }
    ensures found { IfOk result (λ conn. HasCleanDisk (file_state conn) → Finds files conn) }
    ensures own { IfOk result (λ conn. ((file_state conn).now.schema ≡ no_schema) ⊎ ((file_state conn).now.schema ≡ checkpoint_schema)) }
    ensures unharmed { IfErr result (λ rest. IfSome rest (λ left. IsCleanLeft left → LeavesFiles files left)) }
{
    match Connection::open_files(alloc, files, options) {
        Ok(conn) => {
            if takes(&conn) {
                return Ok(conn);
            }
            let _files = closed(conn);
            Err(None)
        }
        Err((_, left)) => Err(Some(left)),
    }
}

/// The machine stops during an open of files, or after one that failed.
fn cut_short<D: Crash + Drop, G: DiskHistory>(
    left: Leftover<RecordingDisk<D, G>>,
) -> Option<ProcessRun<D>>
    ensures cut { IfSome result (λ process_run. process_run.has_run ≡ false) }
    ensures over { (before : _) (files : _) → IsHistoryOf D.Disk G.DiskHistory.was_clean G.DiskHistory.could_leave before
        → ((image : Image) → outcomes D.Disk (disk_of files.log) (disk_of files.db) image → outcomes D.Disk before.log before.db image)
        → (IsCleanLeft left → LeavesFiles files left) → IfSome result (IsProcessRunOver D.Disk G.DiskHistory.is_so_far before) }
{
    let is_behind = matches!(&left, Leftover::Store(_));
    let (files, has_written) = crash_recording(left.into_files())?;
    Some(ProcessRun {
        files,
        has_run: false,
        is_loose: is_behind & has_written,
    })
}

/// Opens them over disks that know what they were. If the open fails, the machine stops in it, and the error has what it leaves. It has `None` if
/// the files hold something else, or the disks have changed places.
pub fn open_recording<D: Crash + Drop, G: DiskHistory>(
    alloc: Global,
    files: Files<D>,
    options: Options,
) -> Result<Connection<FileStore<RecordingDisk<D, G>>>, Option<ProcessRun<D>>>
    requires log { IsTrue (D.Disk.is_usable files.log) }
    requires db { IsTrue (D.Disk.is_usable files.db) }
    requires given { IsHistoryOf D.Disk G.DiskHistory.was_clean G.DiskHistory.could_leave files }
    ensures opened { IfOk result (λ conn. HasCleanDisk (file_state conn) → IsJustOpened (file_state conn)) }
    ensures found { IfOk result (λ conn. HasCleanDisk (file_state conn) → Leaves D.Disk (MayGoOn G.DiskHistory.is_so_far) files
        → ∥ HasRunCheckpoints G.DiskHistory.is_so_far (file_state conn).now.trees ∥₁) }
    ensures not_run { IfErr result (λ rest. IfSome rest (λ process_run. process_run.has_run ≡ false)) }
    ensures over { IfErr result (λ rest. IfSome rest (λ process_run. IsProcessRunOver D.Disk G.DiskHistory.is_so_far files process_run)) }
{
    match open_own(alloc, with_history::<D, G>(files), options) {
        Ok(conn) => Ok(conn),
        Err(Some(left)) => Err(cut_short(left)),
        Err(None) => Err(None),
    }
}
