//! The list of two files, or of those at a path, and a connection to these.

ghost use Rattle.std.specs.Prelude.{◌≡◌, [], map, IfErr, IfOk, IsTrue};
ghost use Rattle.jb_slice_file.specs.Rows.{Has, ShowsList};
ghost use Rattle.jb_slice_file.specs.CheckpointBytes.{checkpoint_bytes};
ghost use Rattle.jb_slice_file.specs.Connections.{IsJustOpened, Keeps};
ghost use Rattle.jb_slice_file.specs.Errors.{refusal_named};
ghost use Rattle.jb_slice_file.specs.Files.{HoldsWhole};
ghost use Rattle.jb_slice_file.specs.ListEnd.{IsEndOf};
ghost use Rattle.sqlite.specs.declared.error.Error.{Error as SqlError};
ghost use Rattle.sqlite.specs.Files.{Finds, HoldsDatabase, IsNothing, file_state, image_of};
ghost use Rattle.sqlite.specs.State.{HasCleanDisk};
ghost use Rattle.sqlite_trees.specs.Tree.{Trees};
ghost use Rattle.sqlite_wal.specs.Files.{image_at, outcomes};
ghost use Rattle.sqlite_wal.specs.Reads.{AreClean};
ghost use Rattle.sqlite_wal.specs.Recovery.{Image};

use crate::checkpoint::Checkpoint;
use crate::error::StoreError;
use crate::list_end::ListEnd;
use crate::opening::begin;
use sqlite::{Connection, FileFrom, FileStore, Files, Options, Start};
use sqlite_disk::Disk;
use std::alloc::Global;

/// The files of a connection that ends. Whatever a crash leaves of them holds a database that a crash might have left of the connection. A crate
/// that drops a connection over files in any other way, even at the end of a scope, proves again how the kit's store is dropped.
pub fn closed<D: Disk + Drop>(conn: Connection<FileStore<D>>) -> Files<D>
    ensures clean { AreClean D.Disk result.log result.db → HasCleanDisk (file_state conn) }
    ensures left { AreClean D.Disk result.log result.db → (image : Image) → outcomes D.Disk result.log result.db image
        → ∥ ((db : Trees) × HoldsWhole image db × (file_state conn).may_leave db) ∥₁ }
{
    conn.into_store().close()
}

/// The list of a connection that was just opened, and the connection. On an error the connection is closed.
fn with_list<D: Disk + Drop>(
    alloc: Global,
    conn: Connection<FileStore<D>>,
) -> Result<(Connection<FileStore<D>>, Vec<Checkpoint>, ListEnd), StoreError>
    ensures end { IfOk result (λ r. IsEndOf r.2 (map checkpoint_bytes r.1.items)) }
    ensures early { IfOk result (λ r. HasCleanDisk (file_state r.0) → HasCleanDisk (file_state conn)) }
    ensures begun { IfOk result (λ r. HasCleanDisk (file_state r.0) → IsJustOpened (file_state conn) → Keeps (file_state r.0) (map checkpoint_bytes r.1.items)) }
    ensures listed { IfOk result (λ r. HasCleanDisk (file_state r.0) → IsJustOpened (file_state conn) → (all : _) → ShowsList (file_state conn).now all → map checkpoint_bytes r.1.items ≡ all) }
{
    let mut conn = conn;
    match begin(alloc, &mut conn) {
        Ok((found, end)) => Ok((conn, found, end)),
        Err(error) => {
            let _files = closed(conn);
            Err(error)
        }
    }
}

/// A connection to a log and its database file.
fn connect_files<D: Disk + Drop>(
    alloc: Global,
    files: Files<D>,
    options: Options,
) -> Result<Connection<FileStore<D>>, StoreError>
    requires log { IsTrue (D.Disk.is_usable files.log) }
    requires db { IsTrue (D.Disk.is_usable files.db) }
    ensures opened { IfOk result (λ conn. HasCleanDisk (file_state conn) → IsJustOpened (file_state conn)) }
    ensures finds { IfOk result (λ conn. HasCleanDisk (file_state conn) → Finds files conn) }
{
    match Connection::open_files(alloc, files, options) {
        Ok(conn) => Ok(conn),
        Err((error, _)) => Err(StoreError::from(error)),
    }
}

/// Opens a log and its database file, and takes the list. The list of an empty file is empty.
pub fn open_files<D: Disk + Drop>(
    alloc: Global,
    files: Files<D>,
    options: Options,
) -> Result<(Connection<FileStore<D>>, Vec<Checkpoint>, ListEnd), StoreError>
    requires log { IsTrue (D.Disk.is_usable files.log) }
    requires db { IsTrue (D.Disk.is_usable files.db) }
    ensures end { IfOk result (λ r. IsEndOf r.2 (map checkpoint_bytes r.1.items)) }
    ensures begun { IfOk result (λ r. HasCleanDisk (file_state r.0) → Keeps (file_state r.0) (map checkpoint_bytes r.1.items)) }
    ensures found { IfOk result (λ r. HasCleanDisk (file_state r.0) → (db : _) (all : _) → HoldsDatabase (image_of D.Disk files) db → Has db all → map checkpoint_bytes r.1.items ≡ all) }
    ensures nothing { IfOk result (λ r. HasCleanDisk (file_state r.0) → IsNothing (image_of D.Disk files) → map checkpoint_bytes r.1.items ≡ []) }
    ensures honest { IfOk result (λ r. HasCleanDisk (file_state r.0) → AreClean D.Disk files.log files.db) }
{
    let conn = connect_files(alloc, files, options)?;
    Ok(with_list(alloc, conn)?)
}

/// A connection to the file at a path and to its log beside it. The file is made if it doesn't exist. The list isn't taken yet, and no table is
/// made; so `Foreign`, `Version`, `Gap` and `Altered` don't come. A second process gets `Busy`.
pub fn connect<S: Start>(
    rt: &HostRuntime,
    path: &str,
    start: S,
) -> Result<Connection<FileStore<FileFrom<S>>>, StoreError>
    ensures opened { IfOk result (λ conn. HasCleanDisk (file_state conn) → IsJustOpened (file_state conn)) }
    ensures found { IfOk result (λ conn. HasCleanDisk (file_state conn) → (db : _) (all : _) → HoldsDatabase (image_at S.Start) db → Has db all → ShowsList (file_state conn).now all) }
    ensures nothing { IfOk result (λ conn. HasCleanDisk (file_state conn) → IsNothing (image_at S.Start) → ShowsList (file_state conn).now []) }
    ensures named { IfErr result (λ e. (why : SqlError) × (e ≡ refusal_named why)) }
{
    match Connection::open_from(rt, path, false, start) {
        Ok(conn) => Ok(conn),
        Err((error, _)) => Err(StoreError::from(error)),
    }
}

/// Opens the file at a path, and takes the list.
pub fn open<S: Start>(
    rt: &HostRuntime,
    path: &str,
    start: S,
) -> Result<(Connection<FileStore<FileFrom<S>>>, Vec<Checkpoint>, ListEnd), StoreError>
    ensures end { IfOk result (λ r. IsEndOf r.2 (map checkpoint_bytes r.1.items)) }
    ensures begun { IfOk result (λ r. HasCleanDisk (file_state r.0) → Keeps (file_state r.0) (map checkpoint_bytes r.1.items)) }
    ensures found { IfOk result (λ r. HasCleanDisk (file_state r.0) → (db : _) (all : _) → HoldsDatabase (image_at S.Start) db → Has db all → map checkpoint_bytes r.1.items ≡ all) }
    ensures nothing { IfOk result (λ r. HasCleanDisk (file_state r.0) → IsNothing (image_at S.Start) → map checkpoint_bytes r.1.items ≡ []) }
{
    let conn = connect(rt, path, start)?;
    Ok(with_list(rt.alloc(), conn)?)
}
