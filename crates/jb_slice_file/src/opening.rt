//! The list of a connection that was just opened.

ghost use Rattle.std.specs.Prelude.{◌≡◌, ◌≢◌, ◌⊎◌, ◌≤◌, ◌↔◌, false, map, [], None, Some, Err, IfOk, IfErr, IsOk, IsTrue, OnOk};
ghost use Rattle.jb_slice_file.specs.declared.error.StoreError.TheVariants.{Altered, Foreign, Version, Gap};
ghost use Rattle.jb_slice_file.specs.Errors.{IsStoreFault, IsListRefusal, IsOpenCause};
ghost use Rattle.jb_slice_file.specs.TableSchema.{checkpoint_schema, no_schema, IsForeign, IsOtherVersion};
ghost use Rattle.jb_slice_file.specs.Rows.{Has, HasGap, IsAltered, ShowsList, StandsFor};
ghost use Rattle.jb_slice_file.specs.CheckpointBytes.{checkpoint_bytes};
ghost use Rattle.jb_slice_file.specs.Connections.{IsAsItWas, IsJustOpened, Keeps};
ghost use Rattle.jb_slice_file.specs.ListEnd.{IsEndOf};
ghost use Rattle.sqlite.specs.Held.{state};
ghost use Rattle.sqlite.specs.State.{HasCleanDisk};
ghost use Rattle.sqlite_disk.specs.Disk.{MoreFaults};
ghost use Rattle.sqlite_trees.specs.View.{doubt};

use crate::checkpoint::Checkpoint;
use crate::error::StoreError;
use crate::list_end::{ListEnd, NO_LINK};
use crate::listing::list;
use crate::table_schema::{is_blank, is_ours, names_checkpoint};
use sqlite::{Alter, Connection};
use sqlite_schema::schema::Schema;
use std::alloc::Global;

/// Why a database with this schema isn't opened.
#[tactic(auto, unfolding(sqlite_schema::specs::Names::same_name))]
fn refusal_of(schema: &Schema) -> Option<StoreError>
    ensures fits { (result ≡ None) ↔ ((schema.now ≡ no_schema) ⊎ (schema.now ≡ checkpoint_schema)) }
    ensures foreign { (result ≡ Some Foreign) ↔ IsForeign schema.now }
    ensures version { (result ≡ Some Version) ↔ IsOtherVersion schema.now }
    ensures named { (result ≡ None) ⊎ ((result ≡ Some Foreign) ⊎ (result ≡ Some Version)) }
{
    if is_blank(schema) || is_ours(schema) {
        None
    } else if names_checkpoint(schema) {
        Some(StoreError::Version)
    } else {
        Some(StoreError::Foreign)
    }
}

/// What holds of a connection that was just opened. Nothing is done here: the clauses are laws.
#[tactic(auto, using(crate::proofs::Opened::has_left, crate::proofs::Opened::is_left))]
fn opened_laws<S: Alter>(conn: &Connection<S>)
    ensures shown { IsJustOpened (state S.Store conn.now) → (all : _) → Has (state S.Store conn.now).now.trees all → ShowsList (state S.Store conn.now).now all }
    ensures only { IsJustOpened (state S.Store conn.now) → (db : _) → (state S.Store conn.now).may_leave db → db ≡ (state S.Store conn.now).now.trees }
    ensures left { IsJustOpened (state S.Store conn.now) → (all : _) → ShowsList (state S.Store conn.now).now all
        → (db : _) → (db ≡ (state S.Store conn.now).now.trees) ⊎ (((state S.Store conn.now).now.schema ≡ no_schema) × StandsFor db []) → Has db all }
{}

/// Makes the table.
fn make<S: Alter>(conn: &mut Connection<S>) -> Result<(), StoreError>
    ensures made { HasCleanDisk (state S.Store conn.new) → (state S.Store conn.old).now.schema ≡ no_schema → (state S.Store conn.old).in_transaction ≡ false
        → OnOk result (Keeps (state S.Store conn.new) []) }
    ensures named { IfErr result (λ e. ¬ IsListRefusal e) }
    ensures clean { doubt (state S.Store conn.old).is_clean ≤ doubt (state S.Store conn.new).is_clean }
    ensures crash { HasCleanDisk (state S.Store conn.new) → (state S.Store conn.old).now.schema ≡ no_schema → (db : _) → (state S.Store conn.new).may_leave db
        → (state S.Store conn.old).may_leave db ⊎ StandsFor db [] }
    ensures cause { HasCleanDisk (state S.Store conn.new) → (state S.Store conn.old).now.schema ≡ no_schema → IfErr result (IsStoreFault (state S.Store conn.old) (state S.Store conn.new)) }
    ensures counts { (state S.Store conn.old).faults ≤ (state S.Store conn.new).faults }
    ensures shut { HasCleanDisk (state S.Store conn.new) → IsTrue (state S.Store conn.old).is_open
        → IsTrue (state S.Store conn.new).is_open ⊎ MoreFaults (state S.Store conn.old).faults (state S.Store conn.new).faults }
{
    conn.execute(
        "CREATE TABLE checkpoint (number INTEGER PRIMARY KEY, saved TEXT NOT NULL, results BLOB NOT NULL, link BLOB NOT NULL) STRICT",
        &[],
    )?;
    Ok(())
}

/// The checkpoints of a database that was just opened, and where they end. If nothing is defined yet, there are none, and the table is made.
/// A database that isn't ours, has a gap or was changed is refused and not written.
pub fn begin<S: Alter>(
    alloc: Global,
    conn: &mut Connection<S>,
) -> Result<(Vec<Checkpoint>, ListEnd), StoreError>
    ensures begun { HasCleanDisk (state S.Store conn.new) → IsJustOpened (state S.Store conn.old)
        → IfOk result (λ found. Keeps (state S.Store conn.new) (map checkpoint_bytes found.0.items) × ShowsList (state S.Store conn.old).now (map checkpoint_bytes found.0.items)) }
    ensures shown { IsJustOpened (state S.Store conn.old) → (all : _) → Has (state S.Store conn.old).now.trees all → ShowsList (state S.Store conn.old).now all }
    ensures listed { HasCleanDisk (state S.Store conn.new) → IsJustOpened (state S.Store conn.old) → (all : _) → ShowsList (state S.Store conn.old).now all
        → IfOk result (λ found. map checkpoint_bytes found.0.items ≡ all) }
    ensures end { IfOk result (λ found. IsEndOf found.1 (map checkpoint_bytes found.0.items)) }
    ensures foreign { (result ≡ Err Foreign) ↔ IsForeign (state S.Store conn.old).now.schema }
    ensures version { (result ≡ Err Version) ↔ IsOtherVersion (state S.Store conn.old).now.schema }
    ensures gap { HasCleanDisk (state S.Store conn.new) → IsJustOpened (state S.Store conn.old) → result ≡ Err Gap
        → ((state S.Store conn.old).now.schema ≡ checkpoint_schema) × HasGap (state S.Store conn.old).now.trees }
    ensures altered { HasCleanDisk (state S.Store conn.new) → IsJustOpened (state S.Store conn.old) → (number : _) → result ≡ Err (Altered number)
        → ((state S.Store conn.old).now.schema ≡ checkpoint_schema) × IsAltered number (state S.Store conn.old).now.trees }
    ensures cause { HasCleanDisk (state S.Store conn.new) → IsJustOpened (state S.Store conn.old) → IfErr result (IsOpenCause (state S.Store conn.old) (state S.Store conn.new)) }
    ensures own { HasCleanDisk (state S.Store conn.new) → IsJustOpened (state S.Store conn.old) → (all : _) → ShowsList (state S.Store conn.old).now all
        → IfErr result (λ e. ¬ IsListRefusal e) }
    ensures counts { (state S.Store conn.old).faults ≤ (state S.Store conn.new).faults }
    ensures shut { HasCleanDisk (state S.Store conn.new) → IsTrue (state S.Store conn.old).is_open
        → IsTrue (state S.Store conn.new).is_open ⊎ MoreFaults (state S.Store conn.old).faults (state S.Store conn.new).faults }
    ensures untouched { HasCleanDisk (state S.Store conn.new) → IsJustOpened (state S.Store conn.old)
        → IfErr result (λ e. IsListRefusal e → IsAsItWas (state S.Store conn.old) (state S.Store conn.new)) }
    ensures clean { doubt (state S.Store conn.old).is_clean ≤ doubt (state S.Store conn.new).is_clean }
    ensures crash { HasCleanDisk (state S.Store conn.new) → IsJustOpened (state S.Store conn.old) → (db : _) → (state S.Store conn.new).may_leave db
        → (db ≡ (state S.Store conn.old).now.trees) ⊎ (((state S.Store conn.old).now.schema ≡ no_schema) × StandsFor db []) }
    ensures left { HasCleanDisk (state S.Store conn.new) → IsJustOpened (state S.Store conn.old) → (all : _) → ShowsList (state S.Store conn.old).now all
        → (db : _) → (state S.Store conn.new).may_leave db → Has db all }
{
    opened_laws(conn);
    if let Some(refusal) = refusal_of(conn.schema()) {
        return Err(refusal);
    }
    if is_blank(conn.schema()) {
        make(conn)?;
        return Ok((
            Vec::new(alloc),
            ListEnd {
                count: 0,
                link: NO_LINK,
            },
        ));
    }
    list(alloc, conn)
}

/// Whether the database has nothing defined, or just the table of checkpoints. Then `begin` gives neither `Foreign` nor `Version`.
pub fn takes<S: Alter>(conn: &Connection<S>) -> bool
    ensures { IsTrue result ↔ (((state S.Store conn.now).now.schema ≡ no_schema) ⊎ ((state S.Store conn.now).now.schema ≡ checkpoint_schema)) }
{
    refusal_of(conn.schema()).is_none()
}

/// What a crash leaves of a connection that was just opened: the list that it shows. Nothing is done here: the clause is the law.
pub fn opened_leaves_its_list<S: Alter>(conn: &Connection<S>)
    ensures { IsJustOpened (state S.Store conn.now) → (all : _) → ShowsList (state S.Store conn.now).now all
        → (db : _) → (state S.Store conn.now).may_leave db → Has db all }
{
    opened_laws(conn);
}
