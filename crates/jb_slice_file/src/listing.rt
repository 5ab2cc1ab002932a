//! The list of a database that has the table.

ghost use Rattle.std.specs.Prelude.{◌≡◌, ◌≢◌, ◌⊎◌, ◌≤◌, length, map, IfOk, IfErr, IsPermutation, IsTrue, OnOk};
ghost use Rattle.std.specs.List.{AllByRecursion};
ghost use Rattle.jb_slice_file.specs.declared.error.StoreError.TheVariants.{Altered, Foreign, Gap, Version};
ghost use Rattle.jb_slice_file.specs.Errors.{IsListFault, IsListRefusal, IsStoreFault};
ghost use Rattle.jb_slice_file.specs.TableSchema.{checkpoint_schema};
ghost use Rattle.jb_slice_file.specs.Rows.{AreIn, HasGap, HoldsList, IsAltered, shown, shown_from, stored, stored_from};
ghost use Rattle.jb_slice_file.specs.CheckpointBytes.{checkpoint_bytes};
ghost use Rattle.jb_slice_file.specs.Connections.{Keeps};
ghost use Rattle.jb_slice_file.specs.ListEnd.{IsEndOf};
ghost use Rattle.sqlite.specs.Held.{state};
ghost use Rattle.sqlite.specs.State.{HasCleanDisk};
ghost use Rattle.sqlite_catalog.specs.Listing.{IsSound};
ghost use Rattle.sqlite_disk.specs.Disk.{MoreFaults};
ghost use Rattle.sqlite_trees.specs.View.{doubt};

use crate::checkpoint::Checkpoint;
use crate::error::StoreError;
use crate::list_end::ListEnd;
use crate::reading::checkpoints_of;
use sqlite::{Alter, Connection, Row};
use std::alloc::Global;

/// All rows, in the order of their numbers.
fn all_rows<S: Alter>(conn: &mut Connection<S>) -> Result<Vec<Row>, StoreError>
    ensures wide { HasCleanDisk (state S.Store conn.new) → (state S.Store conn.old).now.schema ≡ checkpoint_schema → IfOk result (λ rows. AllByRecursion (λ row. length row ≡ 4) rows.items) }
    ensures lists { HasCleanDisk (state S.Store conn.new) → (state S.Store conn.old).now.schema ≡ checkpoint_schema
        → (all : _) → IsPermutation (stored_from 1 all) ((state S.Store conn.old).now.trees 0) → IfOk result (λ rows. rows.items ≡ shown_from 1 all) }
    ensures back { HasCleanDisk (state S.Store conn.new) → (state S.Store conn.old).now.schema ≡ checkpoint_schema → IsSound checkpoint_schema (state S.Store conn.old).now.trees
        → IfOk result (λ rows. (found : _) → rows.items ≡ map shown found → IsPermutation (map stored found) ((state S.Store conn.old).now.trees 0)) }
    ensures kept { HasCleanDisk (state S.Store conn.new) → (all : _) → Keeps (state S.Store conn.old) all → OnOk result (Keeps (state S.Store conn.new) all) }
    ensures named { IfErr result (λ e. ¬ IsListRefusal e) }
    ensures untouched { HasCleanDisk (state S.Store conn.new) → (state S.Store conn.old).now.schema ≡ checkpoint_schema
        → OnOk result ((state S.Store conn.new).now ≡ (state S.Store conn.old).now) }
    ensures clean { doubt (state S.Store conn.old).is_clean ≤ doubt (state S.Store conn.new).is_clean }
    ensures crash { HasCleanDisk (state S.Store conn.new) → (state S.Store conn.old).now.schema ≡ checkpoint_schema
        → (db : _) → (state S.Store conn.new).may_leave db → (state S.Store conn.old).may_leave db }
    ensures cause { HasCleanDisk (state S.Store conn.new) → (state S.Store conn.old).now.schema ≡ checkpoint_schema
        → IfErr result (IsStoreFault (state S.Store conn.old) (state S.Store conn.new)) }
    ensures counts { (state S.Store conn.old).faults ≤ (state S.Store conn.new).faults }
    ensures shut { HasCleanDisk (state S.Store conn.new) → IsTrue (state S.Store conn.old).is_open
        → IsTrue (state S.Store conn.new).is_open ⊎ MoreFaults (state S.Store conn.old).faults (state S.Store conn.new).faults }
{
    let rows = conn.query_all(
        "SELECT number, saved, results, link FROM checkpoint ORDER BY number",
        &[],
    )?;
    Ok(rows)
}

/// All checkpoints in their order, and where they end. `Gap` if the numbers of the rows aren't 1, 2, 3 and so on. `Altered` if one has a
/// wrong link.
pub fn list<S: Alter>(
    alloc: Global,
    conn: &mut Connection<S>,
) -> Result<(Vec<Checkpoint>, ListEnd), StoreError>
    ensures rows { HasCleanDisk (state S.Store conn.new) → (all : _) → HoldsList (state S.Store conn.old).now all → IfOk result (λ found. map checkpoint_bytes found.0.items ≡ all) }
    ensures found { HasCleanDisk (state S.Store conn.new) → (state S.Store conn.old).now.schema ≡ checkpoint_schema → IsSound checkpoint_schema (state S.Store conn.old).now.trees
        → IfOk result (λ found. AreIn (state S.Store conn.old).now.trees (map checkpoint_bytes found.0.items)) }
    ensures end { IfOk result (λ found. IsEndOf found.1 (map checkpoint_bytes found.0.items)) }
    ensures named { IfErr result (λ e. (e ≢ Foreign) × (e ≢ Version)) }
    ensures gap { HasCleanDisk (state S.Store conn.new) → (state S.Store conn.old).now.schema ≡ checkpoint_schema → IfErr result (λ e. e ≡ Gap → HasGap (state S.Store conn.old).now.trees) }
    ensures intact { HasCleanDisk (state S.Store conn.new) → (all : _) → HoldsList (state S.Store conn.old).now all → IfErr result (λ e. (number : _) → e ≢ Altered number) }
    ensures kept { HasCleanDisk (state S.Store conn.new) → (all : _) → Keeps (state S.Store conn.old) all → OnOk result (Keeps (state S.Store conn.new) all) }
    ensures untouched { HasCleanDisk (state S.Store conn.new) → (state S.Store conn.old).now.schema ≡ checkpoint_schema
        → IfErr result (λ e. IsListRefusal e → (state S.Store conn.new).now ≡ (state S.Store conn.old).now) }
    ensures altered { HasCleanDisk (state S.Store conn.new) → (state S.Store conn.old).now.schema ≡ checkpoint_schema → IsSound checkpoint_schema (state S.Store conn.old).now.trees
        → IfErr result (λ e. (number : _) → e ≡ Altered number → IsAltered number (state S.Store conn.old).now.trees) }
    ensures clean { doubt (state S.Store conn.old).is_clean ≤ doubt (state S.Store conn.new).is_clean }
    ensures crash { HasCleanDisk (state S.Store conn.new) → (state S.Store conn.old).now.schema ≡ checkpoint_schema
        → (db : _) → (state S.Store conn.new).may_leave db → (state S.Store conn.old).may_leave db }
    ensures cause { HasCleanDisk (state S.Store conn.new) → (state S.Store conn.old).now.schema ≡ checkpoint_schema
        → IfErr result (IsListFault (state S.Store conn.old) (state S.Store conn.new)) }
    ensures counts { (state S.Store conn.old).faults ≤ (state S.Store conn.new).faults }
    ensures shut { HasCleanDisk (state S.Store conn.new) → IsTrue (state S.Store conn.old).is_open
        → IsTrue (state S.Store conn.new).is_open ⊎ MoreFaults (state S.Store conn.old).faults (state S.Store conn.new).faults }
{
    let rows = all_rows(conn)?;
    checkpoints_of(alloc, &rows)
}
