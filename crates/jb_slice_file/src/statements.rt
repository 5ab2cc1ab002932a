//! The statement that adds a checkpoint.

ghost use Rattle.std.specs.Prelude.{◌≡◌, ◌⊎◌, ◌++◌, ◌+◌, ◌-◌, ◌^◌, ◌≤◌, [], ◌∷◌, length, IfErr, OnOk, OnErr, IsTrue};
ghost use Rattle.jb_slice_file.specs.Chain.{last_link, link_of};
ghost use Rattle.jb_slice_file.specs.Connections.{Keeps};
ghost use Rattle.jb_slice_file.specs.Errors.{IsCaused};
ghost use Rattle.jb_slice_file.specs.ListEnd.{IsEndOf, count_of};
ghost use Rattle.jb_slice_file.specs.Rows.{HasNumber, IsTooLong, StandsFor};
ghost use Rattle.sqlite.specs.Held.{state};
ghost use Rattle.sqlite.specs.State.{HasCleanDisk};
ghost use Rattle.sqlite_disk.specs.Disk.{MoreFaults};
ghost use Rattle.sqlite_trees.specs.View.{doubt};

use crate::error::StoreError;
use crate::list_end::ListEnd;
use sqlite::{Alter, Connection, params};

/// Inserts the row of a checkpoint.
fn insert<S: Alter>(
    conn: &mut Connection<S>,
    number: u32,
    saved: &str,
    results: &[u8],
    link: &[u8],
) -> Result<(), StoreError>
    ensures added { HasCleanDisk (state S.Store conn.new) → (all : _) → Keeps (state S.Store conn.old) all → number ≡ length all + 1
        → link.now ≡ link_of (last_link all) (length all + 1) (record { saved = saved.now; results = results.now })
        → OnOk result (Keeps (state S.Store conn.new) (all ++ (record { saved = saved.now; results = results.now }) ∷ [])) }
    ensures kept { HasCleanDisk (state S.Store conn.new) → (all : _) → Keeps (state S.Store conn.old) all
        → OnErr result (IsTrue (state S.Store conn.new).is_open → Keeps (state S.Store conn.new) all) }
    ensures cause { HasCleanDisk (state S.Store conn.new) → (all : _) → Keeps (state S.Store conn.old) all → length link.now ≡ 32
        → IfErr result (IsCaused (state S.Store conn.old) (state S.Store conn.new) (HasNumber all number) (IsTooLong (record { saved = saved.now; results = results.now })) ⊥) }
    ensures shut { HasCleanDisk (state S.Store conn.new) → IsTrue (state S.Store conn.old).is_open
        → IsTrue (state S.Store conn.new).is_open ⊎ MoreFaults (state S.Store conn.old).faults (state S.Store conn.new).faults }
    ensures counts { (state S.Store conn.old).faults ≤ (state S.Store conn.new).faults }
    ensures clean { doubt (state S.Store conn.old).is_clean ≤ doubt (state S.Store conn.new).is_clean }
    ensures crash { HasCleanDisk (state S.Store conn.new) → (all : _) → Keeps (state S.Store conn.old) all → number ≡ length all + 1
        → link.now ≡ link_of (last_link all) (length all + 1) (record { saved = saved.now; results = results.now })
        → (db : _) → (state S.Store conn.new).may_leave db
        → StandsFor db all ⊎ StandsFor db (all ++ (record { saved = saved.now; results = results.now }) ∷ []) }
{
    conn.execute(
        "INSERT INTO checkpoint (number, saved, results, link) VALUES (?1, ?2, ?3, ?4)",
        params![number, saved, results, link],
    )?;
    Ok(())
}

/// Adds a checkpoint at the end of a list, and moves the end on. It is one commit. After an Ok a crash leaves the new list. After an error a crash
/// leaves the old list or, if the disk failed in the commit, the new one.
#[tactic(auto, using(crate::proofs::Chains::is_next, crate::proofs::Chains::is_wide))]
pub fn append<S: Alter>(
    conn: &mut Connection<S>,
    end: &mut ListEnd,
    saved: &str,
    results: &[u8],
) -> Result<(), StoreError>
    ensures added { HasCleanDisk (state S.Store conn.new) → (all : _) → Keeps (state S.Store conn.old) all → IsEndOf end.old all
        → OnOk result (Keeps (state S.Store conn.new) (all ++ (record { saved = saved.now; results = results.now }) ∷ [])) }
    ensures end { (all : _) → IsEndOf end.old all → OnOk result (IsEndOf end.new (all ++ (record { saved = saved.now; results = results.now }) ∷ [])) }
    ensures counted { OnOk result (count_of end.new ≡ count_of end.old + 1) }
    ensures stays { OnErr result (end.new ≡ end.old) }
    ensures kept { HasCleanDisk (state S.Store conn.new) → (all : _) → Keeps (state S.Store conn.old) all
        → OnErr result (IsTrue (state S.Store conn.new).is_open → Keeps (state S.Store conn.new) all) }
    ensures cause { HasCleanDisk (state S.Store conn.new) → (all : _) → Keeps (state S.Store conn.old) all
        → IfErr result (λ e. IsCaused (state S.Store conn.old) (state S.Store conn.new) (HasNumber all (count_of end.old + 1)) (IsTooLong (record { saved = saved.now; results = results.now }))
        (2 ^ 32 - 1 ≤ count_of end.old) e) }
    ensures shut { HasCleanDisk (state S.Store conn.new) → IsTrue (state S.Store conn.old).is_open
        → IsTrue (state S.Store conn.new).is_open ⊎ MoreFaults (state S.Store conn.old).faults (state S.Store conn.new).faults }
    ensures counts { (state S.Store conn.old).faults ≤ (state S.Store conn.new).faults }
    ensures clean { doubt (state S.Store conn.old).is_clean ≤ doubt (state S.Store conn.new).is_clean }
    ensures crash { HasCleanDisk (state S.Store conn.new) → (all : _) → Keeps (state S.Store conn.old) all → IsEndOf end.old all
        → (db : _) → (state S.Store conn.new).may_leave db
        → StandsFor db all ⊎ StandsFor db (all ++ (record { saved = saved.now; results = results.now }) ∷ []) }
{
    let Some((number, longer)) = end.grown(saved, results) else {
        return Err(StoreError::TooMany);
    };
    insert(conn, number, saved, results, longer.link.as_slice())?;
    *end = longer;
    Ok(())
}
