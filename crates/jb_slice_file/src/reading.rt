//! The list of a database's rows.

ghost use Rattle.std.specs.Prelude.{◌≡◌, ◌≢◌, ◌⊎◌, length, map, IfOk, IfErr};
ghost use Rattle.std.specs.List.{AllByRecursion};
ghost use Rattle.jb_slice_file.specs.Chain.{chained};
ghost use Rattle.jb_slice_file.specs.CheckpointBytes.{checkpoint_bytes};
ghost use Rattle.jb_slice_file.specs.ListEnd.{IsEndOf};
ghost use Rattle.jb_slice_file.specs.Numbered.{IsAlteredAt, numbered};
ghost use Rattle.jb_slice_file.specs.Rows.{shown, shown_from};
ghost use Rattle.jb_slice_file.specs.declared.error.StoreError.TheVariants.{Altered, Foreign, Gap, Memory, Sql, Version};

use crate::checkpoint::Checkpoint;
use crate::error::StoreError;
use crate::list_end::ListEnd;
use crate::numbered::{Found, in_order};
use sqlite::Row;
use std::alloc::Global;

/// The checkpoint of a row, its number and its link.
#[tactic(auto, using(crate::proofs::Read::four_are))]
fn found_of(row: &Row) -> Result<Found, StoreError>
    ensures read { length row.now ≡ 4 → IfOk result (λ c. row.now ≡ shown (numbered c)) }
    ensures why { IfErr result (λ e. (e ≡ Memory) ⊎ ((why : _) × (e ≡ Sql why))) }
{
    let number = row.get(0)?;
    let saved = row.get(1)?;
    let results = row.get(2)?;
    let link = row.get(3)?;
    Ok(Found {
        number,
        checkpoint: Checkpoint { saved, results },
        link,
    })
}

/// The checkpoints of all rows, with their numbers and links.
#[tactic(auto, using(crate::proofs::Read::push_row, crate::proofs::Read::wide_at))]
fn all_found(alloc: Global, rows: &[Row]) -> Result<Vec<Found>, StoreError>
    ensures read { AllByRecursion (λ row. length row ≡ 4) rows.now → IfOk result (λ found. rows.now ≡ map shown (map numbered found.items)) }
    ensures why { IfErr result (λ e. (e ≡ Memory) ⊎ ((why : _) × (e ≡ Sql why))) }
{
    let mut found = Vec::new(alloc);
    'rows: for row in rows {
        found.push(found_of(row)?)?;
    }
    Ok(found)
}

/// The checkpoints of all rows, and where they end. They must be numbered from 1 on, and each must have its link.
pub(crate) fn checkpoints_of(
    alloc: Global,
    rows: &[Row],
) -> Result<(Vec<Checkpoint>, ListEnd), StoreError>
    ensures read { AllByRecursion (λ row. length row ≡ 4) rows.now → IfOk result (λ r. rows.now ≡ shown_from 1 (chained (map checkpoint_bytes r.0.items))) }
    ensures list { (all : _) → rows.now ≡ shown_from 1 (chained all) → IfOk result (λ r. map checkpoint_bytes r.0.items ≡ all) }
    ensures intact { (all : _) → rows.now ≡ shown_from 1 (chained all) → IfErr result (λ e. (number : _) → e ≢ Altered number) }
    ensures end { IfOk result (λ r. IsEndOf r.1 (map checkpoint_bytes r.0.items)) }
    ensures named { IfErr result (λ e. (e ≢ Foreign) × (e ≢ Version)) }
    ensures gap { (all : _) → rows.now ≡ shown_from 1 all → IfErr result (λ e. e ≢ Gap) }
    ensures altered { AllByRecursion (λ row. length row ≡ 4) rows.now → IfErr result (λ e. (number : _) → e ≡ Altered number
        → (found : _) × (rows.now ≡ map shown found) × IsAlteredAt number found) }
    ensures why { IfErr result (λ e. (e ≡ Gap) ⊎ (((number : _) × (e ≡ Altered number)) ⊎ ((e ≡ Memory) ⊎ ((why : _) × (e ≡ Sql why))))) }
{
    let found = all_found(alloc, rows)?;
    in_order(alloc, found)
}
