//! The form of saved rows: what a JSON tree holds, or nothing if it is of another form.

ghost use Rattle.std.specs.Prelude.{◌≡◌, ◌≤◌, [], false, length, map, IfOk, IfSome, string_bytes, option_map, bytes_eq};
ghost use Rattle.std.specs.List.{list_all, list_any};
ghost use Rattle.std.specs.BTreeMap.{keys};
ghost use Rattle.serde_json.specs.View.{view, items_view};
ghost use Rattle.jb_saved.specs.SavedForm.{row_of_tree, rows_from_trees, rows_of_tree, keyed, saved_keys, step_of, version_of, saved_of_tree};
ghost use Rattle.jb_saved.specs.SavedTree.{is_known, listed};
ghost use Rattle.jb_base.specs.Name.{IsName};
ghost use Rattle.jb_base.specs.Limits.{max_partitions};
ghost use Rattle.jb_rules.specs.States.{is_running};
ghost use Rattle.jb_saved.specs.inside.Forms.{AreStill, Finds, padded, whole_numbers, state_in, row_from};

use crate::error::SavedError;
use crate::place::SavedPlace;
use jb_base::{MAX_NAME, MAX_PARTITIONS, Name};
use jb_rules::{Row, RowState};
use serde_json::{Map, Value};
use std::alloc::Global;

const SHAPE: SavedError = SavedError::Refused(SavedPlace::Shape);

/// The version of the form that is written.
pub(crate) const VERSION: u64 = 2;

/// Whether saved rows of this version are read.
pub(crate) fn is_known(version: u64) -> bool
    ensures { result ≡ is_known version }
{
    1 <= version && version <= VERSION
}

/// How many of a row's numbers are listed: the first version has no calls that are repeated in place.
fn listed(version: u64) -> usize
    ensures { result ≡ listed version }
{
    if version == 1 { 14 } else { Row::NUMBERS }
}

/// The numbers that the members are. The numbers that aren't there are 0.
fn numbers_in(members: &[Value]) -> Option<[u64; Row::NUMBERS]>
    requires { length members.now ≤ 15 }
    ensures { result ≡ option_map padded (whole_numbers (map view members.now)) }
{
    let mut numbers = [0; Row::NUMBERS];
    for (place, member) in members.iter().enumerate() {
        numbers[place] = member.as_u64()?;
    }
    Some(numbers)
}

/// The state that a name means.
fn state_in(name: &Value) -> Option<RowState>
    ensures form { result ≡ state_in (view name.now) }
    ensures still { IfSome result (λ state. is_running state ≡ false) }
{
    RowState::of_name(name.as_str()?)
}

/// The row of these numbers and the state after them.
fn row_from(members: &[Value], name: &Value) -> Option<Row>
    requires { length members.now ≤ 15 }
    ensures form { result ≡ row_from (map view members.now) (view name.now) }
    ensures still { IfSome result (λ row. is_running row.state ≡ false) }
{
    let numbers = numbers_in(members)?;
    let state = state_in(name)?;
    Some(Row::of_numbers(&numbers, state))
}

/// A row: the numbers that the version lists, and a state.
#[tactic(auto, unfolding(crate::specs::SavedForm::row_of_tree))]
fn row_of(tree: &Value, version: u64) -> Option<Row>
    ensures form { result ≡ row_of_tree version (view tree.now) }
    ensures still { IfSome result (λ row. is_running row.state ≡ false) }
{
    let (name, members) = tree.as_array()?.split_last()?;
    if members.len() == listed(version) {
        row_from(members, name)
    } else {
        None
    }
}

/// The rows: a list of 1 to 1,024.
#[tactic(auto, using(crate::proofs::Trees::tree_steps), unfolding(crate::specs::SavedForm::rows_of_tree))]
fn rows_of(alloc: Global, tree: &Value, version: u64) -> Result<Vec<Row>, SavedError>
    ensures form { Finds (λ rows. rows.items) result (rows_of_tree version (view tree.now)) }
    ensures some { IfOk result (λ rows. 1 ≤ length rows.items) }
    ensures few { IfOk result (λ rows. length rows.items ≤ max_partitions) }
    ensures still { IfOk result (λ rows. AreStill rows.items) }
{
    let items = tree.as_array().ok_or(SHAPE)?;
    if items.is_empty() || items.len() > MAX_PARTITIONS {
        return Err(SHAPE);
    }
    rows_in(alloc, items, version)
}

/// Each of the list's members as a row.
fn rows_in(alloc: Global, items: &Vec<Value>, version: u64) -> Result<Vec<Row>, SavedError>
    ensures form { Finds (λ rows. rows.items) result (rows_from_trees version [] (items_view items.now.items)) }
    ensures count { IfOk result (λ rows. length rows.items ≡ length items.now.items) }
    ensures still { IfOk result (λ rows. AreStill rows.items) }
{
    let mut rows = Vec::new(alloc);
    for item in items {
        let row = row_of(item, version).ok_or(SHAPE)?;
        rows.push(row)?;
    }
    Ok(rows)
}

fn is_key(name: &str) -> bool
    ensures { result ≡ list_any (bytes_eq name.now) saved_keys }
{
    name == "rows" || name == "step" || name == "version"
}

fn has_only_keys(members: &Map<String, Value>) -> bool
    ensures { result ≡ list_all (λ key. list_any (bytes_eq (string_bytes key)) saved_keys) (keys members.now) }
{
    members.keys().all(|name| is_key(name.as_str()))
}

/// An object that has no other key than a saved one's.
#[tactic(auto, using(crate::proofs::Trees::tree_steps), unfolding(crate::specs::SavedForm::keyed))]
fn keyed(tree: &Value) -> Option<&Value>
    ensures { option_map (λ v. view v.now) result ≡ keyed (view tree.now) }
{
    let members = tree.as_object()?;
    if has_only_keys(members) {
        Some(tree)
    } else {
        None
    }
}

/// An id of 1 to 64 bytes.
#[tactic(auto, unfolding(crate::specs::SavedForm::step_of))]
fn step_of(tree: &Value) -> Option<&str>
    ensures form { option_map (λ id. id.now) result ≡ step_of (view tree.now) }
    ensures named { IfSome result (λ id. IsName id.now) }
{
    let id = tree.as_str()?;
    if 1 <= id.len() && id.len() <= MAX_NAME {
        Some(id)
    } else {
        None
    }
}

/// The number of an object's version.
pub(crate) fn version_of(tree: &Value) -> Option<u64>
    ensures { result ≡ version_of (view tree.now) }
{
    tree.get("version")?.as_u64()
}

/// The id and the rows of an object of this version. The row rules aren't checked.
#[tactic(auto, unfolding(crate::specs::SavedForm::saved_of_tree))]
pub(crate) fn saved_of(
    alloc: Global,
    tree: &Value,
    version: u64,
) -> Result<(Name, Vec<Row>), SavedError>
    ensures form { Finds (λ parts. record { step = parts.0; rows = parts.1.items }) result (saved_of_tree version (view tree.now)) }
    ensures named { IfOk result (λ parts. IsName parts.0) }
    ensures some { IfOk result (λ parts. 1 ≤ length parts.1.items) }
    ensures few { IfOk result (λ parts. length parts.1.items ≤ max_partitions) }
    ensures still { IfOk result (λ parts. AreStill parts.1.items) }
{
    let object = keyed(tree).ok_or(SHAPE)?;
    let rows = rows_of(alloc, object.get("rows").ok_or(SHAPE)?, version)?;
    let step = object.get("step").ok_or(SHAPE)?;
    let id = step_of(step).ok_or(SHAPE)?;
    Ok((Name::new(String::from_str(alloc, id)?), rows))
}
