//! The kinds of fields: what a JSON tree gives as a field of each kind, or its first fault.

ghost use Rattle.std.specs.Prelude.{◌≡◌, ◌≤◌, List, length, map, string_bytes, Result, Ok, IfOk};
ghost use Rattle.serde_json.specs.Data.{Data};
ghost use Rattle.jb_job.specs.declared.error.JobError.{JobError};
ghost use Rattle.serde_json.specs.declared.value.Value.{Value};
ghost use Rattle.std.specs.List.{list_all};
ghost use Rattle.std.specs.BTreeMap.{keys};
ghost use Rattle.serde_json.specs.Find.{get};
ghost use Rattle.serde_json.specs.View.{view, items_view};
ghost use Rattle.jb_job.specs.Names.{name_of};
ghost use Rattle.jb_job.specs.Reading.{Read, Gives, GivesExactly, each_at, pair_at, triple_at, whole_number, shaped, is_named, object_at, text_at, number_at, list_at, flag_at};

use crate::error::JobError;
use crate::field::Field;
use serde_json::{Map, Value};
use std::alloc::Global;
use std::marker::Brand;

/// Whether the name is the key of a field of the table.
fn is_key(table: &[Field], name: &str) -> bool
    ensures { result ≡ is_named table.now name.now }
{
    table.iter().any(|field| field.name() == name)
}

/// Whether each key is that of a field of the table.
fn has_only(table: &[Field], members: &Map<String, Value>) -> bool
    ensures { result ≡ list_all (λ key. is_named table.now (string_bytes key)) (keys members.now) }
{
    members.keys().all(|name| is_key(table, name.as_str()))
}

/// An object that has no key besides the table's. Another key is `WrongShape(unknown)`.
#[tactic(auto, using(crate::proofs::Trees::tree_steps), unfolding(crate::specs::Reading::object_at))]
pub fn object<'a>(field: Field, table: &[Field], tree: &'a Value) -> Result<&'a Value, JobError>
    ensures { GivesExactly (λ v. view v.now) result (object_at field table.now (view tree.now)) }
{
    let members = tree.as_object().ok_or(JobError::WrongShape(field))?;
    if has_only(table, members) {
        Ok(tree)
    } else {
        Err(JobError::WrongShape(Field::Unknown))
    }
}

/// A text of low to high bytes: another kind is WrongShape, another length OutOfRange.
#[tactic(auto, unfolding(crate::specs::Reading::text_at))]
pub fn text(low: usize, high: usize, field: Field, tree: &Value) -> Result<&str, JobError>
    ensures exact { GivesExactly (λ s. s.now) result (text_at low high field (view tree.now)) }
    ensures least { IfOk result (λ s. low ≤ length s.now) }
    ensures most { IfOk result (λ s. length s.now ≤ high) }
{
    let text = tree.as_str().ok_or(JobError::WrongShape(field))?;
    if low <= text.len() && text.len() <= high {
        Ok(text)
    } else {
        Err(JobError::OutOfRange(field))
    }
}

/// A number from low to high: another kind is WrongShape, another number OutOfRange.
#[tactic(auto, unfolding(crate::specs::Reading::number_at))]
pub fn number(low: u64, high: u64, field: Field, tree: &Value) -> Result<u64, JobError>
    ensures exact { GivesExactly (λ n. n) result (number_at low high field (view tree.now)) }
    ensures least { IfOk result (λ n. low ≤ n) }
    ensures most { IfOk result (λ n. n ≤ high) }
{
    let number = whole(field, tree)?;
    if low <= number && number <= high {
        Ok(number)
    } else {
        Err(JobError::OutOfRange(field))
    }
}

/// A list of low to high members: another kind is WrongShape, more are TooMany, fewer OutOfRange.
#[tactic(auto, using(crate::proofs::Trees::tree_steps), unfolding(crate::specs::Reading::list_at))]
pub fn list(low: usize, high: usize, field: Field, tree: &Value) -> Result<&Vec<Value>, JobError>
    ensures exact { GivesExactly (λ v. items_view v.now.items) result (list_at low high field (view tree.now)) }
    ensures least { IfOk result (λ v. low ≤ length v.now.items) }
    ensures short { IfOk result (λ v. length v.now.items ≤ high) }
{
    let items = tree.as_array().ok_or(JobError::WrongShape(field))?;
    if high < items.len() {
        Err(JobError::TooMany(field))
    } else if items.len() < low {
        Err(JobError::OutOfRange(field))
    } else {
        Ok(items)
    }
}

/// A field that has to be there: an object without it is WrongShape.
pub fn required<'a>(field: Field, tree: &'a Value) -> Result<&'a Value, JobError>
    ensures { GivesExactly (λ v. view v.now) result (shaped field (get (name_of field) (view tree.now))) }
{
    tree.get(field.name()).ok_or(JobError::WrongShape(field))
}

/// A truth value.
#[tactic(auto, unfolding(crate::specs::Reading::flag_at))]
pub fn flag(field: Field, tree: &Value) -> Result<bool, JobError>
    ensures { GivesExactly (λ b. b) result (flag_at field (view tree.now)) }
{
    tree.as_bool().ok_or(JobError::WrongShape(field))
}

/// A list of two members: another kind or another number of members is WrongShape.
#[tactic(auto, using(crate::proofs::Trees::tree_steps), unfolding(crate::specs::Reading::pair_at))]
pub fn pair(field: Field, tree: &Value) -> Result<(&Value, &Value), JobError>
    ensures { GivesExactly (λ p. (view p.0.now, view p.1.now)) result (pair_at field (view tree.now)) }
{
    let items = tree.as_array().ok_or(JobError::WrongShape(field))?;
    match items.as_slice() {
        [first, second] => Ok((first, second)),
        _ => Err(JobError::WrongShape(field)),
    }
}

/// A list of three members: another kind or another number of members is WrongShape.
#[tactic(auto, using(crate::proofs::Trees::tree_steps), unfolding(crate::specs::Reading::triple_at))]
pub fn triple(field: Field, tree: &Value) -> Result<(&Value, &Value, &Value), JobError>
    ensures { GivesExactly (λ t. (view t.0.now, view t.1.now, view t.2.now)) result (triple_at field (view tree.now)) }
{
    let items = tree.as_array().ok_or(JobError::WrongShape(field))?;
    match items.as_slice() {
        [first, second, third] => Ok((first, second, third)),
        _ => Err(JobError::WrongShape(field)),
    }
}

/// A number of any size: another kind is WrongShape.
pub fn whole(field: Field, tree: &Value) -> Result<u64, JobError>
    ensures { GivesExactly (λ n. n) result (shaped field (whole_number (view tree.now))) }
{
    tree.as_u64().ok_or(JobError::WrongShape(field))
}

/// What the members of a list are read as. It is used in proofs alone: a call of `each` names `Brand`, and its proof
/// picks what `each` promises.
pub trait Member<T> {
    /// What contracts see of a member.
    ghost Shown: { Type 0 };

    ghost shown: { T → Shown };

    /// What a tree gives after the members before it.
    ghost kind: { List Shown → Data → Read Shown };
}

impl<T> Member<T> for Brand {
    ghost Shown = { Unit {0} };

    ghost shown = { λ _. tt };

    ghost kind = { λ _ _. Ok tt };
}

/// All members of a list in order, each read with those before it. The first fault ends the reading. Besides `read`, only
/// the list's growth takes memory.
pub fn each<M: Member<T>, T: Drop, F: Fn(&[T], &Value) -> Result<T, JobError>>(
    alloc: Global,
    items: &Vec<Value>,
    read: F,
) -> Result<Vec<T>, JobError>
    requires callable { F.IsAlwaysCallable read }
    requires exact { (done : _) (tree : _) (one : Result T JobError) → F.post read done tree one → Gives M.shown one (M.kind (map M.shown done.now) (view tree.now)) }
    ensures exact { Gives (λ v. map M.shown v.items) result (each_at M.kind (items_view items.now.items)) }
    ensures long { IfOk result (λ v. length v.items ≡ length items.now.items) }
{
    let mut done = Vec::with_capacity(alloc, items.len())?;
    for item in items {
        let one = read(&done, item)?;
        done.push(one)?;
    }
    Ok(done)
}

/// As `each`, but `read` gets each member by value.
pub fn each_by_value<M: Member<T>, T: Drop, F: Fn(&[T], Value) -> Result<T, JobError>>(
    alloc: Global,
    items: Vec<Value>,
    read: F,
) -> Result<Vec<T>, JobError>
    requires callable { F.IsAlwaysCallable read }
    requires exact { (done : _) (tree : _) (one : Result T JobError) → F.post read done tree one → Gives M.shown one (M.kind (map M.shown done.now) (view tree)) }
    ensures exact { Gives (λ v. map M.shown v.items) result (each_at M.kind (items_view items.items)) }
    ensures long { IfOk result (λ v. length v.items ≡ length items.items) }
{
    let mut done = Vec::with_capacity(alloc, items.len())?;
    for member in items {
        let one = read(&done, member)?;
        done.push(one)?;
    }
    Ok(done)
}
