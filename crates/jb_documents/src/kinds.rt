//! The kinds of fields of a tree that borrows its text, as `jb_job::kinds` reads those of a tree with own strings.

ghost use Rattle.std.specs.Prelude.{◌≡◌, ◌≤◌, length, map, Result, IfOk};
ghost use Rattle.std.specs.List.{list_all};
ghost use Rattle.json.specs.Value.{members_view};
ghost use Rattle.json.specs.declared.value.Value.{Value};
ghost use Rattle.serde_json.specs.Find.{as_array, as_str};
ghost use Rattle.jb_job.specs.declared.error.JobError.{JobError};
ghost use Rattle.jb_job.specs.Reading.{Gives, GivesExactly, each_at, is_named, list_at, object_at, shaped, text_at, triple_at, whole_number};
ghost use Rattle.jb_documents.specs.inside.Borrowed.{items_seen, keys, seen};

use crate::numbers::whole_number;
use jb_job::kinds::Member;
use jb_job::{Field, JobError};
use json::Value as Borrowed;
use std::alloc::Global;

/// Whether the name is the key of a field of the table.
fn is_key(table: &[Field], name: &str) -> bool
    ensures { result ≡ is_named table.now name.now }
{
    table.iter().any(|field| field.name() == name)
}

/// Whether each key is that of a field of the table.
fn has_only(table: &[Field], members: &[(&str, Borrowed<'_>)]) -> bool
    ensures { result ≡ list_all (is_named table.now) (keys (members_view members.now)) }
{
    for member in members {
        if !is_key(table, member.0) {
            return false;
        }
    }
    true
}

/// Tests that the tree is an object that has no key besides the table's. Another key is `WrongShape(unknown)`.
#[tactic(auto, using(crate::proofs::Trees::tree_steps), unfolding(jb_job::specs::Reading::object_at))]
pub fn object(field: Field, table: &[Field], tree: &Borrowed<'_>) -> Result<(), JobError>
    ensures { GivesExactly (λ _. seen tree.now) result (object_at field table.now (seen tree.now)) }
{
    let Borrowed::Object(members) = tree else {
        return Err(JobError::WrongShape(field));
    };
    if has_only(table, members) {
        Ok(())
    } else {
        Err(JobError::WrongShape(Field::Unknown))
    }
}

/// The members of a list of any length: another kind is WrongShape.
pub fn items<'t, 'a>(
    field: Field,
    tree: &'t Borrowed<'a>,
) -> Result<&'t Vec<Borrowed<'a>>, JobError>
    ensures { GivesExactly (λ v. items_seen v.now.items) result (shaped field (as_array (seen tree.now))) }
{
    match tree {
        Borrowed::Array(items) => Ok(items),
        _ => Err(JobError::WrongShape(field)),
    }
}

/// As `items`, by value.
pub fn array<'a>(field: Field, tree: Borrowed<'a>) -> Result<Vec<Borrowed<'a>>, JobError>
    ensures { GivesExactly (λ v. items_seen v.items) result (shaped field (as_array (seen tree.entry))) }
{
    match tree {
        Borrowed::Array(items) => Ok(items),
        _other => Err(JobError::WrongShape(field)),
    }
}

/// A list of low to high members: another kind is WrongShape, more are TooMany, fewer OutOfRange.
#[tactic(auto, using(crate::proofs::Trees::tree_steps), unfolding(jb_job::specs::Reading::list_at))]
pub fn list<'t, 'a>(
    low: usize,
    high: usize,
    field: Field,
    tree: &'t Borrowed<'a>,
) -> Result<&'t Vec<Borrowed<'a>>, JobError>
    ensures exact { GivesExactly (λ v. items_seen v.now.items) result (list_at low high field (seen tree.now)) }
    ensures short { IfOk result (λ v. length v.now.items ≤ high) }
{
    let items = items(field, tree)?;
    if high < items.len() {
        Err(JobError::TooMany(field))
    } else if items.len() < low {
        Err(JobError::OutOfRange(field))
    } else {
        Ok(items)
    }
}

/// As `list`, of a list whose members may be taken apart.
#[tactic(auto, using(crate::proofs::Trees::tree_steps), unfolding(jb_job::specs::Reading::list_at))]
pub fn list_by_value<'a>(
    low: usize,
    high: usize,
    field: Field,
    tree: Borrowed<'a>,
) -> Result<Vec<Borrowed<'a>>, JobError>
    ensures exact { GivesExactly (λ v. items_seen v.items) result (list_at low high field (seen tree.entry)) }
    ensures short { IfOk result (λ v. length v.items ≤ high) }
{
    let items = array(field, tree)?;
    if high < items.len() {
        Err(JobError::TooMany(field))
    } else if items.len() < low {
        Err(JobError::OutOfRange(field))
    } else {
        Ok(items)
    }
}

/// A text of any length: another kind is WrongShape.
pub fn any_text<'a>(field: Field, tree: &Borrowed<'a>) -> Result<&'a str, JobError>
    ensures { GivesExactly (λ s. s.now) result (shaped field (as_str (seen tree.now))) }
{
    tree.as_str().ok_or(JobError::WrongShape(field))
}

/// A text of low to high bytes: another kind is WrongShape, another length OutOfRange.
#[tactic(auto, unfolding(jb_job::specs::Reading::text_at))]
pub fn text<'a>(
    low: usize,
    high: usize,
    field: Field,
    tree: &Borrowed<'a>,
) -> Result<&'a str, JobError>
    ensures { GivesExactly (λ s. s.now) result (text_at low high field (seen tree.now)) }
{
    let text = any_text(field, tree)?;
    if low <= text.len() && text.len() <= high {
        Ok(text)
    } else {
        Err(JobError::OutOfRange(field))
    }
}

/// A number of any size: another kind is WrongShape.
pub fn whole(field: Field, tree: &Borrowed<'_>) -> Result<u64, JobError>
    ensures { GivesExactly (λ n. n) result (shaped field (whole_number (seen tree.now))) }
{
    let text = tree.as_number().ok_or(JobError::WrongShape(field))?;
    whole_number(text).ok_or(JobError::WrongShape(field))
}

/// A list of three members: another kind or another number of members is WrongShape.
#[tactic(auto, using(crate::proofs::Trees::tree_steps), unfolding(jb_job::specs::Reading::triple_at))]
pub fn triple<'t, 'a>(
    field: Field,
    tree: &'t Borrowed<'a>,
) -> Result<(&'t Borrowed<'a>, &'t Borrowed<'a>, &'t Borrowed<'a>), JobError>
    ensures { GivesExactly (λ t. (seen t.0.now, seen t.1.now, seen t.2.now)) result (triple_at field (seen tree.now)) }
{
    let items = items(field, tree)?;
    match items.as_slice() {
        [first, second, third] => Ok((first, second, third)),
        _ => Err(JobError::WrongShape(field)),
    }
}

/// The number of bytes of all texts of the list, or the largest number, where there are more.
pub(crate) fn text_bytes(items: &[Borrowed<'_>]) -> usize {
    let mut bytes: usize = 0;
    for item in items {
        if let Borrowed::String(text) = item {
            bytes = bytes.saturating_add(text.len());
        }
    }
    bytes
}

/// All members of a list in order, each read by those before it. The first fault ends them. Only the list's growth
/// takes memory.
pub fn each<M: Member<T>, T: Drop, F: Fn(&[T], &Borrowed<'_>) -> Result<T, JobError>>(
    alloc: Global,
    items: &Vec<Borrowed<'_>>,
    read: F,
) -> Result<Vec<T>, JobError>
    requires callable { F.IsAlwaysCallable read }
    requires exact { (done : _) (tree : _) (one : Result T JobError) → F.post read done tree one → Gives M.shown one (M.kind (map M.shown done.now) (seen tree.now)) }
    ensures { Gives (λ v. map M.shown v.items) result (each_at M.kind (items_seen items.now.items)) }
{
    let mut done = Vec::with_capacity(alloc, items.len())?;
    for item in items {
        let one = read(&done, item)?;
        done.push(one)?;
    }
    Ok(done)
}
