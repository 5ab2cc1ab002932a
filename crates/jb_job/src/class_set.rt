//! Sets of fault classes: what an include and an exclude list leave.

ghost use Rattle.serde_json.specs.View.{view};
ghost use Rattle.jb_job.specs.Reading.{Gives, GivesExactly, optional};
ghost use Rattle.jb_job.specs.JobRecord.{bits_at, names_at, set_at};
ghost use Rattle.jb_job.specs.declared.field.Field.TheVariants as field;

use crate::class_list::EVERY_CLASS;
use crate::classes::Classes;
use crate::error::JobError;
use crate::field::Field;
use crate::kinds::{each, list, object};
use jb_base::MAX_CLASS_NAMES;
use serde_json::Value;
use std::alloc::Global;
use std::marker::Brand;

/// The bit of a name, or every bit for `*` if it is allowed here.
#[tactic(auto, unfolding(crate::specs::JobRecord::bits_at))]
fn class_bits(star: bool, classes: &Classes, field: Field, tree: &Value) -> Result<u64, JobError>
    ensures { GivesExactly (λ n. n) result (bits_at star classes.now field (view tree.now)) }
{
    let name = tree.as_str().ok_or(JobError::WrongShape(field))?;
    if star && name == EVERY_CLASS {
        return Ok(u64::MAX);
    }
    match classes.class(name) {
        None => Err(JobError::UnknownClass),
        Some(class) => Ok(class.bit()),
    }
}

/// The bits of all names of a list.
#[tactic(auto, unfolding(crate::specs::JobRecord::names_at))]
fn names(
    alloc: Global,
    star: bool,
    classes: &Classes,
    field: Field,
    tree: &Value,
) -> Result<u64, JobError>
    ensures { Gives (λ n. n) result (names_at star classes.now field (view tree.now)) }
{
    let items = list(0, MAX_CLASS_NAMES, field, tree)?;
    let bits = each::<Brand, u64, _>(alloc, items, |_, tree| {
        class_bits(star, classes, field, tree)
    })?;
    Ok(bits.iter().fold(0, |all, one| all | one))
}

/// The classes included without those excluded.
#[tactic(auto, unfolding(crate::specs::JobRecord::set_at, crate::specs::Reading::optional))]
fn class_set(alloc: Global, classes: &Classes, field: Field, tree: &Value) -> Result<u64, JobError>
    ensures { Gives (λ n. n) result (set_at classes.now field (view tree.now)) }
{
    let set = object(field, &[Field::Include, Field::Exclude], tree)?;
    let included = match set.get(Field::Include.name()) {
        None => 0,
        Some(included) => names(alloc, true, classes, Field::Include, included)?,
    };
    let excluded = match set.get(Field::Exclude.name()) {
        None => 0,
        Some(excluded) => names(alloc, false, classes, Field::Exclude, excluded)?,
    };
    Ok(included & !excluded)
}

/// A field with a set of classes, which is empty if the field is absent.
#[tactic(auto, unfolding(crate::specs::Reading::optional))]
pub fn class_field(
    alloc: Global,
    classes: &Classes,
    field: Field,
    chunk: &Value,
) -> Result<u64, JobError>
    ensures { Gives (λ n. n) result (optional (set_at classes.now) 0 field (view chunk.now)) }
{
    match chunk.get(field.name()) {
        None => Ok(0),
        Some(set) => class_set(alloc, classes, field, set),
    }
}
