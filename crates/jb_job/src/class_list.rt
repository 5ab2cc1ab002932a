//! The list `exception-classes`: the fault classes that a job declares.

ghost use Rattle.std.specs.Prelude.{◌≡◌, ◌≤◌, ◌+◌, length, map, string_bytes, OnOk, IfOk, IfErr};
ghost use Rattle.serde_json.specs.View.{view};
ghost use Rattle.jb_base.specs.Limits.{max_classes};
ghost use Rattle.jb_job.specs.Reading.{Gives};
ghost use Rattle.jb_job.specs.JobRecord.{class_name_at, with_name, distinct, classes_at};
ghost use Rattle.jb_job.specs.declared.error.JobError.TheVariants.{Memory};
ghost use Rattle.jb_job.specs.declared.field.Field.TheVariants as field;

use crate::classes::Classes;
use crate::error::JobError;
use crate::field::Field;
use crate::kinds::{each, list, text};
use indexmap::IndexSet;
use jb_base::{MAX_CLASSES, MAX_NAME};
use serde_json::Value;
use std::alloc::Global;
use std::marker::Brand;

/// The text that means every class in an include list.
pub const EVERY_CLASS: &str = "*";

#[tactic(auto, unfolding(crate::specs::JobRecord::class_name_at))]
fn class_name(alloc: Global, tree: &Value) -> Result<String, JobError>
    ensures { Gives string_bytes result (class_name_at field.ExceptionClasses (view tree.now)) }
{
    let name = text(1, MAX_NAME, Field::ExceptionClasses, tree)?;
    if name == EVERY_CLASS {
        Err(JobError::OutOfRange(Field::ExceptionClasses))
    } else {
        Ok(String::from_str(alloc, name)?)
    }
}

/// Adds a name at the end, unless it is there.
fn add_name(names: &mut IndexSet<String>, name: String) -> Result<(), JobError>
    ensures added { OnOk result (map string_bytes names.new.keys ≡ with_name (map string_bytes names.old.keys) (string_bytes name)) }
    ensures memory { IfErr result (λ e. e ≡ Memory) }
    ensures len { OnOk result (length names.new.keys ≤ length names.old.keys + 1) }
{
    names.insert(name)?;
    Ok(())
}

/// The classes of at most 64 names, each once.
fn distinct_classes(alloc: Global, names: Vec<String>) -> Result<Classes, JobError>
    requires { length names.items ≤ max_classes }
    ensures classes { IfOk result (λ c. c ≡ distinct (map string_bytes names.items)) }
    ensures memory { IfErr result (λ e. e ≡ Memory) }
{
    let mut classes = IndexSet::new(alloc);
    for name in names {
        add_name(&mut classes, name)?;
    }
    Ok(Classes::new(classes))
}

/// The declared classes.
#[tactic(auto, unfolding(crate::specs::JobRecord::classes_at))]
pub fn class_list(alloc: Global, tree: &Value) -> Result<Classes, JobError>
    ensures { Gives (λ c. c) result (classes_at field.ExceptionClasses (view tree.now)) }
{
    let items = list(0, MAX_CLASSES, Field::ExceptionClasses, tree)?;
    let names = each::<Brand, String, _>(alloc, items, |_, tree| class_name(alloc, tree))?;
    distinct_classes(alloc, names)
}
