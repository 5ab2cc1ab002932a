//! The classes of a job's faults, by name.

ghost use Rattle.std.specs.Prelude.{◌≡◌, ◌≤◌, ◌<◌, ◌^◌, length};
ghost use Rattle.jb_base.specs.Limits.{max_classes};
ghost use Rattle.jb_ready.specs.FaultClasses.{class_name, is_retried, is_skipped, set_by};

use jb_base::ClassId;

/// What a step does at a fault.
#[derive(Clone, Copy, Debug, PartialEq, Eq)]
pub enum Fate {
    /// The record's partition fails.
    Fails,
    /// The record is skipped.
    Skipped,
    /// The chunk is rolled back, and tried again.
    Retried,
}

/// A class of faults.
#[derive(Clone, Copy, Debug)]
pub struct FaultClass<'a> {
    /// What is said of a record with such a fault, as `no weight`.
    pub name: &'a str,
    /// What the step does at such a fault.
    pub fate: Fate,
}

/// The classes that are skipped, and those that are retried: sets with one bit for each class, the lowest for the first.
pub(crate) fn sets_of(classes: &[FaultClass]) -> (u64, u64)
    requires { length classes.now ≤ max_classes }
    ensures skipped { result.0 ≡ set_by is_skipped classes.now }
    ensures retried { result.1 ≡ set_by is_retried classes.now }
    ensures few_skipped { result.0 < 2 ^ length classes.now }
    ensures few_retried { result.1 < 2 ^ length classes.now }
{
    let Some((class, later)) = classes.split_first() else {
        return (0, 0);
    };
    let (skipped, retried) = sets_of(later);
    match class.fate {
        Fate::Fails => (2 * skipped, 2 * retried),
        Fate::Skipped => (2 * skipped + 1, 2 * retried),
        Fate::Retried => (2 * skipped, 2 * retried + 1),
    }
}

/// The name of a class.
pub fn name_of<'a>(classes: &[FaultClass<'a>], class: ClassId) -> &'a str
    ensures { result.now ≡ class_name classes.now class }
{
    let number = class.number() as usize;
    match classes.get(number) {
        Some(found) => found.name,
        None => "a class without a name",
    }
}
