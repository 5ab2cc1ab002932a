//! Sets of fault classes.

ghost use Rattle.std.specs.Prelude.{◌≡◌, ◌≤◌, [], length};
ghost use Rattle.jb_base.specs.Limits.{max_classes};
ghost use Rattle.jb_ready.specs.Classes.{IsSetOf};
ghost use Rattle.jb_ready.specs.FaultClasses.{is_retried, is_skipped, set_by};

use crate::fault_class::{FaultClass, sets_of};
use jb_base::ClassId;
use std::marker::Model;

/// A set of fault classes, such as those that a step skips. `Rules` take its `bits`.
///
/// Contracts see the number that `Rules` take.
#[derive(Clone, Copy, Debug, PartialEq, Eq)]
pub struct Classes {
    bits: u64,
}

impl Model for Classes {
    ghost use Rattle.std.specs.Prelude.{ℕ};

    ghost Value = { ℕ };

    ghost view = { λ set. set.bits };

    ghost inverse = { λ bits. record { bits = bits } };
}

impl Classes {
    /// The set without any class.
    pub fn none() -> Classes
        ensures bits { result ≡ 0 }
        ensures set { IsSetOf result [] }
    {
        Classes { bits: 0 }
    }

    /// The set of these classes.
    pub fn of(classes: &[ClassId]) -> Classes
        ensures { IsSetOf result classes.now }
    {
        let mut bits = 0;
        for class in classes {
            bits |= class.bit();
        }
        Classes { bits }
    }

    /// Those of a job's classes that are skipped. The first of its list has the number 0.
    pub fn skipped(classes: &[FaultClass]) -> Classes
        requires { length classes.now ≤ max_classes }
        ensures { result ≡ set_by is_skipped classes.now }
    {
        let (bits, _) = sets_of(classes);
        Classes { bits }
    }

    /// Those of a job's classes that are retried.
    pub fn retried(classes: &[FaultClass]) -> Classes
        requires { length classes.now ≤ max_classes }
        ensures { result ≡ set_by is_retried classes.now }
    {
        let (_, bits) = sets_of(classes);
        Classes { bits }
    }

    /// The set as `Rules` take it: one bit for each class, `ClassId::bit`.
    pub fn bits(self) -> u64
        ensures { result ≡ self }
    {
        self.bits
    }
}
