//! When the calls of an artifact for one record fail.

ghost use Rattle.std.specs.Prelude.{◌≡◌};
ghost use Rattle.jb_artifacts.specs.Faults.{live, used};

use jb_base::ClassId;
use std::collections::VecDeque;
use std::marker::Model;

/// Classes of faults, the next one first. A contract sees their list.
#[derive(Drop)]
pub struct FaultList {
    classes: VecDeque<ClassId>,
}

impl Model for FaultList {
    ghost use Rattle.std.specs.Prelude.{List};
    ghost use Rattle.jb_base.specs.declared.class.ClassId.{ClassId};

    ghost Value = { List ClassId };

    ghost view = { λ list. list.classes.items };
}

impl FaultList {
    /// Takes no memory.
    pub fn from_vec(classes: Vec<ClassId>) -> FaultList
        ensures { result ≡ classes.items }
    {
        FaultList {
            classes: VecDeque::from(classes),
        }
    }
}

/// When an artifact's calls for a record fail.
#[derive(Drop)]
pub enum FaultPlan {
    /// Never.
    Sound,
    /// At each call, with this class.
    Bad(ClassId),
    /// Once with each class of the list, in its order, and then never.
    Shaky(FaultList),
}

impl FaultPlan {
    /// The class with which the next call fails, if it does.
    pub fn live(&self) -> Option<ClassId>
        ensures { result ≡ live self.now }
    {
        match self {
            FaultPlan::Sound => None,
            FaultPlan::Bad(class) => Some(*class),
            FaultPlan::Shaky(list) => list.classes.front().copied(),
        }
    }

    /// The class with which this call fails, if it does. A shaky plan then moves to its next class.
    pub fn strike(&mut self) -> Option<ClassId>
        ensures class { result ≡ live self.old }
        ensures plan { self.new ≡ used self.old }
    {
        match self {
            FaultPlan::Sound => None,
            FaultPlan::Bad(class) => Some(*class),
            FaultPlan::Shaky(list) => list.classes.pop_front(),
        }
    }
}
