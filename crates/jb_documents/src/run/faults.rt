//! The faults that a document plans for the artifacts of a step.

ghost use Rattle.std.specs.Prelude.{◌≡◌, []};
ghost use Rattle.jb_documents.specs.FaultOrder.{AreFaultsInOrder};

use jb_base::{ClassId, Listed};
use std::alloc::Global;
use std::marker::Model;

/// Fault classes, in order.
pub type ClassIds = Listed<ClassId>;

/// How the calls for a record fail.
#[derive(Drop)]
pub enum FaultKind {
    /// Each call fails with this class.
    Bad(ClassId),
    /// One call fails for each of these classes, in order.
    Shaky(ClassIds),
}

/// The fault that is planned for a record.
#[derive(Drop)]
pub struct PlannedFault {
    /// The record's number, from 0.
    pub number: u64,
    pub kind: FaultKind,
}

/// The faults of an artifact, by rising number of their records. Contracts see the list; `as_slice` says that the numbers rise.
#[derive(Drop)]
pub struct PlannedFaults {
    faults: Vec<PlannedFault>,
}

impl Model for PlannedFaults {
    ghost use Rattle.std.specs.Prelude.{List};
    ghost use Rattle.jb_documents.specs.declared.run.faults.PlannedFault.{PlannedFault};
    ghost use Rattle.jb_documents.specs.FaultOrder.{AreFaultsInOrder};

    ghost Value = { List PlannedFault };

    ghost view = { λ r. r.faults.items };

    ghost invariant = { λ r. AreFaultsInOrder r.faults.items };
}

impl PlannedFaults {
    pub(crate) fn new(faults: Vec<PlannedFault>) -> PlannedFaults
        requires { AreFaultsInOrder faults.items }
        ensures { result ≡ faults.items }
    {
        PlannedFaults { faults }
    }

    /// The faults, by rising record.
    pub fn as_slice(&self) -> &[PlannedFault]
        ensures faults { result.now ≡ self.now }
        ensures order { AreFaultsInOrder result.now }
    {
        self.faults.as_slice()
    }
}

/// The faults of a step's reader, processor and writer.
#[derive(Drop)]
pub struct StepFaults {
    pub read: PlannedFaults,
    pub process: PlannedFaults,
    pub write: PlannedFaults,
}

impl StepFaults {
    /// No fault at all.
    pub fn none(alloc: Global) -> StepFaults
        ensures { result ≡ record { read = []; process = []; write = [] } }
    {
        StepFaults {
            read: PlannedFaults::new(Vec::new(alloc)),
            process: PlannedFaults::new(Vec::new(alloc)),
            write: PlannedFaults::new(Vec::new(alloc)),
        }
    }
}
