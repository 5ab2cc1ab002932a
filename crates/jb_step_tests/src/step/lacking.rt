//! A reducer that can be out of memory.

use crate::lines::{number, value};
use jb_base::{ArtifactError, ClassId};
use jb_collect::{ListReducer, PartitionStatus, Reducer, ReducerCall};
use std::alloc::Global;

/// A reducer that is out of memory for one of its calls, if one is named.
#[derive(Drop)]
pub(crate) struct Lacking {
    list: ListReducer,
    call: Option<ReducerCall>,
}

/// The call that is out of memory.
fn lacking_call(line: &str) -> Option<ReducerCall> {
    match value(line, "lacking")? {
        "begin" => Some(ReducerCall::Begin),
        "before" => Some(ReducerCall::Before),
        "rollback" => Some(ReducerCall::Rollback),
        "after-commit" => Some(ReducerCall::After(PartitionStatus::Commit)),
        "after-rollback" => Some(ReducerCall::After(PartitionStatus::Rollback)),
        _ => None,
    }
}

impl Lacking {
    /// The reducer of the line: the call of the number `fault`, the first being 0, is answered with a fault of class 3, and the call
    /// `lacking` is out of memory.
    pub(crate) fn told(alloc: Global, line: &str) -> Lacking {
        let fault = match number(line, "fault") {
            Some(number) => Some((number, ClassId::new(3))),
            None => None,
        };
        Lacking {
            list: ListReducer::new(alloc, fault),
            call: lacking_call(line),
        }
    }
}

impl Reducer for Lacking {
    ghost reduced = { λ r. ⟦<ListReducer as Reducer>⟧.reduced r.list };

    fn begin(&mut self) -> Result<(), ArtifactError> {
        if self.call == Some(ReducerCall::Begin) {
            return Err(ArtifactError::Memory);
        }
        self.list.begin()
    }

    fn before_completion(&mut self) -> Result<(), ArtifactError> {
        if self.call == Some(ReducerCall::Before) {
            return Err(ArtifactError::Memory);
        }
        self.list.before_completion()
    }

    fn rollback(&mut self) -> Result<(), ArtifactError> {
        if self.call == Some(ReducerCall::Rollback) {
            return Err(ArtifactError::Memory);
        }
        self.list.rollback()
    }

    fn after(&mut self, status: PartitionStatus) -> Result<(), ArtifactError> {
        if self.call == Some(ReducerCall::After(status)) {
            return Err(ArtifactError::Memory);
        }
        self.list.after(status)
    }

    fn calls(&self) -> &[ReducerCall] {
        self.list.calls()
    }
}
