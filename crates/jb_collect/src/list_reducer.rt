//! A reducer that keeps the list of its calls.

ghost use Rattle.std.specs.Prelude.{◌≡◌, []};
ghost use Rattle.jb_collect.specs.Listed.{answered_calls_of};

use crate::call_list::CallList;
use crate::calls::{PartitionStatus, ReducerCall};
use crate::interfaces::Reducer;
use jb_base::{ArtifactError, ClassId};
use std::alloc::Global;
use std::marker::Model;

/// A reducer that keeps the list of its calls. A contract sees it, with the call that is to fail, if one is.
#[derive(Drop)]
pub struct ListReducer {
    list: CallList<ReducerCall>,
}

impl Model for ListReducer {
    ghost use Rattle.jb_collect.specs.declared.calls.ReducerCall.{ReducerCall};
    ghost use Rattle.jb_collect.specs.Listed.{Listed};

    ghost Value = { Listed ReducerCall };

    ghost view = { λ reducer. reducer.list };
}

impl ListReducer {
    /// A reducer that has taken no call. With `fault`, the call of this number, the first being 0, is answered with a
    /// fault of this class; every other one is answered well, if there is memory. Takes no memory.
    pub fn new(alloc: Global, fault: Option<(u64, ClassId)>) -> ListReducer
        ensures { result ≡ record { calls = []; fault = fault } }
    {
        ListReducer {
            list: CallList::new(alloc, fault),
        }
    }
}

impl Reducer for ListReducer {
    ghost reduced = { answered_calls_of };

    fn begin(&mut self) -> Result<(), ArtifactError> {
        self.list.take(ReducerCall::Begin)
    }

    fn before_completion(&mut self) -> Result<(), ArtifactError> {
        self.list.take(ReducerCall::Before)
    }

    fn rollback(&mut self) -> Result<(), ArtifactError> {
        self.list.take(ReducerCall::Rollback)
    }

    fn after(&mut self, status: PartitionStatus) -> Result<(), ArtifactError> {
        self.list.take(ReducerCall::After(status))
    }

    fn calls(&self) -> &[ReducerCall] {
        self.list.as_slice()
    }
}
