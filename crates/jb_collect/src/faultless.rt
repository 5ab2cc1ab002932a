//! An analyzer and a reducer that keep the list of their calls, and never fail.

ghost use Rattle.std.specs.Prelude.{◌≡◌, [], map};
ghost use Rattle.jb_collect.specs.AnsweredCalls.{well};

use crate::calls::{AnalyzerCall, PartitionStatus, ReducerCall, Status};
use crate::interfaces::{Analyzer, Reducer};
use jb_artifacts::Item;
use jb_base::ArtifactError;
use std::alloc::Global;
use std::marker::Model;

/// An analyzer that keeps the list of its calls, and answers each well. Contracts see the list.
#[derive(Drop)]
pub struct FaultlessAnalyzer {
    alloc: Global,
    calls: Vec<AnalyzerCall>,
}

impl Model for FaultlessAnalyzer {
    ghost use Rattle.std.specs.Prelude.{List};
    ghost use Rattle.jb_collect.specs.declared.calls.AnalyzerCall.{AnalyzerCall};

    ghost Value = { List AnalyzerCall };

    ghost view = { λ analyzer. analyzer.calls.items };
}

impl FaultlessAnalyzer {
    /// An analyzer that has heard nothing.
    pub fn new(alloc: Global) -> FaultlessAnalyzer
        ensures { result ≡ [] }
    {
        FaultlessAnalyzer {
            alloc,
            calls: Vec::new(alloc),
        }
    }
}

impl Analyzer for FaultlessAnalyzer {
    ghost analyzed = { λ calls. map well calls };

    fn collected(&mut self, partition: u32, text: &[u8]) -> Result<(), ArtifactError> {
        let text = Item::copy_of(self.alloc, text)?;
        self.take_collected(partition, text)
    }

    fn take_collected(&mut self, partition: u32, text: Item) -> Result<(), ArtifactError> {
        self.calls.push(AnalyzerCall::Collected(partition, text))?;
        Ok(())
    }

    fn status(&mut self, partition: u32, status: Status) -> Result<(), ArtifactError> {
        self.calls.push(AnalyzerCall::Status(partition, status))?;
        Ok(())
    }

    fn calls(&self) -> &[AnalyzerCall] {
        self.calls.as_slice()
    }
}

/// A reducer that keeps the list of its calls, and answers each well. Contracts see the list.
#[derive(Drop)]
pub struct FaultlessReducer {
    calls: Vec<ReducerCall>,
}

impl Model for FaultlessReducer {
    ghost use Rattle.std.specs.Prelude.{List};
    ghost use Rattle.jb_collect.specs.declared.calls.ReducerCall.{ReducerCall};

    ghost Value = { List ReducerCall };

    ghost view = { λ reducer. reducer.calls.items };
}

impl FaultlessReducer {
    /// A reducer that was called with nothing.
    pub fn new(alloc: Global) -> FaultlessReducer
        ensures { result ≡ [] }
    {
        FaultlessReducer {
            calls: Vec::new(alloc),
        }
    }
}

impl Reducer for FaultlessReducer {
    ghost reduced = { λ calls. map well calls };

    fn begin(&mut self) -> Result<(), ArtifactError> {
        self.calls.push(ReducerCall::Begin)?;
        Ok(())
    }

    fn before_completion(&mut self) -> Result<(), ArtifactError> {
        self.calls.push(ReducerCall::Before)?;
        Ok(())
    }

    fn rollback(&mut self) -> Result<(), ArtifactError> {
        self.calls.push(ReducerCall::Rollback)?;
        Ok(())
    }

    fn after(&mut self, status: PartitionStatus) -> Result<(), ArtifactError> {
        self.calls.push(ReducerCall::After(status))?;
        Ok(())
    }

    fn calls(&self) -> &[ReducerCall] {
        self.calls.as_slice()
    }
}
