//! An analyzer that keeps the list of its calls.

ghost use Rattle.std.specs.Prelude.{◌≡◌, []};
ghost use Rattle.jb_collect.specs.Listed.{answered_calls_of};

use crate::call_list::CallList;
use crate::calls::{AnalyzerCall, Status};
use crate::interfaces::Analyzer;
use jb_artifacts::Item;
use jb_base::{ArtifactError, ClassId};
use std::alloc::Global;
use std::marker::Model;

/// An analyzer that keeps the list of its calls. A contract sees it, with the call that is to fail, if one is.
#[derive(Drop)]
pub struct ListAnalyzer {
    alloc: Global,
    list: CallList<AnalyzerCall>,
}

impl Model for ListAnalyzer {
    ghost use Rattle.jb_collect.specs.declared.calls.AnalyzerCall.{AnalyzerCall};
    ghost use Rattle.jb_collect.specs.Listed.{Listed};

    ghost Value = { Listed AnalyzerCall };

    ghost view = { λ analyzer. analyzer.list };
}

impl ListAnalyzer {
    /// An analyzer that has taken no call. With `fault`, the call of this number, the first being 0, is answered with a
    /// fault of this class; every other one is answered well, if there is memory. Takes no memory.
    pub fn new(alloc: Global, fault: Option<(u64, ClassId)>) -> ListAnalyzer
        ensures { result ≡ record { calls = []; fault = fault } }
    {
        ListAnalyzer {
            alloc,
            list: CallList::new(alloc, fault),
        }
    }
}

impl Analyzer for ListAnalyzer {
    ghost analyzed = { answered_calls_of };

    fn collected(&mut self, partition: u32, text: &[u8]) -> Result<(), ArtifactError> {
        let text = Item::copy_of(self.alloc, text)?;
        self.take_collected(partition, text)
    }

    fn take_collected(&mut self, partition: u32, text: Item) -> Result<(), ArtifactError> {
        self.list.take(AnalyzerCall::Collected(partition, text))
    }

    fn status(&mut self, partition: u32, status: Status) -> Result<(), ArtifactError> {
        self.list.take(AnalyzerCall::Status(partition, status))
    }

    fn calls(&self) -> &[AnalyzerCall] {
        self.list.as_slice()
    }
}
