//! The interfaces of a partition analyzer and a partition reducer, after Jakarta Batch 2.1. What such an object means is
//! the list of the calls that it took, each with the fault that it answered, if it did. A call that is answered with
//! out of memory is not taken, and changes nothing.
//!
//! No function takes an allocator: an object has its own.

ghost use Rattle.std.specs.Prelude.{◌≡◌, List};
ghost use Rattle.jb_collect.specs.declared.calls.AnalyzerCall.{AnalyzerCall};
ghost use Rattle.jb_collect.specs.declared.calls.AnalyzerCall.TheVariants as analyzer;
ghost use Rattle.jb_collect.specs.declared.calls.ReducerCall.{ReducerCall};
ghost use Rattle.jb_collect.specs.declared.calls.ReducerCall.TheVariants as reducer;
ghost use Rattle.jb_collect.specs.AnsweredCalls.{AnsweredCall, TakesCall, calls_of};

use crate::calls::{AnalyzerCall, PartitionStatus, ReducerCall, Status};
use jb_artifacts::Item;
use jb_base::ArtifactError;

/// A partition analyzer: it hears what the partitions collected and how they ended.
pub trait Analyzer {
    ghost analyzed: { Self → List (AnsweredCall AnalyzerCall) };

    /// A text of this partition's collector.
    fn collected(&mut self, partition: u32, text: &[u8]) -> Result<(), ArtifactError>
        ensures { TakesCall (analyzed self.old) (analyzer.Collected partition text.now) result (analyzed self.new) };

    /// The same call, but the text is handed over: an analyzer that stores it needs no copy.
    fn take_collected(&mut self, partition: u32, text: Item) -> Result<(), ArtifactError>
        ensures { TakesCall (analyzed self.old) (analyzer.Collected partition text) result (analyzed self.new) }
    {
        self.collected(partition, text.as_slice())
    }

    /// How this partition ended, or that a stop left it unfinished.
    fn status(&mut self, partition: u32, status: Status) -> Result<(), ArtifactError>
        ensures { TakesCall (analyzed self.old) (analyzer.Status partition status) result (analyzed self.new) };

    /// The calls that it took, the first one first.
    fn calls(&self) -> &[AnalyzerCall]
        ensures { result.now ≡ calls_of (analyzed self.now) };
}

/// A partition reducer: it hears that the step begins and how it ends.
pub trait Reducer {
    ghost reduced: { Self → List (AnsweredCall ReducerCall) };

    /// The step begins; it has no partition yet.
    fn begin(&mut self) -> Result<(), ArtifactError>
        ensures { TakesCall (reduced self.old) reducer.Begin result (reduced self.new) };

    /// All partitions are completed.
    fn before_completion(&mut self) -> Result<(), ArtifactError>
        ensures { TakesCall (reduced self.old) reducer.Before result (reduced self.new) };

    /// The step is rolled back.
    fn rollback(&mut self) -> Result<(), ArtifactError>
        ensures { TakesCall (reduced self.old) reducer.Rollback result (reduced self.new) };

    /// The step has ended.
    fn after(&mut self, status: PartitionStatus) -> Result<(), ArtifactError>
        ensures { TakesCall (reduced self.old) (reducer.After status) result (reduced self.new) };

    /// The calls that it took, the first one first.
    fn calls(&self) -> &[ReducerCall]
        ensures { result.now ≡ calls_of (reduced self.now) };
}
