//! A processor that puts its results into one buffer.

ghost use Rattle.std.specs.Prelude.{◌≡◌, ◌++◌, None, Some, IfOk, is_some, option_to_list};
ghost use Rattle.jb_artifacts.specs.Answers.{IfFault, IfNoMemory};
ghost use Rattle.jb_artifacts.specs.Processor.{process_fault, after_process};
ghost use Rattle.jb_artifacts.specs.Writer.{numbered};

use crate::interfaces::ItemProcessor;
use crate::packed_results::PackedResults;
use jb_base::ArtifactError;

/// A processor that needs no allocation for a result.
pub trait PackingProcessor: ItemProcessor {
    /// Processes the item as `process_item` does, and appends the result: true, or false if the item is filtered. After a
    /// fault, or if memory runs out, the results are as they were.
    fn pack_item(
        &mut self,
        number: u64,
        item: &[u8],
        results: &mut PackedResults,
    ) -> Result<bool, ArtifactError>
        ensures answered { let p = Self.processor self.old in
            let answer = p.answer number item.now in
            IfOk result (λ found. (process_fault p number ≡ None) × (found ≡ is_some answer)
            × (Self.processor self.new ≡ after_process p number)
            × (results.new ≡ results.old ++ option_to_list (numbered number answer))) }
        ensures faulted { let p = Self.processor self.old in
            IfFault result (λ class. (process_fault p number ≡ Some class) × (Self.processor self.new ≡ after_process p number)
            × (results.new ≡ results.old)) }
        ensures no_memory { IfNoMemory result ((Self.processor self.new ≡ Self.processor self.old) × (results.new ≡ results.old)) };
}
