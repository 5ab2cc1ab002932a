//! A writer that takes a chunk's results from one buffer.

ghost use Rattle.std.specs.Prelude.{◌≡◌, length, None, Some, OnOk};
ghost use Rattle.jb_artifacts.specs.Answers.{IfFault, IfNoMemory};
ghost use Rattle.jb_artifacts.specs.Writer.{write_fault, after_write, torn_write};

use crate::interfaces::ItemWriter;
use crate::packed_results::PackedResults;
use jb_base::ArtifactError;

/// A writer of packed results.
pub trait PackedWriter: ItemWriter {
    /// Appends the results as `write_items` does. They are lent, so the write can be repeated.
    fn write_packed(&mut self, results: &PackedResults) -> Result<(), ArtifactError>
        ensures written { let w = Self.writer self.old in
            OnOk result ((write_fault w results.now ≡ None) × (Self.writer self.new ≡ after_write w results.now)) }
        ensures faulted { let w = Self.writer self.old in
            IfFault result (λ class. (write_fault w results.now ≡ Some class) × (Self.writer self.new ≡ after_write w results.now)) }
        ensures no_memory { let w = Self.writer self.old in
            IfNoMemory result (Self.writer self.new ≡ torn_write w results.now (length (Self.writer self.new).written)) };
}
