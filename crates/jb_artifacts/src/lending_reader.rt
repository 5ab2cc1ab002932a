//! A reader that lends its records.

ghost use Rattle.std.specs.Prelude.{◌≡◌, ◌<◌, ◌-◌, [], None, Some, OnOk, slice_index_or};
ghost use Rattle.jb_artifacts.specs.Answers.{IfFault, IfNoMemory};
ghost use Rattle.jb_artifacts.specs.Reader.{reader_end, record_at, read_fault, after_read};

use crate::interfaces::ItemReader;
use jb_base::{ArtifactError, PackedList};

/// A reader that holds its records, so that a read need not copy them.
pub trait LendingReader: ItemReader {
    /// Reads the next record as `read_item` does, but the record stays where it is: `record` lends it.
    fn pass_item(&mut self) -> Result<(), ArtifactError>
        requires { (Self.reader self.old).place < reader_end (Self.reader self.old) }
        ensures answered { let r = Self.reader self.old in
            OnOk result ((read_fault r ≡ None) × (Self.reader self.new ≡ after_read r)) }
        ensures faulted { let r = Self.reader self.old in
            IfFault result (λ class. (read_fault r ≡ Some class) × (Self.reader self.new ≡ after_read r)) }
        ensures no_memory { IfNoMemory result (Self.reader self.new ≡ Self.reader self.old) };

    /// The record of this number. Past the end it is an empty one, and before the first it is the first.
    fn record(&self, number: u64) -> &[u8]
        ensures { result.now ≡ record_at (Self.reader self.now) number };
}

/// The record of this number in a table whose first record has the number `first`. Past the end it is an empty one, and
/// before the first it is the first.
pub fn record_of(records: &PackedList, first: u64, number: u64) -> &[u8]
    ensures { result.now ≡ slice_index_or records.now (number - first) [] }
{
    let index = number.saturating_sub(first) as usize;
    match records.get(index) {
        Some(record) => record,
        None => &[],
    }
}
