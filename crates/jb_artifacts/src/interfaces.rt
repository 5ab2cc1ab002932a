//! The interfaces of the artifacts of a chunk step, after Jakarta Batch 2.1 ("ItemReader", "ItemProcessor", "ItemWriter",
//! "Partition Collector"). What an artifact means is a ghost member of its interface. Each call answers by that meaning,
//! and its clause gives the meaning after the call.
//!
//! No function takes an allocator: an artifact has its own. This project's choices: a checkpoint is a record's number and
//! a count of results, and faults are planned for each record.
//!
//! A fault that the artifact's value doesn't determine, as one of a file or a database, has no answer here but `Memory`.
//! Read such input first, outside the step, and then serve it (docs/YOUR-JOB.md).
//!
//! A call that answered a fault may be repeated at once: a read after `open_at` of the same record, a process call with
//! the same item, a write of the same results after `open_at` of the count before it. It answers by the plan as it then
//! is.

ghost use Rattle.std.specs.Prelude.{◌≡◌, ◌≤◌, ◌<◌, ℕ, List, length, Some, None, slice_get, option_copied, IfOk, OnOk};
ghost use Rattle.jb_artifacts.specs.declared.view.RowView.{RowView};
ghost use Rattle.jb_artifacts.specs.Answers.{IfFault, IfNoMemory};
ghost use Rattle.jb_artifacts.specs.Reader.{Reader, reader_end, opened, record_at, read_fault, after_read};
ghost use Rattle.jb_artifacts.specs.Processor.{Processor, process_fault, after_process};
ghost use Rattle.jb_artifacts.specs.Writer.{Writer, cut, write_fault, after_write, torn_write};

use crate::item::Item;
use crate::view::RowView;
use jb_base::ArtifactError;
use std::alloc::AllocError;

/// A reader of records that are numbered from `first` to `end - 1`. Its place is the record that it reads next.
pub trait ItemReader: Send {
    ghost reader: { Self → Reader };

    /// The number of the first record.
    fn first(&self) -> u64
        ensures { result ≡ (reader self.now).first };

    /// The number after the last record's.
    fn end(&self) -> u64
        ensures { result ≡ reader_end (reader self.now) };

    /// The number of the record that is read next, or `end`.
    fn place(&self) -> u64
        ensures place { result ≡ (reader self.now).place }
        ensures from { (reader self.now).first ≤ result }
        ensures to { result ≤ reader_end (reader self.now) };

    /// Moves to the record of this number, or to the end.
    fn open_at(&mut self, at: u64)
        requires from { (reader self.old).first ≤ at }
        requires to { at ≤ reader_end (reader self.old) }
        ensures { reader self.new ≡ opened (reader self.old) at };

    /// The next record, or the fault of its plan; the reader passes the record in both cases. At the end the answer is
    /// None, and nothing changes. If memory runs out, nothing changes either.
    fn read_item(&mut self) -> Result<Option<Item>, ArtifactError>
        ensures ended { (reader self.old).place ≡ reader_end (reader self.old) → (result ≡ Ok None) × (reader self.new ≡ reader self.old) }
        ensures answered { let r = reader self.old in
            r.place < reader_end r → IfOk result (λ item. (read_fault r ≡ None) × (item ≡ Some (record_at r r.place)) × (reader self.new ≡ after_read r)) }
        ensures faulted { let r = reader self.old in
            r.place < reader_end r → IfFault result (λ class. (read_fault r ≡ Some class) × (reader self.new ≡ after_read r)) }
        ensures no_memory { IfNoMemory result (reader self.new ≡ reader self.old) };
}

/// A processor. It has one answer for each record's number and item: the result, or None, which filters the item.
pub trait ItemProcessor: Send {
    ghost processor: { Self → Processor };

    /// The answer for this item of this record, or the fault of the record's plan. If memory runs out, nothing changes.
    fn process_item(&mut self, number: u64, item: &[u8]) -> Result<Option<Item>, ArtifactError>
        ensures answered { let p = processor self.old in
            IfOk result (λ answer. (process_fault p number ≡ None) × (answer ≡ p.answer number item.now) × (processor self.new ≡ after_process p number)) }
        ensures faulted { let p = processor self.old in
            IfFault result (λ class. (process_fault p number ≡ Some class) × (processor self.new ≡ after_process p number)) }
        ensures no_memory { IfNoMemory result (processor self.new ≡ processor self.old) };
}

/// A writer of results. It has the list of those that were written.
pub trait ItemWriter: Send {
    ghost writer: { Self → Writer };

    /// How many results were written.
    fn count(&self) -> u64
        ensures { result ≡ length (writer self.now).written };

    /// Cuts the list to its first `count` results.
    fn open_at(&mut self, count: u64)
        requires { count ≤ length (writer self.old).written }
        ensures { writer self.new ≡ cut (writer self.old) count };

    /// Appends the results, each given with its record's number. If the plan of such a record has a fault, only the
    /// results before the first such record are appended, and that fault is answered. If memory runs out, some of the
    /// first results are appended, and no plan changes.
    fn write_items(&mut self, results: &[(u64, Item)]) -> Result<(), ArtifactError>
        ensures written { let w = writer self.old in
            OnOk result ((write_fault w results.now ≡ None) × (writer self.new ≡ after_write w results.now)) }
        ensures faulted { let w = writer self.old in
            IfFault result (λ class. (write_fault w results.now ≡ Some class) × (writer self.new ≡ after_write w results.now)) }
        ensures no_memory { let w = writer self.old in
            IfNoMemory result (writer self.new ≡ torn_write w results.now (length (writer self.new).written)) };

    /// The result at this place of the list, the first being 0, or None past its end.
    fn item_at(&self, i: u64) -> Option<&[u8]>
        ensures { option_copied result ≡ slice_get (writer self.now).written i };
}

/// A collector: it has one text for each view of a partition.
pub trait Collector: Send {
    ghost collected: { Self → RowView → List ℕ };

    /// The text for this view.
    fn collect(&self, view: &RowView) -> Result<Item, AllocError>
        ensures { IfOk result (λ text. text ≡ collected self.now view.now) };
}
