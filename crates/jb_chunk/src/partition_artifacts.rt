//! What a partition's task works with, call by call.

ghost use Rattle.std.specs.Prelude.{◌≡◌, ◌↔◌, ◌≤◌, ◌<◌, ◌++◌, [], List, ℕ, length, vec_len, vec_capacity, option_to_list, is_some, IsTrue, None, Some, Ok, Err, IfOk, IfErr, OnOk};
ghost use Rattle.jb_artifacts.specs.Answers.{IfFault, IfNoMemory};
ghost use Rattle.jb_artifacts.specs.Meaning.{Fits};
ghost use Rattle.jb_artifacts.specs.Processor.{process_fault, after_process};
ghost use Rattle.jb_artifacts.specs.Reader.{opened, reader_end, record_at, read_fault, after_read};
ghost use Rattle.jb_artifacts.specs.Writer.{cut, write_fault, after_write, torn_write};
ghost use Rattle.jb_chunk.specs.Entries.{numbered};

use crate::chunk_results::{ChunkResults, ItemResults};
use jb_artifacts::{
    ArtifactsOf, Collector, Item, ItemProcessor, ItemReader, ItemWriter, Meaning, RowView, fits_row,
};
use jb_base::ArtifactError;
use jb_rules::Row;
use std::alloc::{AllocError, Global};

/// A partition's reader, processor, writer and collector as one: those of known types or in boxes, `ArtifactsOf`; those
/// that lend their records, `PackedArtifacts`; and such in one box, `BoxedArtifacts`.
pub trait PartitionArtifacts: Meaning + Drop {
    /// What a read gives: the record's bytes, or nothing, if the reader keeps them and lends them.
    type Record: Drop;

    /// The results of a chunk.
    type Results: ChunkResults;

    // the bytes that a record means, if `own` are its reader's
    ghost bytes: { Self.Record → (own : List ℕ) → List ℕ };

    /// Whether the reader has the row's records, and the writer as many results as it committed.
    fn fit(&self, row: &Row) -> bool
        ensures { IsTrue result ↔ Fits (Self.meaning self.now) row.now };

    /// The number of the record that is read next.
    fn place(&self) -> u64
        ensures place { result ≡ (Self.meaning self.now).reader.place }
        ensures from { (Self.meaning self.now).reader.first ≤ result }
        ensures to { result ≤ reader_end (Self.meaning self.now).reader };

    /// How many results were written.
    fn count(&self) -> u64
        ensures { result ≡ length (Self.meaning self.now).writer.written };

    /// Opens the reader at the record of this number, or at the end.
    fn open_reader_at(&mut self, at: u64)
        requires from { (Self.meaning self.old).reader.first ≤ at }
        requires to { at ≤ reader_end (Self.meaning self.old).reader }
        ensures { let w = Self.meaning self.old in
            Self.meaning self.new ≡ record w { reader = opened w.reader at } };

    /// Cuts what is written back to its first `count` results.
    fn open_writer_at(&mut self, count: u64)
        requires { count ≤ length (Self.meaning self.old).writer.written }
        ensures { let w = Self.meaning self.old in
            Self.meaning self.new ≡ record w { writer = cut w.writer count } };

    /// Reads the next record.
    fn read_item(&mut self) -> Result<Self::Record, ArtifactError>
        requires { (Self.meaning self.old).reader.place < reader_end (Self.meaning self.old).reader }
        ensures answered { let w = Self.meaning self.old in
            let own = record_at w.reader w.reader.place in
            IfOk result (λ item. (read_fault w.reader ≡ None) × (bytes item own ≡ own)
            × (Self.meaning self.new ≡ record w { reader = after_read w.reader })) }
        ensures faulted { let w = Self.meaning self.old in
            IfFault result (λ class. (read_fault w.reader ≡ Some class) × (Self.meaning self.new ≡ record w { reader = after_read w.reader })) }
        ensures no_memory { IfNoMemory result (Self.meaning self.new ≡ Self.meaning self.old) };

    /// Processes an item, that of the record with this number. Its result, if it has one, is put after the others, and
    /// the answer says whether it has. After a fault, and without memory, the results are as they were.
    fn process_item(
        &mut self,
        number: u64,
        item: &Self::Record,
        results: &mut Self::Results,
    ) -> Result<bool, ArtifactError>
        ensures answered { let w = Self.meaning self.old in
            let answer = w.processor.answer number (bytes item.now (record_at w.reader number)) in
            IfOk result (λ found. (process_fault w.processor number ≡ None) × (found ≡ is_some answer)
            × (Self.meaning self.new ≡ record w { processor = after_process w.processor number })
            × (Self.Results.pairs results.new ≡ Self.Results.pairs results.old ++ option_to_list (numbered number answer))) }
        ensures faulted { let w = Self.meaning self.old in
            IfFault result (λ class. (process_fault w.processor number ≡ Some class)
            × (Self.meaning self.new ≡ record w { processor = after_process w.processor number })
            × (Self.Results.pairs results.new ≡ Self.Results.pairs results.old)) }
        ensures no_memory { IfNoMemory result ((Self.meaning self.new ≡ Self.meaning self.old)
            × (Self.Results.pairs results.new ≡ Self.Results.pairs results.old)) };

    /// Writes results, each with the number of its record.
    fn write_items(&mut self, results: &Self::Results) -> Result<(), ArtifactError>
        ensures written { let w = Self.meaning self.old in
            let found = Self.Results.pairs results.now in
            OnOk result ((write_fault w.writer found ≡ None)
            × (Self.meaning self.new ≡ record w { writer = after_write w.writer found })) }
        ensures faulted { let w = Self.meaning self.old in
            let found = Self.Results.pairs results.now in
            IfFault result (λ class. (write_fault w.writer found ≡ Some class)
            × (Self.meaning self.new ≡ record w { writer = after_write w.writer found })) }
        ensures no_memory { let w = Self.meaning self.old in
            let now = Self.meaning self.new in
            let found = Self.Results.pairs results.now in
            IfNoMemory result (now ≡ record w { writer = torn_write w.writer found (length now.writer.written) }) };

    /// The collector's text for this view.
    fn collect(&self, view: &RowView) -> Result<Item, AllocError>
        ensures { IfOk result (λ text. text ≡ (Self.meaning self.now).collector view.now) };

    /// No results, with room for so many if no results were stored before.
    fn take_results(&mut self, alloc: Global, number: u64) -> Result<Self::Results, AllocError>
        ensures none { IfOk result (λ results. Self.Results.pairs results ≡ []) }
        ensures same { Self.meaning self.new ≡ Self.meaning self.old }
    {
        Self::Results::with_room(alloc, number)
    }

    /// Takes the results of a chunk that has ended. Their memory may be stored for the next chunk.
    fn keep_results(&mut self, _results: Self::Results)
        ensures { Self.meaning self.new ≡ Self.meaning self.old }
    {}
}

/// Puts the result that a processor answered for the record of this number after the others, if there is one.
fn put_behind(
    number: u64,
    answer: Result<Option<Item>, ArtifactError>,
    results: &mut Vec<(u64, Item)>,
) -> Result<bool, ArtifactError>
    requires room { vec_len results.old < vec_capacity results.old }
    ensures answered { IfOk answer (λ text. (result ≡ Ok (is_some text)) × (results.new.items ≡ results.old.items ++ option_to_list (numbered number text))) }
    ensures refused { IfErr answer (λ error. (result ≡ Err error) × (results.new.items ≡ results.old.items)) }
{
    match answer {
        Ok(Some(text)) => {
            results.push_reserved((number, text));
            Ok(true)
        }
        Ok(None) => Ok(false),
        Err(error) => Err(error),
    }
}

impl<
    R: ItemReader + Drop,
    P: ItemProcessor + Drop,
    W: ItemWriter + Drop,
    C: Collector + Drop,
> PartitionArtifacts for ArtifactsOf<R, P, W, C> {
    type Record = Item;

    type Results = ItemResults;

    ghost bytes = { λ item own. item };

    fn fit(&self, row: &Row) -> bool {
        fits_row(
            row,
            self.reader.first(),
            self.reader.end(),
            self.writer.count(),
        )
    }

    fn place(&self) -> u64 {
        self.reader.place()
    }

    fn count(&self) -> u64 {
        self.writer.count()
    }

    fn open_reader_at(&mut self, at: u64) {
        self.reader.open_at(at);
    }

    fn open_writer_at(&mut self, count: u64) {
        self.writer.open_at(count);
    }

    fn read_item(&mut self) -> Result<Item, ArtifactError> {
        match self.reader.read_item() {
            Ok(Some(item)) => Ok(item),
            Ok(None) => unreachable!(),
            Err(error) => Err(error),
        }
    }

    fn process_item(
        &mut self,
        number: u64,
        item: &Item,
        results: &mut ItemResults,
    ) -> Result<bool, ArtifactError> {
        results.items.reserve(1)?;
        let answer = self.processor.process_item(number, item.as_slice());
        put_behind(number, answer, &mut results.items)
    }

    fn write_items(&mut self, results: &ItemResults) -> Result<(), ArtifactError> {
        self.writer.write_items(results.items.as_slice())
    }

    fn collect(&self, view: &RowView) -> Result<Item, AllocError> {
        self.collector.collect(view)
    }
}
