//! The calls of a chunk at artifacts that lend their records and pack their results.

use crate::chunk_results::ChunkResults;
use crate::partition_artifacts::PartitionArtifacts;
use jb_artifacts::{
    Collector, Item, LendingReader, Meaning, PackedArtifacts, PackedResults, PackedWriter,
    PackingProcessor, RowView,
};
use jb_base::ArtifactError;
use jb_rules::Row;
use std::alloc::AllocError;

impl<
    R: LendingReader + Drop,
    P: PackingProcessor + Drop,
    W: PackedWriter + Drop,
    C: Collector + Drop,
> PartitionArtifacts for PackedArtifacts<R, P, W, C> {
    type Record = ();

    type Results = PackedResults;

    ghost bytes = { λ item own. own };

    fn fit(&self, row: &Row) -> bool {
        self.inner.fit(row)
    }

    fn place(&self) -> u64 {
        self.inner.place()
    }

    fn count(&self) -> u64 {
        self.inner.count()
    }

    fn open_reader_at(&mut self, at: u64) {
        self.inner.open_reader_at(at);
    }

    fn open_writer_at(&mut self, count: u64) {
        self.inner.open_writer_at(count);
    }

    fn read_item(&mut self) -> Result<(), ArtifactError> {
        self.inner.reader.pass_item()
    }

    fn process_item(
        &mut self,
        number: u64,
        _item: &(),
        results: &mut PackedResults,
    ) -> Result<bool, ArtifactError> {
        let record = self.inner.reader.record(number);
        self.inner.processor.pack_item(number, record, results)
    }

    fn write_items(&mut self, results: &PackedResults) -> Result<(), ArtifactError> {
        self.inner.writer.write_packed(results)
    }

    fn collect(&self, view: &RowView) -> Result<Item, AllocError> {
        self.inner.collect(view)
    }
}
