//! The artifacts of a partition.

ghost use Rattle.std.specs.Prelude.{◌↔◌, ◌≤◌, IsTrue};
ghost use Rattle.jb_artifacts.specs.Meaning.{ArtifactsMeaning, Fits};

use crate::interfaces::{Collector, ItemProcessor, ItemReader, ItemWriter};
use jb_rules::Row;

/// What a partition works with: its own reader, processor, writer and collector. A function that knows their types needs
/// no boxes, and neither do its proofs.
#[derive(Drop)]
pub struct ArtifactsOf<R, P, W, C> {
    pub reader: R,
    pub processor: P,
    pub writer: W,
    pub collector: C,
}

/// The artifacts of a partition in boxes, for types that are known only when the program runs.
pub type Artifacts = ArtifactsOf<
    Box<dyn ItemReader + Send + Drop>,
    Box<dyn ItemProcessor + Send + Drop>,
    Box<dyn ItemWriter + Send + Drop>,
    Box<dyn Collector + Send + Drop>,
>;

/// A value that represents the artifacts of a partition. Contract clauses name their meaning through it.
pub trait Meaning {
    ghost meaning: { Self → ArtifactsMeaning };
}

impl<
    R: ItemReader + Drop,
    P: ItemProcessor + Drop,
    W: ItemWriter + Drop,
    C: Collector + Drop,
> Meaning for ArtifactsOf<R, P, W, C> {
    ghost meaning = { λ a. record {
      reader = R.ItemReader.reader a.reader;
      processor = P.ItemProcessor.processor a.processor;
      writer = W.ItemWriter.writer a.writer;
      collector = C.Collector.collected a.collector;
    } };
}

impl Artifacts {
    /// Whether they fit this row: the reader has the row's records, and the writer has as many results as the row committed.
    pub fn fit(&self, row: &Row) -> bool
        ensures { let a = self.now in
            IsTrue result ↔ Fits (record {
              reader = (ItemReader-box a.reader).reader a.reader.value;
              processor = (ItemProcessor-box a.processor).processor a.processor.value;
              writer = (ItemWriter-box a.writer).writer a.writer.value;
              collector = (Collector-box a.collector).collected a.collector.value;
            }) row.now }
    {
        fits_row(
            row,
            self.reader.first(),
            self.reader.end(),
            self.writer.count(),
        )
    }
}

/// Whether a reader of the records from `first` to `end - 1` and a writer of `count` results fit this row.
pub fn fits_row(row: &Row, first: u64, end: u64, count: u64) -> bool
    ensures { IsTrue result ↔ (first ≤ row.now.lo) × (row.now.hi ≤ end) × (row.now.written ≤ count) }
{
    first <= row.lo && row.hi <= end && row.written <= count
}
