//! A partition's artifacts in a box, with the memory of a chunk's results.

ghost use Rattle.std.specs.Prelude.{◌≡◌, IfOk};

use crate::partition_artifacts::PartitionArtifacts;
use jb_artifacts::{Item, Meaning, PackedResults, RowView};
use jb_base::ArtifactError;
use jb_rules::Row;
use std::alloc::{AllocError, Global};
use std::marker::Model;

/// What the box holds: the artifacts, and the memory that the results of the chunk before took.
#[derive(Drop)]
struct Held<A> {
    artifacts: A,
    results: Option<PackedResults>,
}

/// A partition's artifacts in a box, so that a task of them is as small as its row and rules are. The memory that a chunk's
/// results took stays with them for the next chunk. Contracts see the artifacts.
#[derive(Drop)]
pub struct BoxedArtifacts<A> {
    held: Box<Held<A>>,
}

impl<A> Model for BoxedArtifacts<A> {
    ghost Value = { A };

    ghost view = { λ boxed. boxed.held.value.artifacts };
}

impl<A: Drop> BoxedArtifacts<A> {
    /// These artifacts in a box.
    pub fn new(alloc: Global, artifacts: A) -> Result<BoxedArtifacts<A>, AllocError>
        ensures { IfOk result (λ boxed. boxed ≡ artifacts) }
    {
        let held = Box::new(
            alloc,
            Held {
                artifacts,
                results: None,
            },
        )?;
        Ok(BoxedArtifacts { held })
    }

    /// The artifacts, out of their box. The memory of results is let go.
    pub fn into_artifacts(self) -> A
        ensures { result ≡ self }
    {
        let Held { artifacts, .. } = Box::into_inner(self.held);
        artifacts
    }
}

impl<A> BoxedArtifacts<A> {
    /// The artifacts, lent.
    pub fn artifacts(&self) -> &A
        ensures { result.now ≡ self.now }
    {
        &self.held.artifacts
    }
}

impl<A: Meaning> Meaning for BoxedArtifacts<A> {
    ghost meaning = { λ boxed. A.meaning boxed };
}

impl<A: PartitionArtifacts<Results = PackedResults>> PartitionArtifacts for BoxedArtifacts<A> {
    type Record = A::Record;

    type Results = PackedResults;

    ghost bytes = { A.bytes };

    fn fit(&self, row: &Row) -> bool {
        self.held.artifacts.fit(row)
    }

    fn place(&self) -> u64 {
        self.held.artifacts.place()
    }

    fn count(&self) -> u64 {
        self.held.artifacts.count()
    }

    fn open_reader_at(&mut self, at: u64) {
        self.held.artifacts.open_reader_at(at);
    }

    fn open_writer_at(&mut self, count: u64) {
        self.held.artifacts.open_writer_at(count);
    }

    fn read_item(&mut self) -> Result<A::Record, ArtifactError> {
        self.held.artifacts.read_item()
    }

    fn process_item(
        &mut self,
        number: u64,
        item: &A::Record,
        results: &mut PackedResults,
    ) -> Result<bool, ArtifactError> {
        self.held.artifacts.process_item(number, item, results)
    }

    fn write_items(&mut self, results: &PackedResults) -> Result<(), ArtifactError> {
        self.held.artifacts.write_items(results)
    }

    fn collect(&self, view: &RowView) -> Result<Item, AllocError> {
        self.held.artifacts.collect(view)
    }

    fn take_results(&mut self, alloc: Global, number: u64) -> Result<PackedResults, AllocError> {
        match self.held.results.take() {
            Some(kept) => {
                let mut results = kept;
                results.clear();
                Ok(results)
            }
            None => self.held.artifacts.take_results(alloc, number),
        }
    }

    fn keep_results(&mut self, results: PackedResults) {
        self.held.results = Some(results);
    }
}
