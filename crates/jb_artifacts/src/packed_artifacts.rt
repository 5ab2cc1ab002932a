//! The artifacts of a partition, where a record is neither copied nor allocated on its way.

use crate::artifacts::{ArtifactsOf, Meaning};
use crate::interfaces::Collector;
use crate::lending_reader::LendingReader;
use crate::packed_writer::PackedWriter;
use crate::packing_processor::PackingProcessor;

/// The artifacts of a partition whose reader lends its records. The results of each of its chunks are in one buffer.
#[derive(Drop)]
pub struct PackedArtifacts<R, P, W, C> {
    pub inner: ArtifactsOf<R, P, W, C>,
}

impl<
    R: LendingReader + Drop,
    P: PackingProcessor + Drop,
    W: PackedWriter + Drop,
    C: Collector + Drop,
> Meaning for PackedArtifacts<R, P, W, C> {
    ghost meaning = { λ a. ⟦<ArtifactsOf<R, P, W, C> as Meaning>⟧.meaning a.inner };
}
