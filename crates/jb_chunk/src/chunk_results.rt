//! The results of a chunk, from its processor to its writer.

ghost use Rattle.std.specs.Prelude.{◌≡◌, [], length, IfOk};
ghost use Rattle.jb_artifacts.specs.Writer.{Numbered};

use jb_artifacts::{Item, PackedResults};
use std::alloc::{AllocError, Global};

/// The bytes of each packed result for which there is room from the start.
const FIRST_BYTES: usize = 16;

/// The results of a chunk, each with its record's number.
pub trait ChunkResults: Drop {
    ghost pairs: { Self → Numbered };

    /// None, with room for so many.
    fn with_room(alloc: Global, results: u64) -> Result<Self, AllocError>
        ensures { IfOk result (λ made. pairs made ≡ []) };

    /// How many there are.
    fn count(&self) -> u64
        ensures { result ≡ length (pairs self.now) };
}

/// A chunk's results, each with its record's number, one by one.
#[derive(Drop)]
pub struct ItemResults {
    pub(crate) items: Vec<(u64, Item)>,
}

impl ChunkResults for ItemResults {
    ghost pairs = { λ results. results.items.items };

    fn with_room(alloc: Global, results: u64) -> Result<ItemResults, AllocError> {
        let items = Vec::with_capacity(alloc, results as usize)?;
        Ok(ItemResults { items })
    }

    fn count(&self) -> u64 {
        self.items.len() as u64
    }
}

impl ChunkResults for PackedResults {
    ghost pairs = { λ results. results };

    fn with_room(alloc: Global, results: u64) -> Result<PackedResults, AllocError> {
        let results = results as usize;
        PackedResults::with_room(alloc, results, results.saturating_mul(FIRST_BYTES))
    }

    fn count(&self) -> u64 {
        self.len() as u64
    }
}
