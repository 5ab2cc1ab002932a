//! The results of a chunk, in one buffer.

ghost use Rattle.std.specs.Prelude.{◌≡◌, ◌<◌, ◌==◌, ◌++◌, ◌∷◌, [], length, IfOk, OnOk, OnErr, slice_index_or};
ghost use Rattle.jb_artifacts.specs.Writer.{texts_of};

use jb_base::PackedList;
use std::alloc::{AllocError, Global};
use std::marker::Model;

/// Results, each with the number of its record. A contract sees their list. One more result needs no separate allocation.
#[derive(Drop)]
pub struct PackedResults {
    numbers: Vec<u64>,
    texts: PackedList,
}

impl Model for PackedResults {
    ghost use Rattle.std.specs.Prelude.{◌≡◌, zip, length};
    ghost use Rattle.jb_artifacts.specs.Writer.{Numbered};

    ghost Value = { Numbered };

    ghost view = { λ results. zip results.numbers.items results.texts };

    ghost invariant = { λ results. length results.numbers.items ≡ length results.texts };
}

impl PackedResults {
    /// No results. Takes no memory.
    pub fn new(alloc: Global) -> PackedResults
        ensures { result ≡ [] }
    {
        PackedResults {
            numbers: Vec::new(alloc),
            texts: PackedList::new(alloc),
        }
    }

    /// No results, with room for exactly so many of so many bytes in all.
    pub fn with_room(
        alloc: Global,
        results: usize,
        bytes: usize,
    ) -> Result<PackedResults, AllocError>
        ensures { IfOk result (λ results. results ≡ []) }
    {
        let numbers = Vec::with_capacity(alloc, results)?;
        let texts = PackedList::with_room(alloc, results, bytes)?;
        Ok(PackedResults { numbers, texts })
    }

    /// How many results there are.
    pub fn len(&self) -> usize
        ensures { result ≡ length self.now }
    {
        self.numbers.len()
    }

    /// Whether there are no results.
    pub fn is_empty(&self) -> bool
        ensures { result ≡ (length self.now == 0) }
    {
        self.numbers.is_empty()
    }

    /// The number of the record whose result has this index.
    pub fn number(&self, index: usize) -> u64
        requires { index < length self.now }
        ensures { result ≡ (slice_index_or self.now index (0, [])).0 }
    {
        self.numbers[index]
    }

    /// The result of this index, the first being 0.
    pub fn text(&self, index: usize) -> &[u8]
        requires { index < length self.now }
        ensures { result.now ≡ (slice_index_or self.now index (0, [])).1 }
    {
        self.texts.at(index)
    }

    /// The results alone.
    pub fn texts(&self) -> &PackedList
        ensures { result.now ≡ texts_of self.now }
    {
        &self.texts
    }

    /// Appends the result of this record. If memory runs out, the results stay as they were.
    pub fn push(&mut self, number: u64, text: &[u8]) -> Result<(), AllocError>
        ensures ok { OnOk result (self.new ≡ self.old ++ (number, text.now) ∷ []) }
        ensures err { OnErr result (self.new ≡ self.old) }
    {
        self.numbers.reserve(1)?;
        self.texts.push(text)?;
        self.numbers.push_reserved(number);
        Ok(())
    }

    /// Appends one result of this record: the first part followed by the second. If memory runs out, the results stay as they were.
    pub fn push_joined(
        &mut self,
        number: u64,
        first: &[u8],
        second: &[u8],
    ) -> Result<(), AllocError>
        ensures ok { OnOk result (self.new ≡ self.old ++ (number, first.now ++ second.now) ∷ []) }
        ensures err { OnErr result (self.new ≡ self.old) }
    {
        self.numbers.reserve(1)?;
        self.texts.push_joined(first, second)?;
        self.numbers.push_reserved(number);
        Ok(())
    }

    /// Removes all results, and keeps their memory for the next ones.
    pub fn clear(&mut self)
        ensures { self.new ≡ [] }
    {
        self.numbers.clear();
        self.texts.truncate(0);
    }
}
