//! Artifacts that count and note their calls: a record is handed over, or lent and its result packed.

ghost use Rattle.std.specs.Prelude.{◌≡◌};

use jb_artifacts::{
    ArtifactsOf, Collector, CountCollector, Item, ItemProcessor, ItemReader, ItemWriter,
    LendingReader, ListWriter, PackedResults, PackedWriter, PackingProcessor, PrefixProcessor,
    RowView, TableReader,
};
use jb_base::ArtifactError;
use jb_rules::Row;
use std::alloc::{AllocError, Global};
use std::sync::Arc;
use std::sync::atomic::{AtomicU64, Ordering};

/// How often reader, processor, writer and collector were called since this was asked last, and how often a record was lent.
#[derive(Drop)]
pub(super) struct Calls {
    reads: AtomicU64,
    processes: AtomicU64,
    writes: AtomicU64,
    collects: AtomicU64,
    lends: AtomicU64,
}

/// The calls of artifacts that work on the same partition.
pub(super) type AllCalls = Arc<Calls, Global>;

fn count(made: &AtomicU64) {
    made.fetch_add(1, Ordering::SeqCst);
}

fn taken(made: &AtomicU64) -> u64 {
    made.swap(0, Ordering::SeqCst)
}

impl Calls {
    pub(super) fn new(alloc: Global) -> Result<AllCalls, AllocError> {
        let calls = Calls {
            reads: AtomicU64::new(0),
            processes: AtomicU64::new(0),
            writes: AtomicU64::new(0),
            collects: AtomicU64::new(0),
            lends: AtomicU64::new(0),
        };
        Ok(Arc::new(alloc, calls)?)
    }

    /// How often a record was lent.
    pub(super) fn lent(&self) -> u64 {
        taken(&self.lends)
    }

    /// A line of an attempt that ended so and left this row: the calls in it, of reader, processor, writer and collector, and
    /// the place of the row.
    pub(super) fn line(&self, alloc: Global, end: &str, row: &Row) -> Result<String, AllocError> {
        let reads = taken(&self.reads);
        let processes = taken(&self.processes);
        let writes = taken(&self.writes);
        let collects = taken(&self.collects);
        let at = row.at;
        let written = row.written;
        format!(in alloc;
            "{end} {reads} {processes} {writes} {collects} at {at}, {written} written\n"
        )
    }
}

/// Calls that were made. Of a reader or a writer: `o`, opened at this place; `r`, to read the record of this number; and `w`, to write so
/// many results. Of a processor: the letter with which the item begins, and the number of its record.
pub(super) type Noted = Vec<(char, u64)>;

/// Notes a call, where there is memory.
fn note(noted: &mut Noted, call: char, number: u64) {
    let _unnoted = noted.push((call, number));
}

#[derive(Drop)]
pub(super) struct CountedReader {
    pub(super) table: TableReader,
    pub(super) calls: AllCalls,
    pub(super) noted: Noted,
}

impl ItemReader for CountedReader {
    ghost reader = { λ r. ⟦<TableReader as ItemReader>⟧.reader r.table };

    fn first(&self) -> u64 {
        self.table.first()
    }

    fn end(&self) -> u64 {
        self.table.end()
    }

    fn place(&self) -> u64 {
        self.table.place()
    }

    fn open_at(&mut self, at: u64) {
        note(&mut self.noted, 'o', at);
        self.table.open_at(at);
    }

    fn read_item(&mut self) -> Result<Option<Item>, ArtifactError> {
        count(&self.calls.reads);
        note(&mut self.noted, 'r', self.table.place());
        self.table.read_item()
    }
}

impl LendingReader for CountedReader {
    fn pass_item(&mut self) -> Result<(), ArtifactError> {
        count(&self.calls.reads);
        note(&mut self.noted, 'r', self.table.place());
        self.table.pass_item()
    }

    fn record(&self, number: u64) -> &[u8] {
        count(&self.calls.lends);
        self.table.record(number)
    }
}

/// A processor that finds no memory for one call at record `forgets`.
#[derive(Drop)]
pub(super) struct CountedProcessor {
    pub(super) prefixer: PrefixProcessor,
    pub(super) forgets: Option<u64>,
    pub(super) calls: AllCalls,
    pub(super) noted: Noted,
}

impl CountedProcessor {
    /// Counts and notes a call, and answers whether it finds memory.
    fn finds_memory(&mut self, number: u64, item: &[u8]) -> bool
        ensures { self.new.prefixer ≡ self.old.prefixer }
    {
        count(&self.calls.processes);
        let letter = item.first().map_or(' ', |letter| char::from(*letter));
        note(&mut self.noted, letter, number);
        if self.forgets != Some(number) {
            return true;
        }
        self.forgets = None;
        false
    }
}

impl ItemProcessor for CountedProcessor {
    ghost processor = { λ p. ⟦<PrefixProcessor as ItemProcessor>⟧.processor p.prefixer };

    fn process_item(&mut self, number: u64, item: &[u8]) -> Result<Option<Item>, ArtifactError> {
        if !self.finds_memory(number, item) {
            return Err(ArtifactError::Memory);
        }
        self.prefixer.process_item(number, item)
    }
}

impl PackingProcessor for CountedProcessor {
    fn pack_item(
        &mut self,
        number: u64,
        item: &[u8],
        results: &mut PackedResults,
    ) -> Result<bool, ArtifactError> {
        if !self.finds_memory(number, item) {
            return Err(ArtifactError::Memory);
        }
        self.prefixer.pack_item(number, item, results)
    }
}

#[derive(Drop)]
pub(super) struct CountedWriter {
    pub(super) list: ListWriter,
    pub(super) calls: AllCalls,
    pub(super) noted: Noted,
}

impl ItemWriter for CountedWriter {
    ghost writer = { λ w. ⟦<ListWriter as ItemWriter>⟧.writer w.list };

    fn count(&self) -> u64 {
        self.list.count()
    }

    fn open_at(&mut self, count: u64) {
        note(&mut self.noted, 'o', count);
        self.list.open_at(count);
    }

    fn write_items(&mut self, results: &[(u64, Item)]) -> Result<(), ArtifactError> {
        count(&self.calls.writes);
        note(&mut self.noted, 'w', results.len() as u64);
        self.list.write_items(results)
    }

    fn item_at(&self, i: u64) -> Option<&[u8]> {
        self.list.item_at(i)
    }
}

impl PackedWriter for CountedWriter {
    fn write_packed(&mut self, results: &PackedResults) -> Result<(), ArtifactError> {
        count(&self.calls.writes);
        note(&mut self.noted, 'w', results.len() as u64);
        self.list.write_packed(results)
    }
}

#[derive(Drop)]
pub(super) struct CountedCollector {
    pub(super) counter: CountCollector,
    pub(super) calls: AllCalls,
}

impl Collector for CountedCollector {
    ghost collected = { λ c. ⟦<CountCollector as Collector>⟧.collected c.counter };

    fn collect(&self, view: &RowView) -> Result<Item, AllocError> {
        count(&self.calls.collects);
        self.counter.collect(view)
    }
}

pub(super) type Counting = ArtifactsOf<
    CountedReader,
    CountedProcessor,
    CountedWriter,
    CountedCollector,
>;
