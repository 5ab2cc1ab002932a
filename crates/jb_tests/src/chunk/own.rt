//! A user's own reader, processor, writer and collector, none of them a ready one, run alone.

ghost use Rattle.std.specs.Prelude.{◌≤◌, ◌++◌, ◌∷◌, [], map, vec_len, Some, codes};
ghost use Rattle.jb_artifacts.specs.declared.faults.FaultPlan.TheVariants.{Sound};
ghost use Rattle.jb_artifacts.specs.Writer.{Writer, Appends};

use jb_artifacts::{ArtifactsOf, Collector, Item, ItemProcessor, ItemReader, ItemWriter, RowView};
use jb_base::{ArtifactError, Range, Rules};
use jb_chunk::{AloneEnd, PartitionTask, Task, run_alone};
use jb_rules::{Row, RowState};
use std::alloc::{AllocError, Global};
use std::test::*;

/// A reader of the letters of a text: each record is one byte, and the first has the number 0.
#[derive(Drop)]
struct Letters {
    alloc: Global,
    text: Vec<u8>,
    place: u64,
    ghost within: { place ≤ vec_len text },
}

impl ItemReader for Letters {
    ghost reader = { λ l. record { first = 0; records = map (λ letter. letter ∷ []) l.text.items; place = l.place; faults = λ _. Sound } };

    fn first(&self) -> u64 {
        0
    }

    fn end(&self) -> u64 {
        self.text.len() as u64
    }

    fn place(&self) -> u64 {
        self.place
    }

    fn open_at(&mut self, at: u64) {
        self.place = at;
    }

    fn read_item(&mut self) -> Result<Option<Item>, ArtifactError> {
        let index = self.place as usize;
        if index >= self.text.len() {
            return Ok(None);
        }
        let record = Item::copy_of(self.alloc, &[self.text[index]])?;
        self.place += 1;
        Ok(Some(record))
    }
}

/// A processor whose result is the item twice.
#[derive(Drop)]
struct Doubler {
    alloc: Global,
}

impl ItemProcessor for Doubler {
    ghost processor = { λ _. record { answer = λ _ item. Some (item ++ item); faults = λ _. Sound } };

    fn process_item(&mut self, _number: u64, item: &[u8]) -> Result<Option<Item>, ArtifactError> {
        let mut bytes = Vec::from_slice(self.alloc, item)?;
        bytes.extend_from_slice(item)?;
        Ok(Some(Item::from_vec(bytes)))
    }
}

/// A writer that holds its results in a list.
#[derive(Drop)]
struct Journal {
    alloc: Global,
    lines: Vec<Item>,
}

impl Journal {
    /// Appends a copy of one result. Where there is no memory, nothing changes.
    fn append(&mut self, number: u64, line: &Item) -> Result<(), ArtifactError>
        ensures { let old : Writer = record { written = self.old.lines.items; faults = λ _. Sound } in
            Appends result number line.now old (record { written = self.new.lines.items; faults = λ _. Sound }) }
    {
        let copy = Item::copy_of(self.alloc, line.as_slice())?;
        self.lines.push(copy)?;
        Ok(())
    }
}

impl ItemWriter for Journal {
    ghost writer = { λ j. record { written = j.lines.items; faults = λ _. Sound } };

    fn count(&self) -> u64 {
        self.lines.len() as u64
    }

    fn open_at(&mut self, count: u64) {
        self.lines.truncate(count as usize);
    }

    fn write_items(&mut self, results: &[(u64, Item)]) -> Result<(), ArtifactError> {
        for result in results {
            self.append(result.0, &result.1)?;
        }
        Ok(())
    }

    fn item_at(&self, i: u64) -> Option<&[u8]> {
        match self.lines.get(i as usize) {
            Some(line) => Some(line.as_slice()),
            None => None,
        }
    }
}

/// A collector of one word.
#[derive(Drop)]
struct Word {
    alloc: Global,
}

impl Collector for Word {
    ghost collected = { λ _ _. codes "done" };

    fn collect(&self, _view: &RowView) -> Result<Item, AllocError> {
        Item::copy_of(self.alloc, b"done")
    }
}

/// What a partition that ran alone left.
#[derive(Drop)]
struct Ran {
    row: Row,
    end: AloneEnd,
    /// The outputs, each with a blank after it.
    outputs: Vec<u8>,
}

fn outputs_of(alloc: Global, journal: &Journal) -> Result<Vec<u8>, Fail> {
    let mut outputs = Vec::new(alloc);
    for line in &journal.lines {
        outputs.extend_from_slice(line.as_slice())?;
        outputs.push(b' ')?;
    }
    Ok(outputs)
}

/// Runs a range of the letters of the text alone, two at a time.
fn run(alloc: Global, text: &[u8], range: Range) -> Result<Ran, Fail> {
    let row = Row::fresh(range);
    let letters = Letters {
        alloc,
        text: Vec::from_slice(alloc, text)?,
        place: 0,
    };
    let journal = Journal {
        alloc,
        lines: Vec::new(alloc),
    };
    let artifacts = ArtifactsOf {
        reader: letters,
        processor: Doubler { alloc },
        writer: journal,
        collector: Word { alloc },
    };
    if !row.sound() || row.state != RowState::Waiting || !Task::fits(&artifacts, &row) {
        return Err(Fail::from("a task"));
    }
    let rules = Rules {
        skippable: 0,
        retryable: 0,
        no_rollback: 0,
        skip_limit: None,
        retry_limit: 0,
    };
    let task = Task::start(0, row, rules, 2, artifacts);
    let alone = run_alone(alloc, task);
    let row = *alone.task.row();
    let outputs = outputs_of(alloc, &alone.task.into_artifacts().writer)?;
    Ok(Ran {
        row,
        end: alone.end,
        outputs,
    })
}

#[test]
fn own_artifacts(rt: HostRuntime) -> Result<(), Fail> {
    let ran = run(rt.alloc(), b"abcde", Range { lo: 1, hi: 4 })?;
    let row = ran.row;
    assert!(rt; ran.end == AloneEnd::Finished);
    assert!(rt; (row.at, row.written, row.counts.commit) == (4, 3, 2));
    assert!(rt; ran.outputs.as_slice() == b"bb cc dd ".as_slice());
    Ok(())
}
