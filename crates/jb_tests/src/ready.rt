//! The ready parts of `jb_ready`: what texts are read into, and what is noted.

use crate::artifacts::{failing_once, fault, fault_of, holds, records};
use jb_artifacts::{
    FaultPlan, FaultPlans, Item, ItemProcessor, ItemReader, LendingReader, PackedResults,
    PackingProcessor, PrefixProcessor, TableReader,
};
use jb_base::{ClassId, PackedList};
use jb_ready::{Note, Notes, NotingProcessor, NotingReader, lines};
use std::alloc::{AllocError, Global};

/// Texts, and the lines that they are read into, each with a bar after it.
const TEXTS: [(&str, &str); 5] = [
    ("", ""),
    ("\n", "|"),
    ("a", "a|"),
    ("a\n", "a|"),
    ("a\r\n\nb\rc\r\n", "a||b\rc|"),
];

/// The records, each with a bar after it.
fn joined(alloc: Global, records: &PackedList) -> Result<Vec<u8>, AllocError> {
    let mut all = Vec::new(alloc);
    for number in 0..records.len() {
        all.extend_from_slice(records.at(number))?;
        all.push(b'|')?;
    }
    Ok(all)
}

/// Whether the text is read into these lines. If a request for memory is refused, it is at the second call.
fn gives(alloc: Global, text: &str, want: &str) -> bool {
    match lines::records_of(alloc, text.as_bytes()) {
        Ok(records) => match joined(alloc, &records) {
            Ok(got) => got.as_slice() == want.as_bytes(),
            Err(_) => false,
        },
        Err(_) => false,
    }
}

/// Each text is read into its lines.
#[test]
fn texts_are_read_or_memory_is_wanted(rt: HostRuntime) {
    for (text, want) in TEXTS {
        let alloc = rt.alloc();
        assert!(rt;
            gives(alloc, text, want) || gives(alloc, text, want),
            "of {text:?}"
        );
    }
}

/// The note of a fault of class 3 at this record.
fn note_of(number: u64) -> Note {
    Note {
        number,
        class: ClassId::new(3),
    }
}

/// Three records, of which number 1 can't be read.
fn a_reader(alloc: Global) -> Result<NotingReader<TableReader>, AllocError> {
    let mut faults = FaultPlans::new(alloc);
    faults.insert(1, FaultPlan::Bad(ClassId::new(3)))?;
    Ok(NotingReader {
        inner: TableReader::new(alloc, 0, records(alloc, &["a", "", "b"])?, faults),
        notes: Notes::new(alloc),
    })
}

/// Whether the next record is these bytes, lent, and is then passed by.
fn lends(reader: &mut NotingReader<TableReader>, bytes: &[u8]) -> bool {
    let number = reader.place();
    number < reader.end() && reader.record(number) == bytes && reader.pass_item() == Ok(())
}

/// Whether the record of this number can't be read where the reader is opened at it.
fn refuses(reader: &mut NotingReader<TableReader>, number: u64) -> bool {
    if number < reader.first() || number > reader.end() {
        return false;
    }
    reader.open_at(number);
    fault_of(reader.read_item()) == Some(fault())
}

/// Whether a record that can't be read is passed by and noted, each time that it is read, and the records round it are read, or lent.
fn notes_each_read(alloc: Global) -> Result<bool, AllocError> {
    let mut reader = a_reader(alloc)?;
    let before = holds(&reader.read_item(), b"a");
    let refused = refuses(&mut reader, 1) && refuses(&mut reader, 1);
    let behind = lends(&mut reader, b"b") && reader.place() == reader.end();
    let noted = reader.notes.kept() == [note_of(1), note_of(1)].as_slice();
    Ok(before && refused && behind && noted && reader.notes.lost() == 0)
}

/// Whether a fault of a processor is noted, and its answer is that of the one inside.
fn notes_a_process_call(alloc: Global) -> Result<bool, AllocError> {
    let faults = failing_once(alloc, ClassId::new(3))?;
    let prefix = Item::copy_of(alloc, b"=")?;
    let mut processor = NotingProcessor {
        inner: PrefixProcessor::new(alloc, prefix, None, faults),
        notes: Notes::new(alloc),
    };
    let failed = fault_of(processor.process_item(1, b"b")) == Some(fault());
    let answered = holds(&processor.process_item(1, b"b"), b"=b");
    let packed = packs(alloc, &mut processor);
    Ok(failed && answered && packed && processor.notes.kept() == [note_of(1)].as_slice())
}

/// Whether the processor packs its answer.
fn packs(alloc: Global, processor: &mut NotingProcessor<PrefixProcessor>) -> bool {
    let mut results = PackedResults::new(alloc);
    let found = processor.pack_item(2, b"c", &mut results) == Ok(true);
    found && results.len() == 1 && results.number(0) == 2 && results.text(0) == b"=c".as_slice()
}

/// Whether a text of 1,000 lines is read into as many.
fn reads_many(alloc: Global) -> Result<bool, AllocError> {
    let mut text = Vec::new(alloc);
    for _ in 0..1_000 {
        text.extend_from_slice(b"1\n")?;
    }
    Ok(lines::records_of(alloc, &text)?.len() == 1_000)
}

/// A fault of each kind of artifact is noted, and many records are read.
#[test]
fn ready_artifacts_answer(rt: HostRuntime) -> Result<(), AllocError> {
    let alloc = rt.alloc();
    assert!(rt; notes_each_read(alloc)?);
    assert!(rt; notes_a_process_call(alloc)?);
    assert!(rt; reads_many(alloc)?);
    Ok(())
}
