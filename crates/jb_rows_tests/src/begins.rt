//! The lines in which records begin.

use jb_rows::{Header, Rows, RowsError, RowsOptions, RowsReader};
use std::alloc::Global;

/// Commas, and a header row that is skipped.
const WITH_HEADER: RowsOptions = RowsOptions {
    header: Header::Skipped,
    ..RowsOptions::CSV
};

/// Texts, how they are read, and the lines in which their records begin: one line feed more in front is one line more.
const TEXTS: [(&str, RowsOptions, &[u64]); 17] = [
    ("", RowsOptions::CSV, &[]),
    ("\n\r\n", RowsOptions::CSV, &[]),
    ("a\nb\nc\n", RowsOptions::CSV, &[1, 2, 3]),
    ("a\r\nb\r\nc", RowsOptions::CSV, &[1, 2, 3]),
    ("a\rb\rc", RowsOptions::CSV, &[1, 1, 1]),
    ("\n\n,\n", RowsOptions::CSV, &[3]),
    ("\"x\ny\",1\nb\n", RowsOptions::CSV, &[1, 3]),
    ("\"x\r\ny\"\r\n\r\nb\r\n", RowsOptions::CSV, &[1, 4]),
    ("\u{feff}a\nb\n", RowsOptions::CSV, &[1, 2]),
    ("\u{feff}\na\n", RowsOptions::CSV, &[2]),
    ("a\n\r\n\n\"b\n\n\"\nc", RowsOptions::CSV, &[1, 4, 7]),
    ("a\n\"open\n\n", RowsOptions::CSV, &[1, 2]),
    ("name,hours\nann,3\n\nbob,4\n", WITH_HEADER, &[2, 4]),
    ("\n\"na\nme\"\r\nann\n", WITH_HEADER, &[4]),
    ("name\n", WITH_HEADER, &[]),
    ("{}\n\n[1,\r\n2]", RowsOptions::LINES, &[1, 3, 4]),
    ("\"\n\"\n", RowsOptions::LINES, &[1, 2]),
];

/// Puts the lines in which the records of a text begin after `found`, read by slices of so many records.
fn find_lines(
    alloc: Global,
    options: &RowsOptions,
    text: &[u8],
    slice: usize,
    found: &mut Vec<u64>,
) -> Result<(), RowsError> {
    let mut reader = RowsReader::new(alloc, options, text)?;
    let mut rows = Rows::new(alloc);
    for _ in 0..u64::MAX {
        let more = reader.next_rows(&mut rows, slice)?;
        for line in reader.lines() {
            found.push(*line)?;
        }
        if !more {
            return Ok(());
        }
    }
    Err(RowsError::Memory)
}

/// Whether these are the lines.
fn are_lines(
    alloc: Global,
    options: &RowsOptions,
    text: &str,
    slice: usize,
    lines: &[u64],
) -> bool {
    let mut found = Vec::new(alloc);
    match find_lines(alloc, options, text.as_bytes(), slice, &mut found) {
        Ok(()) => found.as_slice() == lines,
        Err(_) => false,
    }
}

/// The line of each record is known, whatever the size of a slice: line feeds between quotes count, and a carriage return alone doesn't.
#[test]
fn records_begin_in_their_lines(rt: HostRuntime) {
    let alloc = rt.alloc();
    for (text, options, lines) in TEXTS {
        for slice in [1, 2, 7] {
            assert!(rt;
                are_lines(alloc, &options, text, slice, lines)
                    || are_lines(alloc, &options, text, slice, lines),
                "of {text:?} by {slice}"
            );
        }
    }
}
