//! Texts with a header row.

use crate::longest::EIGHT;
use crate::texts::gives;
use jb_rows::{Header, Rows, RowsError, RowsOptions, RowsReader};
use std::alloc::Global;

/// Texts; their records, with a `;` between fields and a bar after each; those after the header row; and both as lines of CSV. Python's
/// `csv` gives these records and lines.
const TEXTS: [(&str, &str, &str, &str, &str); 8] = [
    ("", "", "", "", ""),
    ("\n", "", "", "", ""),
    (
        "name,hours\nann,3\nbob,4\n",
        "name;hours|ann;3|bob;4|",
        "ann;3|bob;4|",
        "name,hours\nann,3\nbob,4\n",
        "ann,3\nbob,4\n",
    ),
    (
        "name,hours\r\nann,3\r\n",
        "name;hours|ann;3|",
        "ann;3|",
        "name,hours\nann,3\n",
        "ann,3\n",
    ),
    (
        "\"na\nme\",\"a,b\"\nann,3\n\"bo\nb\",4\n",
        "na\nme;a,b|ann;3|bo\nb;4|",
        "ann;3|bo\nb;4|",
        "\"na\nme\",\"a,b\"\nann,3\n\"bo\nb\",4\n",
        "ann,3\n\"bo\nb\",4\n",
    ),
    ("name,hours", "name;hours|", "", "name,hours\n", ""),
    (
        "\n\r\nname\nann\n",
        "name|ann|",
        "ann|",
        "name\nann\n",
        "ann\n",
    ),
    ("\"\",x\nann\n", ";x|ann|", "ann|", ",x\nann\n", "ann\n"),
];

/// Whether a text with such a header row has these records after it, by slices of so many, and these lines are written. If a request for
/// memory is refused, it is at the second call.
fn gives_with(
    alloc: Global,
    header: Header,
    text: &str,
    slice: usize,
    records: &str,
    lines: &str,
) -> bool {
    let options = RowsOptions {
        header,
        ..RowsOptions::CSV
    };
    let (text, records, lines) = (text.as_bytes(), records.as_bytes(), lines.as_bytes());
    gives(alloc, &options, text, slice, records, lines)
        || gives(alloc, &options, text, slice, records, lines)
}

/// A header row is left out of the records, and written first if it is copied, whatever the size of a slice.
#[test]
fn header_rows_are_skipped_or_copied(rt: HostRuntime) {
    let alloc = rt.alloc();
    for (text, all, records, all_lines, lines) in TEXTS {
        for slice in [1, 2, 7] {
            let none = gives_with(alloc, Header::None, text, slice, all, all_lines);
            assert!(rt; none, "{text:?} by {slice}");
            let skips = gives_with(alloc, Header::Skipped, text, slice, records, lines);
            assert!(rt; skips, "{text:?} by {slice}, skipped");
            let copies = gives_with(alloc, Header::Copied, text, slice, records, all_lines);
            assert!(rt; copies, "{text:?} by {slice}, copied");
        }
    }
}

/// Commas, records of at most eight bytes packed, and a header row.
const EIGHT_AND_HEADER: RowsOptions = RowsOptions {
    header: Header::Skipped,
    ..EIGHT
};

/// Whether the header row of this text is refused.
fn refuses_header(alloc: Global, text: &[u8]) -> bool {
    match RowsReader::new(alloc, &EIGHT_AND_HEADER, text) {
        Err(RowsError::LongHeader) => true,
        _ => false,
    }
}

/// The number of the record after the header row that is refused, if one is.
fn refused_number(alloc: Global, text: &[u8]) -> Option<u64> {
    let mut rows = Rows::new(alloc);
    let Ok(mut reader) = RowsReader::new(alloc, &EIGHT_AND_HEADER, text) else {
        return None;
    };
    match reader.next_rows(&mut rows, 7) {
        Err(RowsError::TooLong { number }) => Some(number),
        _ => None,
    }
}

/// A header row is refused by itself if it is too long, and counts for no record.
#[test]
fn a_header_row_has_no_number(rt: HostRuntime) {
    let alloc = rt.alloc();
    let long_header = b"nnnnnnnn\na\n".as_slice();
    assert!(rt; refuses_header(alloc, long_header));
    let long_record = b"n\na\nbbbbbbbb\n".as_slice();
    assert!(rt;
        refused_number(alloc, long_record) == Some(1)
            || refused_number(alloc, long_record) == Some(1)
    );
}
