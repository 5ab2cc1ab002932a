//! Records that are too long.

use crate::texts::show;
use jb_rows::{Input, Rows, RowsError, RowsOptions, RowsReader};
use std::alloc::Global;
use std::io::{Read, repeat};

/// Commas, records of at most eight bytes packed, and no header row.
pub(crate) const EIGHT: RowsOptions = RowsOptions {
    longest: 8,
    ..RowsOptions::CSV
};

/// The same of lines.
const EIGHT_LINES: RowsOptions = RowsOptions {
    input: Input::Lines,
    ..EIGHT
};

/// The number of the record that is refused, if one is, with the records read before it in its slice.
fn refused<R: Read + Drop>(
    alloc: Global,
    options: &RowsOptions,
    from: R,
    slice: usize,
    shown: &mut Vec<u8>,
) -> Option<u64> {
    let Ok(mut reader) = RowsReader::new(alloc, options, from) else {
        return None;
    };
    let mut rows = Rows::new(alloc);
    for _ in 0..u64::MAX {
        let answer = reader.next_rows(&mut rows, slice);
        if show(&rows, shown).is_err() {
            return None;
        }
        match answer {
            Ok(true) => {}
            Ok(false) => return None,
            Err(RowsError::TooLong { number }) => return Some(number),
            Err(_) => return None,
        }
    }
    None
}

/// Whether the record of this number is refused, and these are read.
fn refuses<R: Read + Drop>(
    alloc: Global,
    options: &RowsOptions,
    from: R,
    slice: usize,
    number: u64,
    records: &[u8],
) -> bool {
    let mut shown = Vec::new(alloc);
    refused(alloc, options, from, slice, &mut shown) == Some(number) && shown.as_slice() == records
}

/// Records of 8 bytes packed are read, and one of 9 is refused by its number.
#[test]
fn the_first_record_past_the_limit_is_refused(rt: HostRuntime) {
    let alloc = rt.alloc();
    let text = b"aaaa,bb\n\"ccccccc\"\ndddddddd\ne\n".as_slice();
    let records = b"aaaa;bb|ccccccc|".as_slice();
    for slice in [1, 2, 3, 7] {
        assert!(rt;
            refuses(alloc, &EIGHT, text, slice, 2, records)
                || refuses(alloc, &EIGHT, text, slice, 2, records),
            "by {slice}"
        );
    }
}

/// A record that doesn't end is refused: bytes, quotes, commas, and line feeds within quotes.
#[test]
fn a_record_without_an_end_is_refused(rt: HostRuntime) {
    let alloc = rt.alloc();
    let records = b"a|b|".as_slice();
    for (front, byte) in [
        ("a\nb\n", b'x'),
        ("a\nb\n", b'"'),
        ("a\nb\n", b','),
        ("a\nb\n\"", b'\n'),
    ] {
        let front = front.as_bytes();
        assert!(rt;
            refuses(alloc, &EIGHT, front.chain(repeat(byte)), 7, 2, records)
                || refuses(alloc, &EIGHT, front.chain(repeat(byte)), 7, 2, records),
            "of {byte}"
        );
    }
}

/// A line of 8 bytes packed is read, and one of 9 is refused by its number, and so is one that doesn't end.
#[test]
fn a_line_past_the_limit_is_refused(rt: HostRuntime) {
    let alloc = rt.alloc();
    let text = b"a,bb,c\"\n\"cccccc\n\ndddddddd\ne\n".as_slice();
    let records = b"a,bb,c\"|\"cccccc|".as_slice();
    for slice in [1, 2, 7] {
        assert!(rt;
            refuses(alloc, &EIGHT_LINES, text, slice, 2, records)
                || refuses(alloc, &EIGHT_LINES, text, slice, 2, records),
            "by {slice}"
        );
    }
    let front = b"a\nb\n".as_slice();
    let before = b"a|b|".as_slice();
    assert!(rt;
        refuses(alloc, &EIGHT_LINES, front.chain(repeat(b'"')), 7, 2, before)
            || refuses(alloc, &EIGHT_LINES, front.chain(repeat(b'"')), 7, 2, before)
    );
}
