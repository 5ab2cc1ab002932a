//! Records that have more fields than the first one, or fewer.

use jb_rows::{Rows, RowsError, RowsOptions, RowsReader};
use std::alloc::Global;

/// Texts, and the first record that has more fields or fewer than the first one, with the line in which it begins.
const TEXTS: [(&str, Option<(usize, u64)>); 6] = [
    ("", None),
    ("x,1\n\"y\nz\",2\n", None),
    ("x,1\r\n\r\n \"y\",\"a\"\"\"", None),
    ("x,1\ny,2\nz\n", Some((2, 3))),
    ("x\r\n\r\n\"y\r\n\"\r\nz,\r\n", Some((2, 5))),
    ("a\nb,c\nd,e\n", Some((1, 2))),
];

/// The first record of a text that has more fields or fewer, and the line in which it begins.
fn uneven(alloc: Global, text: &[u8]) -> Result<Option<(usize, u64)>, RowsError> {
    let mut reader = RowsReader::new(alloc, &RowsOptions::CSV, text)?;
    let mut rows = Rows::new(alloc);
    reader.next_rows(&mut rows, 7)?;
    match rows.first_uneven() {
        Some(index) => match reader.lines().get(index) {
            Some(line) => Ok(Some((index, *line))),
            None => Err(RowsError::Memory),
        },
        None => Ok(None),
    }
}

/// Whether it is this one.
fn is_uneven_at(alloc: Global, text: &str, place: Option<(usize, u64)>) -> bool {
    match uneven(alloc, text.as_bytes()) {
        Ok(found) => found == place,
        Err(_) => false,
    }
}

/// The first record with more fields or fewer is found, and its line is known.
#[test]
fn the_first_uneven_record_is_found(rt: HostRuntime) {
    let alloc = rt.alloc();
    for (text, place) in TEXTS {
        assert!(rt;
            is_uneven_at(alloc, text, place) || is_uneven_at(alloc, text, place),
            "of {text:?}"
        );
    }
}
