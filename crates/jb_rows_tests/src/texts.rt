//! What texts of CSV and of lines are read into, and written as.

use jb_rows::{Row, Rows, RowsError, RowsOptions, RowsReader, RowsWriter, copy_header};
use std::alloc::{AllocError, Global};

/// Texts; their records, with a `;` between fields and a bar after each record; and the records as lines of CSV. The second and the
/// third are what Python's `csv` makes of the first, without its records of no field, which are blank lines.
const TEXTS: [(&str, &str, &str); 16] = [
    ("", "", ""),
    ("\n", "", ""),
    ("a,b\nc,d\n", "a;b|c;d|", "a,b\nc,d\n"),
    ("a,b\r\nc,d\r\n", "a;b|c;d|", "a,b\nc,d\n"),
    ("a,b\rc,d", "a;b|c;d|", "a,b\nc,d\n"),
    ("a,b\nc", "a;b|c|", "a,b\nc\n"),
    (",\n,,\n", ";|;;|", ",\n,,\n"),
    ("\"\"\nx\n", "|x|", "\"\"\nx\n"),
    (
        "\"a,b\",\"c\nd\"\n\"e\r\nf\",g\n",
        "a,b;c\nd|e\r\nf;g|",
        "\"a,b\",\"c\nd\"\n\"e\r\nf\",g\n",
    ),
    (
        "\"say \"\"hi\"\"\",\"\"\"\"\n",
        "say \"hi\";\"|",
        "\"say \"\"hi\"\"\",\"\"\"\"\n",
    ),
    ("a\"b,\"c\"d\n", "a\"b;cd|", "\"a\"\"b\",cd\n"),
    ("é,日本\n\"ß, ø\",€\n", "é;日本|ß, ø;€|", "é,日本\n\"ß, ø\",€\n"),
    ("a,b\n\n\r\nc,d\n", "a;b|c;d|", "a,b\nc,d\n"),
    (
        "1\n2\n3\n4\n5\n6\n7\n8\n",
        "1|2|3|4|5|6|7|8|",
        "1\n2\n3\n4\n5\n6\n7\n8\n",
    ),
    ("\"open,\nx", "open,\nx|", "\"open,\nx\"\n"),
    (" a , \"b\" \n", " a ; \"b\" |", " a ,\" \"\"b\"\" \"\n"),
];

/// Texts that are read as lines, and the same of them. A record has one field. If it has two, a byte 0 was between them.
const LINES: [(&str, &str, &str); 10] = [
    ("", "", ""),
    ("\n\r\n\n", "", ""),
    (
        "{\"a\": \"x,y\"}\n{\"b\": [1, 2]}\n",
        "{\"a\": \"x,y\"}|{\"b\": [1, 2]}|",
        "\"{\"\"a\"\": \"\"x,y\"\"}\"\n\"{\"\"b\"\": [1, 2]}\"\n",
    ),
    ("{}\r\n[]\r\n", "{}|[]|", "{}\n[]\n"),
    ("1\n\n\r\n2\r3", "1|2|3|", "1\n2\n3\n"),
    ("\u{feff}1\n\u{feff}2", "1|\u{feff}2|", "1\n\u{feff}2\n"),
    (
        "{\"open\n\"\n\"\"\n",
        "{\"open|\"|\"\"|",
        "\"{\"\"open\"\n\"\"\"\"\n\"\"\"\"\"\"\n",
    ),
    (" \n\t1 \n", " |\t1 |", " \n\t1 \n"),
    ("\"é, 日本\"", "\"é, 日本\"|", "\"\"\"é, 日本\"\"\"\n"),
    ("a\0b\nc\n", "a;b|c|", "a,b\nc\n"),
];

/// How many records are read at a time.
const SLICES: [usize; 4] = [1, 2, 3, 7];

/// Sizes of fields, about those at which a packed size gets a byte more.
const SIZES: [usize; 9] = [253, 254, 255, 256, 509, 510, 511, 65_535, 70_000];

/// Puts the fields of a record after the text, with a `;` between them and a bar after them.
fn show_row(row: &Row, shown: &mut Vec<u8>) -> Result<(), AllocError> {
    for place in 0..u32::MAX {
        let Some(field) = row.get(place as usize) else {
            break;
        };
        if place > 0 {
            shown.push(b';')?;
        }
        shown.extend_from_slice(field)?;
    }
    shown.push(b'|')?;
    Ok(())
}

/// The same of each of these records.
pub(crate) fn show(rows: &Rows, shown: &mut Vec<u8>) -> Result<(), AllocError> {
    for index in 0..rows.len() {
        show_row(&rows.row(index), shown)?;
    }
    Ok(())
}

/// Reads a text by slices of so many records, shows its records after `shown`, and gives them as lines of CSV, after the header row if it
/// is copied.
fn read_and_write(
    alloc: Global,
    options: &RowsOptions,
    text: &[u8],
    slice: usize,
    shown: &mut Vec<u8>,
) -> Result<Vec<u8>, RowsError> {
    let mut reader = RowsReader::new(alloc, options, text)?;
    let mut writer = RowsWriter::new(alloc, options, Vec::new(alloc));
    copy_header(options, &reader, &mut writer)?;
    let mut rows = Rows::new(alloc);
    for _ in 0..u64::MAX {
        let more = reader.next_rows(&mut rows, slice)?;
        show(&rows, shown)?;
        writer.write_rows(&rows)?;
        if !more {
            return writer.finish();
        }
    }
    Err(RowsError::Memory)
}

/// Whether a text has these records and these lines. If a request for memory is refused, it is at the second call.
pub(crate) fn gives(
    alloc: Global,
    options: &RowsOptions,
    text: &[u8],
    slice: usize,
    records: &[u8],
    lines: &[u8],
) -> bool {
    let mut shown = Vec::new(alloc);
    match read_and_write(alloc, options, text, slice, &mut shown) {
        Ok(written) => written.as_slice() == lines && shown.as_slice() == records,
        Err(_) => false,
    }
}

/// Each text is read and written as Python's `csv` does it, whatever the size of a slice.
#[test]
fn texts_are_read_and_written_as_by_python(rt: HostRuntime) {
    let alloc = rt.alloc();
    for (text, records, lines) in TEXTS {
        let (text, records, lines) = (text.as_bytes(), records.as_bytes(), lines.as_bytes());
        for slice in SLICES {
            assert!(rt;
                gives(alloc, &RowsOptions::CSV, text, slice, records, lines)
                    || gives(alloc, &RowsOptions::CSV, text, slice, records, lines),
                "of {text:?} by {slice}"
            );
        }
    }
}

/// Each line is a record of one field, whatever the size of a slice.
#[test]
fn lines_are_read_as_they_stand(rt: HostRuntime) {
    let alloc = rt.alloc();
    for (text, records, lines) in LINES {
        let (text, records, lines) = (text.as_bytes(), records.as_bytes(), lines.as_bytes());
        for slice in SLICES {
            assert!(rt;
                gives(alloc, &RowsOptions::LINES, text, slice, records, lines)
                    || gives(alloc, &RowsOptions::LINES, text, slice, records, lines),
                "of {text:?} by {slice}"
            );
        }
    }
}

/// So many bytes, and then these.
fn long_text(alloc: Global, size: usize, end: &[u8]) -> Result<Vec<u8>, AllocError> {
    let mut text = Vec::new(alloc);
    for _ in 0..size {
        text.push(b'x')?;
    }
    text.extend_from_slice(end)?;
    Ok(text)
}

/// Whether a field of so many bytes is read and written.
fn gives_long(alloc: Global, size: usize) -> bool {
    match (
        long_text(alloc, size, b",y\n"),
        long_text(alloc, size, b";y|"),
    ) {
        (Ok(text), Ok(shown)) => gives(alloc, &RowsOptions::CSV, &text, 1, &shown, &text),
        _ => false,
    }
}

/// Fields of each size are read and written whole.
#[test]
fn long_fields_are_read_and_written(rt: HostRuntime) {
    for size in SIZES {
        assert!(rt;
            gives_long(rt.alloc(), size) || gives_long(rt.alloc(), size),
            "of {size}"
        );
    }
}
