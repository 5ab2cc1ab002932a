//! How records are read, and written as CSV.

use crate::header::Header;
use crate::input::Input;

/// How records are read, and written as CSV.
#[derive(Clone, Copy, Debug)]
pub struct RowsOptions {
    /// What a record of the text that is read is.
    pub input: Input,
    /// The byte between two fields of a record of CSV, read or written. What is written is CSV, of whatever text it is the result.
    pub delimiter: u8,
    /// The most bytes that a record may have, as `RowBuilder` packs it: those of its fields, and one more for each field (and
    /// for each 255 bytes of a field).
    pub longest: usize,
    /// Whether the first record is a header row, and what becomes of it.
    pub header: Header,
}

impl RowsOptions {
    /// Records of CSV with commas between fields, of up to 1 MiB, and no header row.
    pub const CSV: RowsOptions = RowsOptions {
        input: Input::Csv,
        delimiter: b',',
        longest: 1_048_576,
        header: Header::None,
    };

    /// Lines, as those of JSON Lines, of up to 1 MiB, and no header row. Results have commas between fields.
    pub const LINES: RowsOptions = RowsOptions {
        input: Input::Lines,
        ..RowsOptions::CSV
    };
}
