//! What a record of a text is.

ghost use Rattle.jb_rows.specs.TextLines.{LinesAreRecords};

/// What a record of a text is.
#[derive(Clone, Copy, Debug)]
pub enum Input {
    /// A record of CSV, with quotes (RFC 4180).
    Csv,
    /// A line, which is a record of one field: no quote, comma or blank has a meaning. A line feed, a carriage return or both end a
    /// line. An empty line is no record. Of JSON Lines, each record is a JSON text. A byte 0 ends a field; no JSON text has one.
    Lines,
}

/// The law of lines, if no byte of the text is 0. A text that is read as lines has a record for each of its lines, in order, and each has that
/// line as its one field. The function does nothing: its contract is the law.
pub fn lines_are_records()
    ensures { LinesAreRecords }
{}
