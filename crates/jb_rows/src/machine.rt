//! What a byte does to a reader inside a record.

ghost use Rattle.std.specs.Prelude.{◌≡◌, ◌≤◌, ◌==◌, ◌&&◌, count_by, length, take};
ghost use Rattle.csv.specs.Machine as Csv;
ghost use Rattle.csv.specs.declared.parser.State.TheVariants as state;
ghost use Rattle.jb_rows.specs.Bytes.{csv_state, csv_turn, is_line_feed, marks_config};
ghost use Rattle.jb_rows.specs.TextLines.{ends_line};
ghost use Rattle.jb_rows.specs.Texts.{config_of};

use crate::input::Input;
use crate::rows_options::RowsOptions;

/// Where a reader is inside a record.
#[derive(Clone, Copy, Debug)]
pub(crate) enum Place {
    /// Before the first byte of a field.
    StartField,
    /// In a field without quotes.
    InField,
    /// Between quotes.
    InQuoted,
    /// After a quote that may be the last one.
    AfterQuote,
}

/// What a byte does.
#[derive(Clone, Copy, Debug)]
pub(crate) enum Turn {
    /// It is left out, and the reader is at this place.
    Skip(Place),
    /// It joins the field, and the reader is at this place.
    Copy(Place),
    /// It ends the field.
    EndField,
    /// It ends the record.
    EndRecord,
}

/// The bytes that have a meaning.
#[derive(Clone, Copy, Debug)]
pub(crate) struct Marks {
    /// Whether quotes have one.
    quoting: bool,
    /// The byte between fields.
    delimiter: u8,
}

/// Whether a byte ends a line.
pub(crate) fn ends_line(byte: u8) -> bool
    ensures { result ≡ ends_line byte }
{
    byte == b'\r' || byte == b'\n'
}

impl Marks {
    /// Those of a text that is read so.
    pub(crate) fn of(options: &RowsOptions) -> Marks
        ensures { marks_config result ≡ config_of options.now }
    {
        match options.input {
            Input::Csv => Marks {
                quoting: true,
                delimiter: options.delimiter,
            },
            Input::Lines => Marks {
                quoting: false,
                delimiter: 0,
            },
        }
    }

    /// Whether a byte is a quote that has a meaning.
    pub(crate) fn is_quote(&self, byte: u8) -> bool
        ensures { result ≡ (self.now.quoting && (byte == 34)) }
    {
        self.quoting && byte == b'"'
    }

    /// What a byte does in a field without quotes, or after a quote.
    pub(crate) fn in_field(&self, byte: u8) -> Turn
        ensures { csv_turn result byte ≡ Csv.in_field (marks_config self.now) byte }
    {
        if byte == self.delimiter {
            Turn::EndField
        } else if ends_line(byte) {
            Turn::EndRecord
        } else {
            Turn::Copy(Place::InField)
        }
    }

    /// What a byte does as the first of a field.
    fn start_field(&self, byte: u8) -> Turn
        ensures { csv_turn result byte ≡ Csv.start_field (marks_config self.now) byte }
    {
        if self.quoting && byte == b'"' {
            Turn::Skip(Place::InQuoted)
        } else {
            self.in_field(byte)
        }
    }

    /// What a byte does between quotes.
    fn in_quoted(&self, byte: u8) -> Turn
        ensures { csv_turn result byte ≡ Csv.step (marks_config self.now) state.InQuoted byte }
    {
        if self.quoting && byte == b'"' {
            Turn::Skip(Place::AfterQuote)
        } else {
            Turn::Copy(Place::InQuoted)
        }
    }

    /// What a byte does after a quote.
    fn after_quote(&self, byte: u8) -> Turn
        ensures { csv_turn result byte ≡ Csv.step (marks_config self.now) state.AfterQuote byte }
    {
        if self.quoting && byte == b'"' {
            Turn::Copy(Place::InQuoted)
        } else {
            self.in_field(byte)
        }
    }

    /// What a byte does at this place.
    pub(crate) fn turn(&self, place: Place, byte: u8) -> Turn
        ensures { csv_turn result byte ≡ Csv.step (marks_config self.now) (csv_state place) byte }
    {
        match place {
            Place::StartField => self.start_field(byte),
            Place::InField => self.in_field(byte),
            Place::InQuoted => self.in_quoted(byte),
            Place::AfterQuote => self.after_quote(byte),
        }
    }

    /// How many bytes at the front only join a field without quotes.
    pub(crate) fn plain_run(&self, bytes: &[u8]) -> usize
        ensures within { result ≤ length bytes.now }
        ensures runs { Csv.Runs (marks_config self.now) state.InField (take result bytes.now) }
        ensures lines { count_by is_line_feed (take result bytes.now) ≡ 0 }
    {
        for index in 0..bytes.len() {
            let byte = bytes[index];
            if byte == self.delimiter || ends_line(byte) {
                return index;
            }
        }
        bytes.len()
    }

    /// How many bytes at the front only join a field between quotes, and are no line feeds.
    fn quoted_run(&self, bytes: &[u8]) -> usize
        ensures within { result ≤ length bytes.now }
        ensures runs { Csv.Runs (marks_config self.now) state.InQuoted (take result bytes.now) }
        ensures lines { count_by is_line_feed (take result bytes.now) ≡ 0 }
    {
        for index in 0..bytes.len() {
            let byte = bytes[index];
            if byte == b'"' || byte == b'\n' {
                return index;
            }
        }
        bytes.len()
    }

    /// How many bytes at the front may be taken together, since each only joins the field. None of them is a line feed.
    pub(crate) fn run(&self, place: Place, bytes: &[u8]) -> usize
        ensures within { result ≤ length bytes.now }
        ensures runs { Csv.Runs (marks_config self.now) (csv_state place) (take result bytes.now) }
        ensures lines { count_by is_line_feed (take result bytes.now) ≡ 0 }
    {
        match place {
            Place::InField => self.plain_run(bytes),
            Place::InQuoted => self.quoted_run(bytes),
            Place::StartField | Place::AfterQuote => 0,
        }
    }
}
