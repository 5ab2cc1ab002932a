//! The records of a stream, some at a time.

ghost use Rattle.std.specs.Prelude.{true, false, ◌≡◌, ◌≤◌, ◌++◌, ◌∷◌, ℕ, List, [], length, IfErr, IfOk, IfSome, IsOk, OnErr, OnOk};
ghost use Rattle.std.specs.Bool.{MatchBool};
ghost use Rattle.std.specs.List.{All};
ghost use Rattle.csv.specs.Reading.{strip_bom};
ghost use Rattle.csv.specs.declared.parser.Config.{Config};
ghost use Rattle.jb_rows.specs.Fields.{Fields, packed};
ghost use Rattle.jb_rows.specs.Places.{AreLinesFrom, BeginsAt, BeginsIn};
ghost use Rattle.jb_rows.specs.Refusals.{IfTooLong};
ghost use Rattle.jb_rows.specs.Streams.{HasGivenRows, HasRead, ends_open, is_over, kept_header, lines_of, longest_of, stream_of};
ghost use Rattle.jb_rows.specs.Texts.{AreFieldsOf, AreFirstFieldsOf, AreRowsOf, IsAfter, IsLongAfter, IsTooLongAfter, config_of, first_record, header_of};
ghost use Rattle.jb_rows.specs.declared.header.Header.TheVariants as hd;
ghost use Rattle.jb_rows.specs.declared.rows_options.RowsOptions.{RowsOptions};

use crate::header::Header;
use crate::row_builder::RowBuilder;
use crate::rows::Rows;
use crate::rows_error::RowsError;
use crate::rows_options::RowsOptions;
use crate::text_reader::TextReader;
use std::alloc::Global;
use std::io::Read;

/// The records of a stream, some at a time, and the lines in which they begin. After an error nothing is known of it.
#[derive(Drop)]
pub struct RowsReader<R> {
    reader: TextReader<R>,
    longest: usize,
    header: Rows,
    given: u64,
    is_done: bool,
    /// The text ends within its last record, which has no line end.
    is_open: bool,
    row: RowBuilder,
    field: Vec<u8>,
    /// The line in which the record in `row` begins.
    line: u64,
    lines: Vec<u64>,
}

/// A header row that is too long is no record.
fn header_failure(error: RowsError) -> RowsError
    ensures { IfTooLong result (λ _. ⊥) }
{
    match error {
        RowsError::TooLong { number: _ } => RowsError::LongHeader,
        other => other,
    }
}

impl<R: Read + Drop> RowsReader<R> {
    /// The records of this stream after its header row, if the options say that it has one. That row is read here, and nothing else;
    /// if it is too long, the error is `LongHeader`. Without a header row nothing is read, and the call doesn't fail.
    pub fn new(alloc: Global, options: &RowsOptions, from: R) -> Result<RowsReader<R>, RowsError>
        ensures given { IfOk result (λ rows. IfSome (R.remaining from) (λ text. HasGivenRows options.now R.remaining rows text [])) }
        ensures longest { IfOk result (λ rows. longest_of rows ≡ options.now.longest) }
        ensures plain { options.now.header ≡ hd.None → IsOk result }
        ensures refused { IfErr result (λ error. IfTooLong error (λ _. ⊥)) }
    {
        let mut rows = RowsReader::unread(alloc, options, from);
        match options.header {
            Header::None => Ok(rows),
            Header::Skipped | Header::Copied => {
                rows.take_header()?;
                Ok(rows)
            }
        }
    }
}

impl<R: Read> RowsReader<R> {
    /// The records of this stream, of which nothing is read.
    fn unread(alloc: Global, options: &RowsOptions, from: R) -> RowsReader<R>
        ensures given { IfSome (R.remaining from) (λ text. HasRead (config_of options.now) R.remaining result text []) }
        ensures header { result.header ≡ [] }
        ensures number { result.given ≡ 0 }
        ensures longest { longest_of result ≡ options.now.longest }
    {
        RowsReader {
            reader: TextReader::new(options, from),
            longest: options.longest,
            header: Rows::new(alloc),
            given: 0,
            is_done: false,
            is_open: false,
            row: RowBuilder::new(alloc),
            field: Vec::new(alloc),
            line: 0,
            lines: Vec::new(alloc),
        }
    }

    /// The header row, if the options said that there is one and the stream had a record.
    pub fn header(&self) -> &Rows
        ensures kept { result.now ≡ kept_header self.now }
        ensures text { (options : RowsOptions) (text : List ℕ) (records : List Fields) → HasGivenRows options R.remaining self.now text records
            → result.now ≡ header_of options text }
    {
        &self.header
    }

    /// Takes the first record as the header row.
    fn take_header(&mut self) -> Result<(), RowsError>
        ensures read { OnOk result ((config : Config) (text : List ℕ) → HasRead config R.remaining self.old text [] → HasRead config R.remaining self.new text (first_record config text)) }
        ensures kept { OnOk result ((config : Config) (text : List ℕ) → HasRead config R.remaining self.old text [] → self.new.header ≡ self.old.header ++ first_record config text) }
        ensures number { self.new.given ≡ self.old.given }
        ensures longest { longest_of self.new ≡ longest_of self.old }
        ensures refused { IfErr result (λ error. IfTooLong error (λ _. ⊥)) }
    {
        match self.read_row() {
            Ok(true) => {
                self.header.push(&self.row)?;
                Ok(())
            }
            Ok(false) => Ok(()),
            Err(error) => Err(header_failure(error)),
        }
    }

    /// Puts the next record together in `self.row`; and whether there was one.
    fn read_row(&mut self) -> Result<bool, RowsError>
        ensures given { IfOk result (λ found. (config : Config) (text : List ℕ) (before : List Fields) → HasRead config R.remaining self.old text before
            → MatchBool found (HasRead config R.remaining self.new text (before ++ self.new.row ∷ [])) (HasRead config R.remaining self.new text before × AreFieldsOf config text before)) }
        ensures short { IfOk result (λ found. found ≡ true → length (packed self.new.row) ≤ longest_of self.old) }
        ensures begins { IfOk result (λ found. found ≡ true → (config : Config) (text : List ℕ) (before : List Fields) → HasRead config R.remaining self.old text before
            → BeginsAt config (strip_bom text) (length before) self.new.line) }
        ensures lines { lines_of self.new ≡ lines_of self.old }
        ensures header { self.new.header ≡ self.old.header }
        ensures number { self.new.given ≡ self.old.given }
        ensures longest { longest_of self.new ≡ longest_of self.old }
        ensures refused { IfErr result (λ error. IfTooLong error (λ number. number ≡ self.old.given)) }
        ensures too_long { IfErr result (λ error. (config : Config) (text : List ℕ) (before : List Fields) → HasRead config R.remaining self.old text before
            → IfTooLong error (λ _. IsLongAfter config text before (longest_of self.old))) }
    {
        if self.is_done {
            return Ok(false);
        }
        let found = match self.reader.skip_ends() {
            Ok(found) => found,
            Err(error) => return Err(error),
        };
        if !found {
            self.is_done = true;
            return Ok(false);
        }
        self.line = self.reader.line();
        let (given, longest) = (self.given, self.longest);
        let is_last = match self
            .reader
            .read_record(given, longest, &mut self.row, &mut self.field)
        {
            Ok(is_last) => is_last,
            Err(error) => return Err(error),
        };
        self.is_done = is_last;
        self.is_open = is_last;
        Ok(true)
    }

    /// The same, and counts it.
    fn next_row(&mut self) -> Result<bool, RowsError>
        ensures given { IfOk result (λ found. (options : RowsOptions) (text : List ℕ) (before : List Fields) → HasGivenRows options R.remaining self.old text before
            → MatchBool found (HasGivenRows options R.remaining self.new text (before ++ self.new.row ∷ [])) (HasGivenRows options R.remaining self.new text before × AreRowsOf options text before)) }
        ensures short { IfOk result (λ found. found ≡ true → length (packed self.new.row) ≤ longest_of self.old) }
        ensures begins { IfOk result (λ found. found ≡ true → (options : RowsOptions) (text : List ℕ) (before : List Fields) → HasGivenRows options R.remaining self.old text before
            → BeginsIn options text (length before) self.new.line) }
        ensures lines { lines_of self.new ≡ lines_of self.old }
        ensures longest { longest_of self.new ≡ longest_of self.old }
        ensures refused { IfErr result (λ error. IfTooLong error (λ number. number ≡ self.old.given)) }
        ensures too_long { IfErr result (λ error. (options : RowsOptions) (text : List ℕ) (before : List Fields) → HasGivenRows options R.remaining self.old text before
            → IfTooLong error (λ _. IsTooLongAfter options text before (longest_of self.old))) }
    {
        let found = match self.read_row() {
            Ok(found) => found,
            Err(error) => return Err(error),
        };
        if !found {
            return Ok(false);
        }
        self.given = self.given.saturating_add(1);
        Ok(true)
    }

    /// The next records, at most so many, in place of those in `rows`; and whether there may be more. If one is too long, `rows` has
    /// those before it. At the end each further call gives no record.
    pub fn next_rows(&mut self, rows: &mut Rows, most: usize) -> Result<bool, RowsError>
        ensures given { OnOk result ((options : RowsOptions) (text : List ℕ) (before : List Fields) → HasGivenRows options R.remaining self.old text before
            → HasGivenRows options R.remaining self.new text (before ++ rows.new)) }
        ensures all { IfOk result (λ more. more ≡ false → (options : RowsOptions) (text : List ℕ) (before : List Fields) → HasGivenRows options R.remaining self.old text before
            → AreRowsOf options text (before ++ rows.new)) }
        ensures most { OnOk result (length rows.new ≤ most) }
        ensures full { IfOk result (λ more. more ≡ true → length rows.new ≡ most) }
        ensures short { All (λ fields. length (packed fields) ≤ longest_of self.old) rows.new }
        ensures longest { longest_of self.new ≡ longest_of self.old }
        ensures refused { IfErr result (λ error. (options : RowsOptions) (text : List ℕ) (before : List Fields) → HasGivenRows options R.remaining self.old text before
            → IfTooLong error (IsAfter options text (before ++ rows.new))) }
        ensures too_long { IfErr result (λ error. (options : RowsOptions) (text : List ℕ) (before : List Fields) → HasGivenRows options R.remaining self.old text before
            → IfTooLong error (λ _. IsTooLongAfter options text (before ++ rows.new) (longest_of self.old))) }
        ensures lines { (options : RowsOptions) (text : List ℕ) (before : List Fields) → HasGivenRows options R.remaining self.old text before
            → AreLinesFrom options text (length before) (lines_of self.new) }
        ensures counted { OnOk result (length (lines_of self.new) ≡ length rows.new) }
    {
        rows.clear();
        self.lines.clear();
        for _ in 0..most {
            let found = match self.next_row() {
                Ok(found) => found,
                Err(error) => return Err(error),
            };
            if !found {
                return Ok(false);
            }
            rows.push(&self.row)?;
            self.lines.push(self.line)?;
        }
        Ok(true)
    }

    /// The stream, of which so much is read.
    pub fn stream(&self) -> &R
        ensures { result.now ≡ stream_of self.now }
    {
        self.reader.stream()
    }

    /// Whether the end of the stream was found: a read gave no byte. Then the records that were given are all.
    pub fn is_over(&self) -> bool
        ensures over { result ≡ is_over self.now }
        ensures all { result ≡ true → (options : RowsOptions) (text : List ℕ) (records : List Fields) → HasGivenRows options R.remaining self.now text records
            → AreRowsOf options text records }
    {
        self.is_done
    }

    /// Whether the stream ended within the last record or header row, before its line end.
    pub fn ends_open(&self) -> bool
        ensures { result ≡ ends_open self.now }
    {
        self.is_open
    }

    /// The line in which each record begins that `next_rows` gave last, the first line being 1. A line ends at a line feed.
    pub fn lines(&self) -> &[u64]
        ensures { result.now ≡ lines_of self.now }
    {
        &self.lines
    }
}
