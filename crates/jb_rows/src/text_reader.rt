//! The records of a text, one at a time, and the lines in which they begin.

ghost use Rattle.std.specs.Prelude.{◌≡◌, ◌≤◌, ◌<◌, true, false, length, option_map, IfErr, IfOk, OnOk};
ghost use Rattle.std.specs.Bool.{MatchBool};
ghost use Rattle.csv.specs.Reading.{strip_bom};
ghost use Rattle.jb_rows.specs.Fields.{packed};
ghost use Rattle.jb_rows.specs.Refusals.{IfTooLong};
ghost use Rattle.jb_rows.specs.Source.{unread};
ghost use Rattle.jb_rows.specs.Texts.{config_of};
ghost use Rattle.jb_rows.specs.Bytes.{marks_config};
ghost use Rattle.jb_rows.specs.Passing.{PassesEnd, PassesEnds, PassesRecord, IsLonger};

use crate::byte_source::ByteSource;
use crate::machine::{Marks, Place, ends_line};
use crate::row_builder::RowBuilder;
use crate::rows_error::RowsError;
use crate::rows_options::RowsOptions;
use crate::tokens::{end_field, is_too_long, line_feeds, take_next};
use std::io::Read;

/// The records of a text, one at a time, and the lines in which they begin.
#[derive(Drop)]
pub(crate) struct TextReader<R> {
    source: ByteSource<R>,
    marks: Marks,
    /// The line of the next byte, the first being 1. It stops at 2^64 - 1.
    line: u64,
}

/// Whether a record is longer packed than it may be.
fn is_longer(row: &RowBuilder, longest: usize) -> bool
    ensures longer { result ≡ true → longest < length (packed row.now) }
    ensures short { result ≡ false → length (packed row.now) ≤ longest }
{
    row.as_bytes().len() > longest
}

impl<R: Read> TextReader<R> {
    /// Those of this stream, of which nothing is read.
    pub(crate) fn new(options: &RowsOptions, from: R) -> TextReader<R>
        ensures source { unread R.remaining result.source ≡ option_map strip_bom (R.remaining from) }
        ensures marks { marks_config result.marks ≡ config_of options.now }
        ensures line { result.line ≡ 1 }
    {
        TextReader {
            source: ByteSource::new(from),
            marks: Marks::of(options),
            line: 1,
        }
    }

    /// The stream below.
    pub(crate) fn stream(&self) -> &R
        ensures { result.now ≡ self.now.source.stream }
    {
        self.source.stream()
    }

    /// The line of the next byte.
    pub(crate) fn line(&self) -> u64
        ensures { result ≡ self.now.line }
    {
        self.line
    }

    /// Takes one line feed or carriage return that no record begins with, if there is one.
    fn skip_end(&mut self) -> bool
        requires { 0 < length self.old.source.window }
        ensures { PassesEnd self.old self.new result }
    {
        let byte = self.source.bytes()[0];
        if !ends_line(byte) {
            return false;
        }
        self.line = self.line.saturating_add(line_feeds(byte));
        self.source.skip(1);
        true
    }

    /// Goes to the next byte that a record begins with; and whether there is one.
    pub(crate) fn skip_ends(&mut self) -> Result<bool, RowsError>
        ensures passed { IfOk result (λ found. PassesEnds R.remaining self.old self.new found) }
        ensures marks { self.new.marks ≡ self.old.marks }
        ensures refused { IfErr result (λ error. IfTooLong error (λ _. ⊥)) }
    {
        for _ in 0..u64::MAX {
            if !self.source.fill()? {
                return Ok(false);
            }
            if !self.skip_end() {
                return Ok(true);
            }
        }
        Err(RowsError::Memory)
    }

    /// Puts the record that begins here together, which has this number, in place of `row`; and whether the text ends with it. If it is longer packed than it may be, it is
    /// refused before more than 8 KiB of it are past that.
    pub(crate) fn read_record(
        &mut self,
        number: u64,
        longest: usize,
        row: &mut RowBuilder,
        field: &mut Vec<u8>,
    ) -> Result<bool, RowsError>
        ensures passed { IfOk result (λ ends. PassesRecord R.remaining self.old self.new row.new ends) }
        ensures marks { self.new.marks ≡ self.old.marks }
        ensures short { OnOk result (length (packed row.new) ≤ longest) }
        ensures refused { IfErr result (λ error. IfTooLong error (λ refused. (refused ≡ number) × IsLonger R.remaining self.old longest)) }
    {
        row.clear();
        field.clear();
        let mut place = Place::StartField;
        for _ in 0..u64::MAX {
            if !self.source.fill()? {
                end_field(row, field)?;
                if is_longer(row, longest) {
                    return Err(RowsError::TooLong { number });
                }
                return Ok(true);
            }
            let taken = take_next(&self.marks, place, self.source.bytes(), row, field)?;
            self.source.skip(taken.count);
            self.line = self.line.saturating_add(taken.lines);
            if taken.is_whole {
                if is_longer(row, longest) {
                    return Err(RowsError::TooLong { number });
                }
                return Ok(false);
            }
            if is_too_long(row, field, longest) {
                return Err(RowsError::TooLong { number });
            }
            place = taken.place;
        }
        Err(RowsError::Memory)
    }
}
