//! Records to a stream of CSV.

ghost use Rattle.std.specs.Prelude.{ℕ, [], map, IfOk, OnOk};
ghost use Rattle.std.specs.Io.KnownBytes.{Appends, Keeps};
ghost use Rattle.csv.specs.Records.{fields_of};
ghost use Rattle.csv.specs.Writing.{text_written};
ghost use Rattle.jb_rows.specs.Fields.{fields_in};
ghost use Rattle.jb_rows.specs.Streams.{IsBetween, IsBetweenRows, csv_row, csv_rows, rows_written};

use crate::row::Row;
use crate::rows::Rows;
use crate::rows_error::{RowsError, failure_of};
use crate::rows_options::RowsOptions;
use csv::{ByteRecord, Writer, WriterBuilder};
use jb_base::PackedList;
use std::alloc::Global;
use std::io::Write;

/// Records to a stream of CSV, each a line.
#[derive(Drop)]
pub struct RowsWriter<W: Write + Drop> {
    writer: Writer<W>,
    entry: ByteRecord,
}

/// A writer to this stream.
fn writer_to<W: Write + Drop>(delimiter: u8, to: W) -> Writer<W>
    ensures between { IsBetween delimiter result }
    ensures nothing { Appends (W.contents to) (text_written W.contents result) [] }
{
    WriterBuilder::new()
        .flexible(true)
        .delimiter(delimiter)
        .from_writer(to)
}

/// Lets `entry` grow to the largest of these records, so that an out-of-memory error comes before the first of them is written.
fn grow_for(entry: &mut ByteRecord, records: &PackedList) -> Result<(), RowsError> {
    for index in 0..records.len() {
        Row::of(records.at(index)).copy_to(entry)?;
    }
    Ok(())
}

/// Writes a record.
fn write_record<W: Write + Drop>(
    writer: &mut Writer<W>,
    entry: &ByteRecord,
) -> Result<(), RowsError>
    ensures { OnOk result ((delimiter : ℕ) → IsBetween delimiter writer.old → IsBetween delimiter writer.new
        × Appends (text_written W.contents writer.old) (text_written W.contents writer.new) (csv_row delimiter (fields_of entry.now))) }
{
    match writer.write_byte_record(entry) {
        Ok(()) => Ok(()),
        Err(error) => Err(failure_of(error)),
    }
}

impl<W: Write + Drop> RowsWriter<W> {
    /// Records to this stream. Takes no memory, and writes nothing.
    pub fn new(alloc: Global, options: &RowsOptions, to: W) -> RowsWriter<W>
        ensures between { IsBetweenRows options.now.delimiter result }
        ensures nothing { Appends (W.contents to) (rows_written W.contents result) [] }
    {
        RowsWriter {
            writer: writer_to(options.delimiter, to),
            entry: ByteRecord::new(alloc),
        }
    }

    /// Writes the records, each a line, one after the other.
    pub fn write_rows(&mut self, rows: &Rows) -> Result<(), RowsError>
        ensures { OnOk result ((delimiter : ℕ) → IsBetweenRows delimiter self.old → IsBetweenRows delimiter self.new
            × Appends (rows_written W.contents self.old) (rows_written W.contents self.new) (csv_rows delimiter rows.now)) }
    {
        self.write_packed(rows.as_list())
    }

    /// Writes each of these strings as the record whose fields it has, packed. Out of memory is reported before any of them is written.
    pub fn write_packed(&mut self, records: &PackedList) -> Result<(), RowsError>
        ensures { OnOk result ((delimiter : ℕ) → IsBetweenRows delimiter self.old → IsBetweenRows delimiter self.new
            × Appends (rows_written W.contents self.old) (rows_written W.contents self.new) (csv_rows delimiter (map fields_in records.now))) }
    {
        grow_for(&mut self.entry, records)?;
        for index in 0..records.len() {
            Row::of(records.at(index)).copy_to(&mut self.entry)?;
            write_record(&mut self.writer, &self.entry)?;
        }
        Ok(())
    }

    /// The stream, after all that was written.
    pub fn finish(self) -> Result<W, RowsError>
        ensures { IfOk result (λ to. Keeps (rows_written W.contents self) (W.contents to)) }
    {
        let RowsWriter { writer, entry: _ } = self;
        match writer.into_inner() {
            Ok(to) => Ok(to),
            Err(error) => Err(failure_of(error.into_error())),
        }
    }
}
