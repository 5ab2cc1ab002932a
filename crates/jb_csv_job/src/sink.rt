//! Who takes the results of slices, or the rows of the list of skipped records.

ghost use Rattle.std.specs.Prelude.{◌++◌, ℕ, [], List, IfErr, IfOk, OnOk};
ghost use Rattle.std.specs.Io.KnownBytes.{Appends, Keeps};
ghost use Rattle.jb_rows.specs.Streams.{csv_rows, kept_header};
ghost use Rattle.jb_rows.specs.Texts.{copied_by};
ghost use Rattle.jb_csv_job.specs.Tasks.{given_by};

use crate::asked::Task;
use crate::failure::CsvJobError;
use jb_base::PackedList;
use jb_rows::{RowsOptions, RowsReader, RowsWriter, copy_header};
use std::alloc::Global;
use std::io::{Read, Write};

/// Who takes the results of slices, or the rows of the list of skipped records: those of a slice once it has ended, one slice after the other.
pub trait Sink {
    ghost use Rattle.jb_csv_job.specs.declared.failure.CsvJobError.{CsvJobError};

    /// Since it was `start` it took these results, packed, in this order.
    ghost took: { (start now : Self) → (results : List (List ℕ)) → Type 0 };

    /// Its own failures.
    ghost may_refuse: { CsvJobError → Type 0 };

    /// Takes these results after the others. After an error nothing is known of what it took.
    fn take(&mut self, results: &PackedList) -> Result<(), CsvJobError>
        ensures taken { OnOk result ((start : Self) (before : List (List ℕ)) → took start self.old before → took start self.new (before ++ results.now)) }
        ensures refused { IfErr result may_refuse };

    ghost none: { (s : Self) → took s s [] };
}

/// Writes the results, or the rows of the list, each a line of CSV.
#[derive(Drop)]
pub struct CsvSink<W: Write + Drop> {
    writer: RowsWriter<W>,
}

impl<W: Write + Drop> CsvSink<W> {
    ghost use Rattle.jb_csv_job.specs.Sinks.{IsBetweenLines, IsRowsError, lines_written};

    /// To this stream. Takes no memory, and writes nothing.
    pub fn new(alloc: Global, options: &RowsOptions, to: W) -> CsvSink<W>
        ensures between { IsBetweenLines options.now.delimiter result }
        ensures nothing { Appends (W.contents to) (lines_written W.contents result) [] }
    {
        CsvSink {
            writer: RowsWriter::new(alloc, options, to),
        }
    }

    /// Writes the header row that the reader keeps, if it is copied, and the task isn't a part.
    pub fn write_header<R: Read>(
        &mut self,
        task: Task,
        options: &RowsOptions,
        reader: &RowsReader<R>,
    ) -> Result<(), CsvJobError>
        ensures written { OnOk result (IsBetweenLines options.now.delimiter self.old → IsBetweenLines options.now.delimiter self.new
            × Appends (lines_written W.contents self.old) (lines_written W.contents self.new)
            (csv_rows options.now.delimiter (given_by task (copied_by options.now.header (kept_header reader.now))))) }
        ensures cause { IfErr result IsRowsError }
    {
        match task {
            Task::Run | Task::Collect => {
                copy_header(options, reader, &mut self.writer)?;
                Ok(())
            }
            Task::Part { .. } => Ok(()),
        }
    }

    /// The stream, after all that was written.
    pub fn finish(self) -> Result<W, CsvJobError>
        ensures kept { IfOk result (λ to. Keeps (lines_written W.contents self) (W.contents to)) }
        ensures cause { IfErr result IsRowsError }
    {
        let to = self.writer.finish()?;
        Ok(to)
    }
}

impl<W: Write + Drop> Sink for CsvSink<W> {
    ghost use Rattle.jb_csv_job.specs.Sinks.{HasTaken, IsRowsError, taken_none};

    ghost took = { HasTaken W.contents };

    ghost may_refuse = { IsRowsError };

    fn take(&mut self, results: &PackedList) -> Result<(), CsvJobError> {
        self.writer.write_packed(results)?;
        Ok(())
    }

    ghost none = { taken_none W.contents };
}
