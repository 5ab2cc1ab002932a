//! Whether a text begins with a header row, and whether it is written.

ghost use Rattle.std.specs.Prelude.{OnOk};
ghost use Rattle.std.specs.Io.KnownBytes.{Appends};
ghost use Rattle.jb_rows.specs.Streams.{IsBetweenRows, csv_rows, kept_header, rows_written};
ghost use Rattle.jb_rows.specs.Texts.{copied_by};

use crate::rows_error::RowsError;
use crate::rows_options::RowsOptions;
use crate::rows_reader::RowsReader;
use crate::rows_writer::RowsWriter;
use std::io::{Read, Write};

/// Whether the first record of a text is a header row, which names the fields and is no record to work on. A text without a record
/// has none.
#[derive(Clone, Copy, Debug)]
pub enum Header {
    /// The first record is as the others.
    None,
    /// It is a header row, which is read and left.
    Skipped,
    /// It is a header row, which is written before the results.
    Copied,
}

/// Writes the header row that the reader keeps, if it is copied.
pub fn copy_header<R: Read, W: Write + Drop>(
    options: &RowsOptions,
    reader: &RowsReader<R>,
    writer: &mut RowsWriter<W>,
) -> Result<(), RowsError>
    ensures { OnOk result (IsBetweenRows options.now.delimiter writer.old → IsBetweenRows options.now.delimiter writer.new
        × Appends (rows_written W.contents writer.old) (rows_written W.contents writer.new) (csv_rows options.now.delimiter (copied_by options.now.header (kept_header reader.now)))) }
{
    match options.header {
        Header::None | Header::Skipped => Ok(()),
        Header::Copied => writer.write_rows(reader.header()),
    }
}
