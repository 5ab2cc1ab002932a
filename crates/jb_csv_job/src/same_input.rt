//! Whether an input that was read to its end is the one that is asked for.

ghost use Rattle.std.specs.Prelude.{◌≡◌, ◌≢◌, ◌⊎◌, ℕ, [], true, List, Some, None, IfErr, IfSome, IsSome, OnOk};
ghost use Rattle.jb_rows.specs.Streams.{ends_open, is_over, stream_of};
ghost use Rattle.jb_csv_job.specs.Causes.{IsRunError};
ghost use Rattle.jb_csv_job.specs.Inputs.{IsAskedFor, IsEndTaken, IsOtherDigest, IsSameInput};
ghost use Rattle.jb_csv_job.specs.Measuring.{HasPassed, reader_of};
ghost use Rattle.jb_csv_job.specs.declared.failure.CsvJobError.TheVariants.{Memory, NoLineEnd, OtherLength};

use crate::asked::Asked;
use crate::failure::CsvJobError;
use crate::measured::{Measure, Measured, Measures};
use jb_rows::RowsReader;
use std::alloc::Global;
use std::io::Read;

impl Asked {
    /// The input, measured as what is asked for needs it.
    pub fn measured<R: Read>(&self, from: R) -> Measured<R>
        ensures reader { reader_of result ≡ from }
        ensures nothing { HasPassed result [] }
    {
        Measured::new(from, self.sha256.is_some())
    }

    /// Refuses another number of bytes than `--bytes` says.
    fn refuse_other_length(&self, read: u64) -> Result<(), CsvJobError>
        ensures same { OnOk result (IfSome self.now.bytes (λ n. read ≡ n)) }
        ensures other { IfErr result (λ e. (n : ℕ) × (self.now.bytes ≡ Some n) × (n ≢ read) × (e ≡ OtherLength n read)) }
    {
        match self.bytes {
            Some(asked) if asked != read => Err(CsvJobError::OtherLength { asked, read }),
            _ => Ok(()),
        }
    }

    /// Refuses another digest than `--sha256` says.
    fn refuse_other_digest(&self, alloc: Global, read: Option<[u8; 32]>) -> Result<(), CsvJobError>
        ensures same { OnOk result (IfSome self.now.sha256 (λ d. read ≡ Some d)) }
        ensures other { IfErr result (IsOtherDigest self.now.sha256 read) }
    {
        let Some(asked) = self.sha256 else {
            return Ok(());
        };
        if read == Some(asked) {
            return Ok(());
        }
        let read = match read {
            Some(read) => hex::encode(alloc, read)?,
            None => "unknown".to_string(alloc)?,
        };
        Err(CsvJobError::OtherDigest {
            asked: hex::encode(alloc, asked)?,
            read,
        })
    }

    /// With `--records` alone, refuses a last line without a line end: it may be cut.
    fn refuse_open_end(&self, ends_open: bool) -> Result<(), CsvJobError>
        ensures whole { OnOk result (IsEndTaken self.now ends_open) }
        ensures other { IfErr result (λ e. (e ≡ NoLineEnd) × (ends_open ≡ true) × IsSome self.now.records × (self.now.bytes ≡ None) × (self.now.sha256 ≡ None)) }
    {
        if ends_open && self.records.is_some() && self.bytes.is_none() && self.sha256.is_none() {
            return Err(CsvJobError::NoLineEnd);
        }
        Ok(())
    }

    /// Refuses an input that was read to its end, if it isn't the one that is asked for. It has another number of bytes than `--bytes` says, or
    /// another digest than `--sha256` says. With `--records` and none of these two, its last line must have a line end.
    ///
    /// # Errors
    /// `OtherLength`, `OtherDigest`, `NoLineEnd` and `Memory`, the first of these.
    pub fn refuse_other_input(
        &self,
        alloc: Global,
        measure: Measure,
        ends_open: bool,
    ) -> Result<(), CsvJobError>
        ensures same { OnOk result (IsSameInput self.now measure ends_open) }
        ensures other { IfErr result (λ e. (e ≡ Memory) ⊎ (IsSameInput self.now measure ends_open → ⊥)) }
        ensures cause { IfErr result (IsRunError self.now) }
    {
        self.refuse_other_length(measure.bytes)?;
        self.refuse_other_digest(alloc, measure.sha256)?;
        self.refuse_open_end(ends_open)
    }
}

/// Refuses the input of a reader that came to its end, if it isn't the one that is asked for.
pub(crate) fn refuse_other_input<R: Read + Measures>(
    alloc: Global,
    asked: &Asked,
    reader: &RowsReader<R>,
) -> Result<(), CsvJobError>
    // After the end, and without an error, the bytes that were read are those that are asked for.
    ensures same { OnOk result (is_over reader.now ≡ true → (text : List ℕ) → R.passed (stream_of reader.now) text → IsAskedFor asked.now text (ends_open reader.now)) }
    ensures cause { IfErr result (IsRunError asked.now) }
{
    if !reader.is_over() {
        return Ok(());
    }
    asked.refuse_other_input(alloc, reader.stream().measure(), reader.ends_open())
}
