//! The exit status.

ghost use Rattle.std.specs.Prelude.{◌≡◌, IfErr, IfOk};
ghost use Rattle.std.specs.Process.{exit_status};
ghost use Rattle.jb_csv_job.specs.Statuses.{failure_status};

use crate::failure::CsvJobError;
use crate::failure_status::failure_status;
use crate::failure_text::CsvJobErrorText;
use crate::history::{Event, note};
use crate::host::Host;
use crate::job::CsvJob;
use crate::progress::clear_line;
use crate::reason::report_reason;
use crate::run::JobEnd;
use jb_slice_file::StoreError;
use std::fmt;
use std::process::ExitCode;

/// How a job ended.
#[derive(Clone, Copy)]
struct EndText<'a> {
    is_completed: bool,
    slices: u64,
    records: u64,
    skips: u64,
    failed: u64,
    record_word: &'a str,
}

impl<'a> fmt::Display for EndText<'a> {
    ghost use Rattle.std.specs.Prelude.{Some, if◌then◌else◌};
    ghost use Rattle.jb_csv_job.specs.Reports.{completed_text, failed_text};

    ghost output = { λ text. Some (if text.is_completed then completed_text text.slices text.records text.skips text.record_word.now
        else failed_text text.failed text.slices text.skips text.record_word.now) };

    fn fmt<W: fmt::Write>(&self, f: &mut fmt::Formatter<W>) -> fmt::Result {
        let EndText {
            slices,
            records,
            skips,
            failed,
            record_word,
            ..
        } = *self;
        if self.is_completed {
            return write!(
                f,
                "COMPLETED: slices {slices}, {record_word} {records}, skipped {skips}"
            );
        }
        match failed {
            0 => write!(
                f,
                "FAILED: {skips} {record_word} were skipped, and the limit of the job is lower. What was done is stored. When the author has raised the limit, type the same line again."
            ),
            _ => write!(
                f,
                "FAILED: {failed} of {slices} slices failed, at the records above. What was done is stored. Correct the cause and type the same line again: it runs these slices alone. If their records change, delete their files and logs first."
            ),
        }
    }
}

/// Writes the end of a run to the history of FOLDER.
fn note_end(host: &HostRuntime, folder: &str, status: u8) {
    if !folder.is_empty() {
        note(host, folder, &Event::End { status });
    }
}

/// The exit status of a job's answer: 0 if it is COMPLETED, and 1 if it FAILED. Without an answer it is 2, 3, 4 or 5 (`failure_status`). A line
/// on standard error says which it is, why, and what to type next. `folder` is FOLDER, or empty if the arguments weren't read. Its history says
/// that the run ends, unless the line is wrong: then no run began.
pub fn exit_code<T: Eprint + Host>(
    rt: &T,
    job: &CsvJob,
    folder: &str,
    answer: Result<JobEnd, CsvJobError>,
) -> ExitCode
    ensures answered { IfOk answer (λ end. exit_status result ≡ end.status) }
    ensures refused { IfErr answer (λ failure. exit_status result ≡ failure_status failure) }
{
    clear_line(rt);
    match answer {
        Ok(end) => {
            let text = EndText {
                is_completed: end.status == 0,
                slices: end.slices,
                records: end.records,
                skips: end.skips,
                failed: end.failed,
                record_word: job.records,
            };
            let _told = eprintln!(rt; "{text}");
            note_end(rt.host(), folder, end.status);
            ExitCode::from(end.status)
        }
        Err(failure) => {
            if let CsvJobError::File {
                slice,
                error: StoreError::CannotOpen,
            } = &failure
            {
                report_reason(rt, folder, *slice);
            }
            let text = CsvJobErrorText {
                input: job.input,
                records: job.records,
                folder,
                failure: &failure,
            };
            let _told = eprintln!(rt; "{text}");
            let status = failure_status(&failure);
            if !matches!(&failure, CsvJobError::Words(_)) {
                note_end(rt.host(), folder, status);
            }
            ExitCode::from(status)
        }
    }
}
