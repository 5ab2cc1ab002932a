//! The status of a step or a job, and the exit status of a job.

ghost use Rattle.std.specs.Prelude.{◌≡◌, ◌<◌};
ghost use Rattle.jb_texts.specs.Statuses.{status_code, status_name};

use jb_collect::Status;

/// The batch status as Jakarta Batch names it.
pub fn status_name(status: Status) -> &'static str
    ensures { result.now ≡ status_name status }
{
    match status {
        Status::Started => "STARTED",
        Status::Stopped => "STOPPED",
        Status::Failed => "FAILED",
        Status::Completed => "COMPLETED",
    }
}

/// The exit status of a job with this status: 0 if it is completed, 1 if it failed, and 2 if it was stopped before its
/// end.
pub fn status_code(status: Status) -> u8
    ensures code { result ≡ status_code status }
    ensures range { result < 3 }
{
    match status {
        Status::Started | Status::Stopped => 2,
        Status::Failed => 1,
        Status::Completed => 0,
    }
}
