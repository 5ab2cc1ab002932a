//! All of a job's `main`.

use crate::asked::{Asked, Request};
use crate::exit::exit_code;
use crate::failure::CsvJobError;
use crate::host::Host;
use crate::job::CsvJob;
use crate::keeper::Watches;
use crate::opening::ready_folder;
use crate::output::Output;
use crate::run::{JobEnd, run_csv_job};
use crate::skipped::{close_list, open_list};
use crate::words::asked_of;
use jb_rows::RowFunction;
use std::io::Stdin;
use std::marker::Brand;
use std::process::ExitCode;
use std::sync::Wait;
use std::thread::Threads;
use std::time::Clock;

/// The job that the command line asks for. Reads the records on standard input, and writes the results on standard output or to a file.
fn answer_of<
    F: RowFunction + Drop + 'static,
    T: Threads + Wait + Clock + Eprint + Host + Copy + Send + Sync + 'static,
>(rt: &T, job: &CsvJob, asked: &Asked, function: F) -> Result<JobEnd, CsvJobError> {
    let host = rt.host();
    ready_folder(host, asked)?;
    let path = match &asked.output {
        Some(path) => Some(path.as_str()),
        None => None,
    };
    let output = Output::open(host, path)?;
    let list = open_list(host, asked)?;
    let mut keeper = Watches::new();
    let (end, output, list) = run_csv_job::<F, T, Brand, Watches, Stdin, Output, Output>(
        rt,
        job,
        asked,
        function,
        host.stdin(),
        output,
        list,
        &mut keeper,
    )?;
    close_list(host, list)?;
    output.close(host, end.status == 0)?;
    Ok(end)
}

/// Runs the job that the command line asks for, `[OPTIONS] FOLDER < INPUT`: each slice of the records resumes from its last checkpoint in FOLDER.
/// Gives the exit status: 0 for COMPLETED, 1 for FAILED, and 2, 3, 4 or 5 if there is no answer, which a line on standard error explains.
pub fn run_job<
    F: RowFunction + Drop + 'static,
    T: Threads + Wait + Clock + Eprint + Host + Copy + Send + Sync + 'static,
>(rt: &T, job: &CsvJob, function: F) -> ExitCode {
    let asked = match asked_of(rt, job, None) {
        Ok(Request::Job(asked)) => asked,
        Ok(Request::Said) => return ExitCode::SUCCESS,
        Err(failure) => return exit_code(rt, job, "", Err(failure)),
    };
    let answer = answer_of(rt, job, &asked, function);
    exit_code(rt, job, asked.folder.as_str(), answer)
}
