//! A job over CSV: parcels in, their postage out, each once, through any number of kills. Another job has another record in `parcel` and in
//! specs/Parcels.antt, and other names and classes of faults in `JOB`.
//!
//! `postage [OPTIONS] FOLDER` reads parcels, lines `NAME,GRAMS`, on standard input, and writes lines `NAME,CENTS` on standard output. A line
//! that has no postage is skipped. After a crash, call it again with the same parcels: it resumes from the last checkpoint in FOLDER.
#![tactic(auto)]

mod parcel;

use jb_base::DEFAULT_RETRY_LIMIT;
use jb_csv_job::{CsvJob, CsvJobError, DEFAULT_SLICE_LENGTH, Fate, FaultClass, exit_code, run_job};
use jb_rows::RowsOptions;
use jb_stack::{AnyAnswer, limits_of, run_apart};
use parcel::Postage;
use std::process::ExitCode;

/// What the job is called, and how it runs.
const JOB: CsvJob<'static> = CsvJob {
    name: "postage",
    input: "PARCELS",
    records: "parcels",
    results: "prices",
    options: RowsOptions::CSV,
    slice_length: DEFAULT_SLICE_LENGTH,
    partitions: 8,
    item_count: 100,
    classes: &[FaultClass {
        name: "no postage",
        fate: Fate::Skipped,
    }],
    skip_limit: None,
    job_skip_limit: None,
    retry_limit: DEFAULT_RETRY_LIMIT,
    stamp: "1",
};

fn main(rt: HostRuntime) -> ExitCode {
    let work = move || run_job(&rt, &JOB, Postage);
    match run_apart(&rt, &limits_of(&rt), AnyAnswer, work) {
        Some(status) => status,
        None => exit_code(&rt, &JOB, "", Err(CsvJobError::Memory)),
    }
}
